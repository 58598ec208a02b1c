// What a stored page is given by value: sides, resolution, x-height and settings. A call without a picture has
// sides 0.
use params::settings::RulingsParams;
use std::io;
use stored::words::Reader;
use stored::{floats, words, written};

#[derive(Clone, Copy)]
pub struct Given {
    pub w: usize,
    pub h: usize,
    pub dpi: u16,
    pub xheight: f64,
    pub p: RulingsParams,
}

pub fn read(reader: &mut Reader<'_>) -> Given {
    Given {
        w: reader.word() as usize,
        h: reader.word() as usize,
        dpi: words::short_of(reader.word()),
        xheight: floats::float_of(reader.word()),
        p: stored::settings::read(reader),
    }
}

// Answers to `validate`: 1 where it accepts, and the number of the first missed question, which is 13 for
// settings that it accepts and that let `min_free_rules` be 0.
pub fn answer(rt: &impl Print, given: Given) -> io::Result<()> {
    let accepted = params::validate::validate(given.p).is_ok();
    let number = questions::number(params::validate::missed_by_settings(given.p));
    written::word(rt, u64::from(accepted))?;
    written::word(rt, u64::from(number))?;
    written::end(rt)
}
