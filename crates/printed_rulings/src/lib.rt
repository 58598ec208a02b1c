// Printed and faint rulings, told apart by their contrasts.
#![tactic(auto)]

ghost use Rattle.std.specs.Prelude.{◌≡◌};
ghost use Rattle.printed_rulings.specs.Printed.{printed};
ghost use Rattle.printed_rulings.specs.Steps.{SplitByContrast, RoomForPlaces};

use params::settings::RulingsParams;

// Printed rulings are dark enough; the others are faint.
pub fn is_printed(p: RulingsParams, contrast: f64) -> bool
    ensures { result ≡ printed p contrast }
{
    p.rule_min_contrast <= contrast
}

// How many rulings are printed, and how many faint.
#[derive(Clone, Copy)]
pub struct Parted {
    pub printed: usize,
    pub faint: usize,
}

// Lists the places of the printed rulings and those of the faint ones.
pub fn split(p: RulingsParams, contrasts: &[f64], printed: &mut [u32], faint: &mut [u32]) -> Parted
    requires { RoomForPlaces contrasts.now printed.old faint.old }
    ensures { SplitByContrast p contrasts.now printed.old faint.old
        printed.new faint.new result.printed result.faint }
{
    // The numbers step by hand, since only what is listed counts.
    let mut dark = 0;
    let mut pale = 0;
    for (k, contrast) in contrasts.iter().enumerate() {
        if is_printed(p, *contrast) {
            printed[dark] = k as u32;
            dark += 1;
        } else {
            faint[pale] = k as u32;
            pale += 1;
        }
    }
    Parted {
        printed: dark,
        faint: pale,
    }
}
