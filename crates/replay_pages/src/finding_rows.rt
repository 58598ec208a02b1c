// The findings of an answer, list by list.
use small_pages::found::Found;
use std::io;
use stored::written;

pub fn write(rt: &impl Print, found: &Found) -> io::Result<()> {
    write_facts(rt, found)?;
    write_scores(rt, found)
}

// Page rectangles, kinds, a, b and c.
fn write_facts(rt: &impl Print, found: &Found) -> io::Result<()> {
    let count = found.answer.findings.min(32);
    written::wholes(rt, &found.page, 4 * count)?;
    written::wholes(rt, &found.kinds, count)?;
    written::wholes(rt, &found.a, count)?;
    written::wholes(rt, &found.b, count)?;
    written::wholes(rt, &found.c, count)
}

// Log odds, the two evidences, lengths.
fn write_scores(rt: &impl Print, found: &Found) -> io::Result<()> {
    let count = found.answer.findings;
    written::floats(rt, &found.log_odds, count)?;
    written::floats(rt, &found.first_values, count)?;
    written::floats(rt, &found.first_thresholds, count)?;
    written::floats(rt, &found.first_llrs, count)?;
    written::floats(rt, &found.second_values, count)?;
    written::floats(rt, &found.second_thresholds, count)?;
    written::floats(rt, &found.second_llrs, count)?;
    written::floats(rt, &found.lengths, count)
}
