// Float steps.
use crate::show;
use std::io;

pub fn run(rt: &impl Print) -> io::Result<()> {
    nine_values(rt)?;
    a_little_less_than_half(rt)?;
    halves(rt)
}

// 2^53 and eight times 1: the last five make 5 before they meet 2^53, which takes 4 of it. Any
// other grouping loses every 1, or all but two.
fn nine_values(rt: &impl Print) -> io::Result<()> {
    let nine = [9007199254740992.0, 1.0, 1.0, 1.0, 1.0, 1.0, 1.0, 1.0, 1.0];
    show(
        rt,
        "nine values sum as four and five",
        sums::sum::pairwise_sum(&nine) == 9007199254740996.0,
    )
}

// With 0.5 added and the fraction cut it would be 1.
fn a_little_less_than_half(rt: &impl Print) -> io::Result<()> {
    show(
        rt,
        "0.49999999999999994 rounds to 0",
        rounding::round(0.49999999999999994) == 0.0,
    )
}

fn halves(rt: &impl Print) -> io::Result<()> {
    show(
        rt,
        "2.5 rounds to 3, -2.5 to -3",
        rounding::round(2.5) == 3.0 && rounding::round(-2.5) == -3.0,
    )
}
