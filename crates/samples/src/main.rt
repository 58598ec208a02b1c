// The sample forms of document 01 that are tried by running, and the five slips seen in such ports.
// `stdout` has a line for each, and every one of them ends in "yes".
#![tactic(auto)]

use std::io;

mod answer_boxes;
mod contrasts;
mod floats;
mod joining;
mod ruled_tables;
mod settings;

fn main(rt: HostRuntime) -> io::Result<()> {
    floats::run(&rt)?;
    contrasts::run(&rt)?;
    answer_boxes::run(&rt)?;
    joining::run(&rt)?;
    ruled_tables::run(&rt)
}

// Writes a line: what was tried, and whether it came out right.
fn show(rt: &impl Print, what: &str, right: bool) -> io::Result<()> {
    let answer = if right { "yes" } else { "no" };
    println!(rt; "{what}: {answer}")
}
