// Answers of several words: each in hex behind a space, all on one line.
use crate::floats;
use std::io;

pub fn word(rt: &impl Print, value: u64) -> io::Result<()> {
    print!(rt; " {value:x}")
}

// A count as a word, by `as`, since there is no `From` from usize to u64.
pub fn count(rt: &impl Print, n: usize) -> io::Result<()> {
    word(rt, n as u64)
}

pub fn end(rt: &impl Print) -> io::Result<()> {
    println!(rt)
}

// The first `n` entries, or all of them, each as the word that `of` makes of it. The number stands beside the list, since a list that
// a call was lent may be longer than what its answer counts.
fn entries<T: Copy, F: Fn(T) -> u64>(rt: &impl Print, list: &[T], n: usize, of: F) -> io::Result<()>
    requires { F.IsAlwaysCallable of }
{
    for x in list.iter().take(n) {
        word(rt, of(*x))?;
    }
    Ok(())
}

// Whole numbers of any width up to a word's.
pub fn wholes<T: Copy>(rt: &impl Print, list: &[T], n: usize) -> io::Result<()>
where
    u64: From<T>,
{
    entries(rt, list, n, u64::from)
}

// The bits of floats.
pub fn floats(rt: &impl Print, list: &[f64], n: usize) -> io::Result<()> {
    entries(rt, list, n, floats::bits_of)
}
