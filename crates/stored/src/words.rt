// The words of the stored calls: hex digits, ended by one byte that is none.
ghost use Rattle.std.specs.Prelude.{◌≡◌, ◌↔◌, ◌≤◌, ◌<◌, List, ℕ, length, map, IfSome, IsTrue};
ghost use Rattle.stored.specs.Texts.{digit_of, word_of, behind, words, rest};

use std::marker::Model;

// A text that is read word by word: what is left of it.
#[derive(Drop)]
pub struct Reader<'a> {
    rest: &'a [u8],
}

impl<'a> Model for Reader<'a> {
    ghost Value = { List ℕ };

    ghost view = { λ r. r.rest.now };
}

impl<'a> Reader<'a> {
    pub fn new(text: &'a [u8]) -> Reader<'a>
        ensures { result ≡ text.now }
    {
        Reader { rest: text }
    }

    pub fn is_at_end(&self) -> bool
        ensures { IsTrue result ↔ (length self.now ≡ 0) }
    {
        self.rest.is_empty()
    }

    // The next word, of which the last 16 digits count; 0 at the end of the text.
    pub fn word(&mut self) -> u64
        ensures shorter { length self.new ≤ length self.old }
        ensures word { result ≡ word_of self.old }
        ensures left { self.new ≡ behind self.old }
    {
        let mut value = 0;
        // A `while`, since it ends with the input.
        while let Some((b, rest)) = self.rest.split_first() {
            self.rest = rest;
            match digit(*b) {
                Some(d) => value = value % 0x1000_0000_0000_0000 * 16 + d,
                None => return value,
            }
        }
        value
    }

    // Fills `out` with entries, each what `of` makes of a word.
    pub fn fill<T: Copy, F: Fn(u64) -> T>(&mut self, out: &mut [T], of: F)
        requires { F.IsAlwaysCallable of }
        ensures entries { (g : ℕ → T) → ((x : ℕ) (r : T) → F.post of x r → r ≡ g x) → out.new ≡ map g (words (length out.old) self.old) }
        ensures left { self.new ≡ rest (length out.old) self.old }
    {
        for x in out.iter_mut() {
            *x = of(self.word());
        }
    }

    // Fills the front of `out` with a list, whose first word is its count, and returns how many entries it read: as
    // many as the count says or as there is room for.
    pub fn list<T: Copy, F: Fn(u64) -> T>(&mut self, out: &mut [T], of: F) -> usize
        requires { F.IsAlwaysCallable of }
        ensures { result ≤ length out.new }
    {
        // By `as`, since there is no `From` between usize and u64.
        let n = self.word().min(out.len() as u64) as usize;
        self.fill(&mut out[..n], of);
        n
    }
}

// The value of a hex digit.
#[tactic(auto, unfolding(crate::specs::Texts::digit_of))]
fn digit(b: u8) -> Option<u64>
    ensures range { IfSome result (λ d. d < 16) }
    ensures value { result ≡ digit_of b }
{
    match b {
        b'0'..=b'9' => Some(u64::from(b - b'0')),
        b'a'..=b'f' => Some(u64::from(b - b'a') + 10),
        _ => None,
    }
}

// A number of 32 bits: the low ones of a word. `as` must lose nothing, so the rest is cut first, here and below.
pub fn whole_of(value: u64) -> u32 {
    (value % 0x1_0000_0000) as u32
}

// A number of 16 bits.
pub fn short_of(value: u64) -> u16 {
    (value % 0x1_0000) as u16
}

// A byte: the low bits of a word.
pub fn byte_of(value: u64) -> u8 {
    (value % 256) as u8
}

// The number of 32 bits in two's complement.
pub fn signed_of(value: u64) -> i32 {
    whole_of(value).cast_signed()
}
