// The shear tables.
ghost use Rattle.std.specs.Prelude.{◌≡◌, ◌≤◌, ◌<◌, ◌&&◌, leb, nat_abs, length};
ghost use Rattle.std.specs.Int.Signed.{non_neg};
ghost use Rattle.layout.specs.Tables.{entry, entries_fit, shears_long, shears_fit};
ghost use Rattle.layout.specs.Steps.{NotBelow};

use crate::sides::Sides;

// The sides, and the tables: how far down each page column is moved, and how far across each levelled row.
#[derive(Drop)]
pub struct Shears<'a> {
    pub sides: Sides,
    pub shear: &'a [i32],
    pub shear_x: &'a [i32],
}

// An entry that is not below 0.
pub fn entry_at(table: &[i32], i: usize) -> usize
    requires { (i < length table.now) × NotBelow table.now }
    ensures { result ≡ entry table.now i }
{
    table[i] as usize
}

// An entry is from 0 to limit.
fn entry_fits(z: i32, limit: usize) -> bool
    ensures { result ≡ non_neg z && leb (nat_abs z) limit }
{
    0 <= z && z as usize <= limit
}

// Every entry is from 0 to limit.
pub fn entries_fit(table: &[i32], limit: usize) -> bool
    ensures { result ≡ entries_fit limit table.now }
{
    table.iter().all(|z| entry_fits(*z, limit))
}

impl Shears<'_> {
    // Question 3 of the tables.
    pub fn tables_long(&self) -> bool
        ensures { result ≡ shears_long self.now.sides self.now.shear.now self.now.shear_x.now }
    {
        (self.shear.len() == self.sides.pw) & (self.shear_x.len() == self.sides.h)
    }

    // Question 4.
    pub fn tables_fit(&self) -> bool
        requires { (self.now.sides.pw ≤ self.now.sides.w) × (self.now.sides.ph ≤ self.now.sides.h) }
        ensures { result ≡ shears_fit self.now.sides self.now.shear.now self.now.shear_x.now }
    {
        let sides = self.sides;
        let down = entries_fit(self.shear, sides.h - sides.ph);
        let across = entries_fit(self.shear_x, sides.w - sides.pw);
        down & across
    }

    // How far down page column x is moved.
    pub fn down(&self, x: usize) -> usize
        requires { (x < length self.now.shear.now) × NotBelow self.now.shear.now }
        ensures { result ≡ entry self.now.shear.now x }
    {
        entry_at(self.shear, x)
    }

    // How far across levelled row y is moved.
    pub fn across(&self, y: usize) -> usize
        requires { (y < length self.now.shear_x.now) × NotBelow self.now.shear_x.now }
        ensures { result ≡ entry self.now.shear_x.now y }
    {
        entry_at(self.shear_x, y)
    }
}
