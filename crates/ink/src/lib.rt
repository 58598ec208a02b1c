// Ink on a byte mask: read at a place by `is_ink`, counted in a row's span by `row_count`, and nowhere else.
#![tactic(auto)]

ghost use Rattle.ink.specs.Ink as Ink;
ghost use Rattle.ink.specs.Steps.{Readable};

use rects::Rect;
use std::marker::Model;

pub mod read;

// A picture of w columns, row by row: a byte that is not 0 is ink.
#[derive(Drop)]
pub struct Mask<'a> {
    pub bytes: &'a [u8],
    pub w: usize,
}

impl<'a> Model for Mask<'a> {
    ghost Value = { Ink.Mask };

    ghost view = { λ m. record { bytes = m.bytes.now; w = m.w } };
}

// A rectangle of a mask, in order and inside it.
#[derive(Drop)]
pub struct Region<'a> {
    pub mask: &'a Mask<'a>,
    pub rect: Rect,
}

impl<'a> Model for Region<'a> {
    ghost Value = { Ink.Region };

    ghost view = { λ r. record { mask = r.mask.now; rect = r.rect } };

    ghost invariant = { λ r. Readable r.mask.now r.rect };
}

// Which lines of a region are read.
#[derive(Clone, Copy)]
pub enum Lines {
    Rows,
    Columns,
}
