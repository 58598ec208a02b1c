// What the findings of a page are made from.
ghost use Rattle.page_findings.specs.Sources as Given;

use findings::sources::{RulingLists, Scan, TableLists};
use grid_findings::sources::BoxLists;
use std::marker::Model;

// How they are scored; the rulings, with the places of the printed and of the faint ones; the tables, with the free list; the boxes, with the grids.
#[derive(Drop)]
pub struct Sources<'a> {
    pub scan: Scan<'a>,
    pub dpi: u16,
    pub ruled: RulingLists<'a>,
    pub printed: &'a [u32],
    pub faint: &'a [u32],
    pub tabled: TableLists<'a>,
    pub free: &'a [u32],
    pub boxed: BoxLists<'a>,
}

impl<'a> Model for Sources<'a> {
    ghost Value = { Given.Sources };

    ghost view = { λ s. record {
      scan = s.scan;
      dpi = s.dpi;
      ruled = s.ruled;
      printed = s.printed.now;
      faint = s.faint.now;
      tabled = s.tabled;
      free = s.free.now;
      boxed = s.boxed;
    } };
}
