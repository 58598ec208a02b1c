// The lists of findings, as they are read.
ghost use Rattle.finding_lists.specs.Columns.{Columns};
ghost use Rattle.read_findings.specs.Read.{columns};

use std::marker::Model;

// Page rectangles, kinds with three whole facts each, log odds, two evidences, and a fold's length: entry i of each is finding i's.
#[derive(Drop)]
pub struct FindingLists<'a> {
    pub rects: &'a [u32],
    pub kinds: &'a [u32],
    pub a: &'a [u32],
    pub b: &'a [u32],
    pub c: &'a [u32],
    pub log_odds: &'a [f64],
    pub first_values: &'a [f64],
    pub first_thresholds: &'a [f64],
    pub first_llrs: &'a [f64],
    pub second_values: &'a [f64],
    pub second_thresholds: &'a [f64],
    pub second_llrs: &'a [f64],
    pub lengths: &'a [f64],
}

impl<'a> Model for FindingLists<'a> {
    ghost Value = { Columns };

    ghost view = { λ l. columns l.rects.now l.kinds.now l.a.now l.b.now l.c.now l.log_odds.now l.first_values.now l.first_thresholds.now l.first_llrs.now l.second_values.now l.second_thresholds.now l.second_llrs.now l.lengths.now };
}
