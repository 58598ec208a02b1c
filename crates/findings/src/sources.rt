// What findings are made from, as specs/Made has it.
ghost use Rattle.findings.specs.Made as Made;
ghost use Rattle.findings.specs.Steps.{Mapping};

use layout::tables::Shears;
use params::settings::{FusionParams, RulingsParams};
use std::marker::Model;

// What findings are scored by: the way back to the page, which is known, the settings and the caps.
#[derive(Drop)]
pub struct Scan<'a> {
    pub shears: Shears<'a>,
    pub settings: RulingsParams,
    pub caps: FusionParams,
}

impl<'a> Model for Scan<'a> {
    ghost Value = { Made.Scan };

    ghost view = { λ s. record {
      sides = s.shears.sides;
      shear = s.shears.shear.now;
      shear_x = s.shears.shear_x.now;
      settings = s.settings;
      caps = s.caps;
    } };

    ghost invariant = { λ s. Mapping s.shears.sides s.shears.shear.now s.shears.shear_x.now };
}

// The rulings.
#[derive(Drop)]
pub struct RulingLists<'a> {
    pub rects: &'a [u32],
    pub directions: &'a [u32],
    pub contrasts: &'a [f64],
}

impl<'a> Model for RulingLists<'a> {
    ghost Value = { Made.RulingLists };

    ghost view = { λ r. record {
      rects = r.rects.now;
      directions = r.directions.now;
      contrasts = r.contrasts.now;
    } };
}

// The tables.
#[derive(Drop)]
pub struct TableLists<'a> {
    pub bounds: &'a [u32],
    pub rows: &'a [u32],
    pub columns: &'a [u32],
    pub rulings: &'a [u32],
    pub shares: &'a [f64],
}

impl<'a> Model for TableLists<'a> {
    ghost Value = { Made.TableLists };

    ghost view = { λ t. record {
      bounds = t.bounds.now;
      rows = t.rows.now;
      columns = t.columns.now;
      rulings = t.rulings.now;
      shares = t.shares.now;
    } };
}
