// A finding is one of four kinds, each with its own facts.
ghost use Rattle.std.specs.Prelude.{◌≡◌};
ghost use Rattle.evidence.specs.Finding.{number_of, named, row_of, finite_evidence, finite_finding};

use layout::rect::PageRect;

// A value, the threshold that it is held against, and its clamped log likelihood ratio.
#[derive(Clone, Copy)]
pub struct Evidence {
    pub value: f64,
    pub threshold: f64,
    pub llr: f64,
}

// What each kind has of its own. The value of the second evidence is a table's joined share, the free rules' mean contrast, a
// grid's mean edge coverage.
#[derive(Clone, Copy)]
pub enum Kind {
    Table {
        rows: u32,
        columns: u32,
        rulings: u32,
        second: Evidence,
    },
    FreeRules {
        horizontal: u32,
        vertical: u32,
        longest: u32,
        second: Evidence,
    },
    Grid {
        boxes: u32,
        ticked: u32,
        second: Evidence,
    },
    // A `bool`, as in the Rust: it is what a test finds of the list of directions, and a row holds it as a number.
    Fold {
        vertical: bool,
        length: f64,
    },
}

// A kind without its facts, by its number in document 01.
#[derive(Clone, Copy)]
pub enum KindName {
    Table = 16,
    FreeRules = 17,
    Grid = 18,
    Fold = 19,
}

impl KindName {
    // A method and no `From`: the name says which number it is.
    pub fn number(self) -> u32
        ensures { result ≡ number_of self }
    {
        self as u32
    }
}

// A number that no kind has.
#[derive(Clone, Copy)]
pub struct NoKind;

impl TryFrom<u32> for KindName {
    type Error = NoKind;

    ghost try_from_gives = { λ number kind. kind ≡ named number };

    fn try_from(number: u32) -> Result<Self, NoKind> {
        match number {
            16 => Ok(KindName::Table),
            17 => Ok(KindName::FreeRules),
            18 => Ok(KindName::Grid),
            19 => Ok(KindName::Fold),
            _ => Err(NoKind),
        }
    }
}

// Log odds, rectangle on the page, first evidence, and what its kind has.
#[derive(Clone, Copy)]
pub struct Finding {
    pub log_odds: f64,
    pub bbox: PageRect,
    pub first: Evidence,
    pub kind: Kind,
}

// A finding as numbers, as the lists of findings hold it.
#[derive(Clone, Copy)]
pub struct Row {
    pub bbox: PageRect,
    // Its number, as C's list of kinds holds it.
    pub kind: u32,
    pub a: u32,
    pub b: u32,
    pub c: u32,
    pub log_odds: f64,
    pub first: Evidence,
    pub second: Evidence,
    pub length: f64,
}

impl From<Finding> for Row {
    ghost from_gives = { λ f row. row ≡ row_of f };

    fn from(f: Finding) -> Row {
        let kind = f.kind;
        let bbox = f.bbox;
        let first = f.first;
        let none = Evidence {
            value: 0.0,
            threshold: 0.0,
            llr: 0.0,
        };
        match kind {
            Kind::Table {
                rows,
                columns,
                rulings,
                second,
            } => Row {
                bbox,
                kind: KindName::Table.number(),
                a: rows,
                b: columns,
                c: rulings,
                log_odds: f.log_odds,
                first,
                second,
                length: 0.0,
            },
            Kind::FreeRules {
                horizontal,
                vertical,
                longest,
                second,
            } => Row {
                bbox,
                kind: KindName::FreeRules.number(),
                a: horizontal,
                b: vertical,
                c: longest,
                log_odds: f.log_odds,
                first,
                second,
                length: 0.0,
            },
            Kind::Grid {
                boxes,
                ticked,
                second,
            } => Row {
                bbox,
                kind: KindName::Grid.number(),
                a: boxes,
                b: ticked,
                c: 0,
                log_odds: f.log_odds,
                first,
                second,
                length: 0.0,
            },
            Kind::Fold { vertical, length } => Row {
                bbox,
                kind: KindName::Fold.number(),
                a: u32::from(vertical),
                b: 0,
                c: 0,
                log_odds: f.log_odds,
                first,
                second: none,
                length,
            },
        }
    }
}

fn finite_evidence(e: Evidence) -> bool
    ensures { result ≡ finite_evidence e }
{
    select::finite(e.value) & select::finite(e.threshold) & select::finite(e.llr)
}

// Question 15 of one finding: is every evidence number finite? The places that a fold doesn't use are.
pub fn is_finite(f: Finding) -> bool
    ensures { result ≡ finite_finding f }
{
    let row = Row::from(f);
    let first = row.first;
    let second = row.second;
    finite_evidence(first) & finite_evidence(second)
}
