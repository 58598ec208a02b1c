// Writes what was found on a form, in words and numbers.
use evidence::finding::{Finding, Kind, Row};
use read_findings::lent::FindingLists;
use small_pages::found::Found;
use std::io;

pub fn show(rt: &impl Print, found: &Found) -> io::Result<()> {
    let a = found.answer;
    print!(rt;
        "form: answer {}, {} rulings, {} printed, {} faint, ",
        a.number, a.rulings, a.printed, a.faint
    )?;
    println!(rt;
        "{} tables, {} boxes, {} grids, {} findings",
        a.tables, a.boxes, a.grids, a.findings
    )?;
    let lists = lists(found);
    for i in 0..a.findings {
        if let Some(f) = read_findings::finding_at(&lists, a.findings, i) {
            finding(rt, f)?;
        }
    }
    Ok(())
}

fn lists(found: &Found) -> FindingLists {
    FindingLists {
        rects: &found.page,
        kinds: &found.kinds,
        a: &found.a,
        b: &found.b,
        c: &found.c,
        log_odds: &found.log_odds,
        first_values: &found.first_values,
        first_thresholds: &found.first_thresholds,
        first_llrs: &found.first_llrs,
        second_values: &found.second_values,
        second_thresholds: &found.second_thresholds,
        second_llrs: &found.second_llrs,
        lengths: &found.lengths,
    }
}

// A finding: its kind, its rectangle on the page, its facts, its log odds.
fn finding(rt: &impl Print, f: Finding) -> io::Result<()> {
    let first = f.first.value;
    let log_odds = f.log_odds;
    match f.kind {
        Kind::Table {
            rows,
            columns,
            rulings,
            second,
        } => {
            let share = second.value;
            place(rt, f, "table")?;
            print!(rt;
                ", {rows} rows, {columns} columns, {rulings} rulings, cells {first:.2}, joined share {share:.2}"
            )?;
        }
        Kind::Grid {
            boxes,
            ticked,
            second,
        } => {
            let coverage = second.value;
            place(rt, f, "grid")?;
            print!(rt; ", {boxes} boxes, {ticked} ticked, mean edge {coverage:.2}")?;
        }
        Kind::Fold { vertical, length } => {
            let direction = if vertical { "vertical" } else { "horizontal" };
            place(rt, f, "fold")?;
            print!(rt; ", {direction}, contrast {first:.2}, inches {length:.2}")?;
        }
        Kind::FreeRules { .. } => {
            place(rt, f, "rules")?;
            print!(rt; ", rules")?;
        }
    }
    println!(rt; ", log odds {log_odds:.2}")
}

fn place(rt: &impl Print, f: Finding, name: &str) -> io::Result<()> {
    let kind = Row::from(f).kind;
    let r = f.bbox;
    print!(rt;
        "{name} from {}, {} to {}, {}: kind {kind}",
        r.x0, r.y0, r.x1, r.y1
    )
}
