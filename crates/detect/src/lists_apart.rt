// The page as one call over its lists one by one, as C and `small_pages` lend them. A struct of lent lists can only be made from parameters.
ghost use Rattle.std.specs.Prelude.{[], ◌∷◌};
ghost use Rattle.page.specs.Call.{Detect};

use finding_lists::lent::LentFindings;
use page::answer::Answer;
use page::given::Page;
use page::lent::{LentMarks, LentRules};

pub fn detect(
    given: &Page,
    levelled: &mut [u8],
    rects: &mut [u32],
    directions: &mut [u32],
    contrasts: &mut [f64],
    printed: &mut [u32],
    faint: &mut [u32],
    piece_members: &mut [u32],
    piece_ends: &mut [u32],
    bounds: &mut [u32],
    rows: &mut [u32],
    columns: &mut [u32],
    rulings: &mut [u32],
    shares: &mut [f64],
    free: &mut [u32],
    printed_members: &mut [u32],
    printed_ends: &mut [u32],
    table_numbers: &mut [u32],
    piece_parents: &mut [u32],
    listed: &mut [u32],
    listed_ends: &mut [u32],
    piece_order: &mut [u32],
    piece_keys: &mut [u64],
    boxes: &mut [u32],
    marks: &mut [u32],
    coverages: &mut [f64],
    reading: &mut [u32],
    box_members: &mut [u32],
    box_ends: &mut [u32],
    grid_numbers: &mut [u32],
    box_parents: &mut [u32],
    box_order: &mut [u32],
    box_keys: &mut [u64],
    page: &mut [u32],
    kinds: &mut [u32],
    a: &mut [u32],
    b: &mut [u32],
    c: &mut [u32],
    log_odds: &mut [f64],
    first_values: &mut [f64],
    first_thresholds: &mut [f64],
    first_llrs: &mut [f64],
    second_values: &mut [f64],
    second_thresholds: &mut [f64],
    second_llrs: &mut [f64],
    lengths: &mut [f64],
) -> Answer
    ensures { Detect given.now
        (record {
          rules = record {
            levelled = levelled.old;
            rects = rects.old;
            directions = directions.old;
            contrasts = contrasts.old;
            printed = printed.old;
            faint = faint.old;
            piece_members = piece_members.old;
            piece_ends = piece_ends.old;
            bounds = bounds.old;
            rows = rows.old;
            columns = columns.old;
            rulings = rulings.old;
            shares = shares.old;
            free = free.old;
            printed_members = printed_members.old;
            printed_ends = printed_ends.old;
            numbers = table_numbers.old;
            parents = piece_parents.old;
            listed = listed.old;
            listed_ends = listed_ends.old;
            order = piece_order.old;
            keys = piece_keys.old;
          };
          marks = record {
            boxes = boxes.old;
            marks = marks.old;
            coverages = coverages.old;
            reading = reading.old;
            members = box_members.old;
            ends = box_ends.old;
            numbers = grid_numbers.old;
            parents = box_parents.old;
            order = box_order.old;
            keys = box_keys.old;
          };
          found = record {
            rects = page.old;
            facts = kinds.old ∷ a.old ∷ b.old ∷ c.old ∷ [];
            scores =
                log_odds.old
                ∷ first_values.old
                ∷ first_thresholds.old
                ∷ first_llrs.old
                ∷ second_values.old
                ∷ second_thresholds.old
                ∷ second_llrs.old
                ∷ lengths.old
                ∷ [];
          };
        })
        (record {
          rules = record {
            levelled = levelled.new;
            rects = rects.new;
            directions = directions.new;
            contrasts = contrasts.new;
            printed = printed.new;
            faint = faint.new;
            piece_members = piece_members.new;
            piece_ends = piece_ends.new;
            bounds = bounds.new;
            rows = rows.new;
            columns = columns.new;
            rulings = rulings.new;
            shares = shares.new;
            free = free.new;
            printed_members = printed_members.new;
            printed_ends = printed_ends.new;
            numbers = table_numbers.new;
            parents = piece_parents.new;
            listed = listed.new;
            listed_ends = listed_ends.new;
            order = piece_order.new;
            keys = piece_keys.new;
          };
          marks = record {
            boxes = boxes.new;
            marks = marks.new;
            coverages = coverages.new;
            reading = reading.new;
            members = box_members.new;
            ends = box_ends.new;
            numbers = grid_numbers.new;
            parents = box_parents.new;
            order = box_order.new;
            keys = box_keys.new;
          };
          found = record {
            rects = page.new;
            facts = kinds.new ∷ a.new ∷ b.new ∷ c.new ∷ [];
            scores =
                log_odds.new
                ∷ first_values.new
                ∷ first_thresholds.new
                ∷ first_llrs.new
                ∷ second_values.new
                ∷ second_thresholds.new
                ∷ second_llrs.new
                ∷ lengths.new
                ∷ [];
          };
        }) result }
{
    let mut rules = LentRules {
        levelled,
        rects,
        directions,
        contrasts,
        printed,
        faint,
        piece_members,
        piece_ends,
        bounds,
        rows,
        columns,
        rulings,
        shares,
        free,
        printed_members,
        printed_ends,
        numbers: table_numbers,
        parents: piece_parents,
        listed,
        listed_ends,
        order: piece_order,
        keys: piece_keys,
    };
    let mut boxed = LentMarks {
        boxes,
        marks,
        coverages,
        reading,
        members: box_members,
        ends: box_ends,
        numbers: grid_numbers,
        parents: box_parents,
        order: box_order,
        keys: box_keys,
    };
    let mut found = LentFindings {
        rects: page,
        kinds,
        a,
        b,
        c,
        log_odds,
        first_values,
        first_thresholds,
        first_llrs,
        second_values,
        second_thresholds,
        second_llrs,
        lengths,
    };
    crate::detect(given, &mut rules, &mut boxed, &mut found)
}
