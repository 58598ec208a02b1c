// The page as one call (crate `detect`); pw and ph are the page's sides, w and h the levelled picture's.
ghost use Rattle.std.specs.Prelude.{[], ◌∷◌};
ghost use Rattle.page.specs.Call.{Detect};
ghost use Rattle.lanegravel.specs.Places.{SameBytes, SameChosen, SameFacts, SameKeys, SameNumbers, SameRects, SameRest, SameScores, SameSets, SameTags, SameValues, SameWords, SameWork};

use crate::detect_lists::{
    Bytes, Chosen, Facts, Keys, Numbers, Rects, Rest, Scores, Sets, Tags, Values, Words, Work,
};
use layout::sides::Sides;
use page::given::Page;

#[unsafe(no_mangle)]
pub extern "C" fn lanegravel_detect(
    pw: usize,
    ph: usize,
    w: usize,
    h: usize,
    dpi: u16,
    xheight: f64,
    p: params::settings::RulingsParams,
    f: params::settings::FusionParams,
    gray: &[u8],
    ink: &[u8],
    shear: &[i32],
    shear_x: &[i32],
    pieces: &[u32],
    glyphs: &[u32],
    levelled: &mut Bytes,
    rects: &mut Rects,
    tags: &mut Tags,
    values: &mut Values,
    chosen: &mut Chosen,
    rest: &mut Rest,
    members: &mut Sets,
    ends: &mut Sets,
    numbers: &mut Numbers,
    bounds: &mut Words,
    rows: &mut Words,
    columns: &mut Words,
    rulings: &mut Words,
    page: &mut Words,
    facts: &mut Facts,
    scores: &mut Scores,
    parents: &mut Work,
    order: &mut Work,
    listed: &mut Words,
    listed_ends: &mut Words,
    keys: &mut Keys,
    box_keys: &mut Keys,
) -> page::answer::Answer
    ensures detected { Detect (record {
      sides = record { pw = pw; ph = ph; w = w; h = h };
      dpi = dpi;
      xheight = xheight;
      settings = p;
      caps = f;
      gray = gray.now;
      ink = ink.now;
      shear = shear.now;
      shear_x = shear_x.now;
      pieces = pieces.now;
      glyphs = glyphs.now;
    })
        (record {
          rules = record {
            levelled = levelled.old.list.now;
            rects = rects.old.rulings.now;
            directions = tags.old.directions.now;
            contrasts = values.old.contrasts.now;
            printed = chosen.old.printed.now;
            faint = rest.old.faint.now;
            piece_members = members.old.pieces.now;
            piece_ends = ends.old.pieces.now;
            bounds = bounds.old.list.now;
            rows = rows.old.list.now;
            columns = columns.old.list.now;
            rulings = rulings.old.list.now;
            shares = values.old.shares.now;
            free = rest.old.free.now;
            printed_members = members.old.printed.now;
            printed_ends = ends.old.printed.now;
            numbers = numbers.old.tables.now;
            parents = parents.old.pieces.now;
            listed = listed.old.list.now;
            listed_ends = listed_ends.old.list.now;
            order = order.old.pieces.now;
            keys = keys.old.list.now;
          };
          marks = record {
            boxes = rects.old.boxes.now;
            marks = tags.old.marks.now;
            coverages = values.old.coverages.now;
            reading = chosen.old.reading.now;
            members = members.old.boxes.now;
            ends = ends.old.boxes.now;
            numbers = numbers.old.grids.now;
            parents = parents.old.boxes.now;
            order = order.old.boxes.now;
            keys = box_keys.old.list.now;
          };
          found = record {
            rects = page.old.list.now;
            facts = facts.old.kinds.now ∷ facts.old.a.now ∷ facts.old.b.now ∷ facts.old.c.now ∷ [];
            scores =
                scores.old.log_odds.now
                ∷ scores.old.first_values.now
                ∷ scores.old.first_thresholds.now
                ∷ scores.old.first_llrs.now
                ∷ scores.old.second_values.now
                ∷ scores.old.second_thresholds.now
                ∷ scores.old.second_llrs.now
                ∷ scores.old.lengths.now
                ∷ [];
          };
        })
        (record {
          rules = record {
            levelled = levelled.new.list.now;
            rects = rects.new.rulings.now;
            directions = tags.new.directions.now;
            contrasts = values.new.contrasts.now;
            printed = chosen.new.printed.now;
            faint = rest.new.faint.now;
            piece_members = members.new.pieces.now;
            piece_ends = ends.new.pieces.now;
            bounds = bounds.new.list.now;
            rows = rows.new.list.now;
            columns = columns.new.list.now;
            rulings = rulings.new.list.now;
            shares = values.new.shares.now;
            free = rest.new.free.now;
            printed_members = members.new.printed.now;
            printed_ends = ends.new.printed.now;
            numbers = numbers.new.tables.now;
            parents = parents.new.pieces.now;
            listed = listed.new.list.now;
            listed_ends = listed_ends.new.list.now;
            order = order.new.pieces.now;
            keys = keys.new.list.now;
          };
          marks = record {
            boxes = rects.new.boxes.now;
            marks = tags.new.marks.now;
            coverages = values.new.coverages.now;
            reading = chosen.new.reading.now;
            members = members.new.boxes.now;
            ends = ends.new.boxes.now;
            numbers = numbers.new.grids.now;
            parents = parents.new.boxes.now;
            order = order.new.boxes.now;
            keys = box_keys.new.list.now;
          };
          found = record {
            rects = page.new.list.now;
            facts = facts.new.kinds.now ∷ facts.new.a.now ∷ facts.new.b.now ∷ facts.new.c.now ∷ [];
            scores =
                scores.new.log_odds.now
                ∷ scores.new.first_values.now
                ∷ scores.new.first_thresholds.now
                ∷ scores.new.first_llrs.now
                ∷ scores.new.second_values.now
                ∷ scores.new.second_thresholds.now
                ∷ scores.new.second_llrs.now
                ∷ scores.new.lengths.now
                ∷ [];
          };
        }) result }
    ensures same { SameBytes levelled.old levelled.new × SameRects rects.old rects.new
        × SameTags tags.old tags.new × SameValues values.old values.new
        × SameChosen chosen.old chosen.new × SameRest rest.old rest.new
        × SameSets members.old members.new × SameSets ends.old ends.new
        × SameNumbers numbers.old numbers.new × SameWords bounds.old bounds.new
        × SameWords rows.old rows.new × SameWords columns.old columns.new
        × SameWords rulings.old rulings.new × SameWords page.old page.new
        × SameFacts facts.old facts.new × SameScores scores.old scores.new
        × SameWork parents.old parents.new × SameWork order.old order.new
        × SameWords listed.old listed.new × SameWords listed_ends.old listed_ends.new
        × SameKeys keys.old keys.new × SameKeys box_keys.old box_keys.new }
{
    let given = Page {
        sides: Sides { pw, ph, w, h },
        dpi,
        xheight,
        settings: p,
        caps: f,
        gray,
        ink,
        shear,
        shear_x,
        pieces,
        glyphs,
    };
    detect::lists_apart::detect(
        &given,
        levelled.list,
        rects.rulings,
        tags.directions,
        values.contrasts,
        chosen.printed,
        rest.faint,
        members.pieces,
        ends.pieces,
        bounds.list,
        rows.list,
        columns.list,
        rulings.list,
        values.shares,
        rest.free,
        members.printed,
        ends.printed,
        numbers.tables,
        parents.pieces,
        listed.list,
        listed_ends.list,
        order.pieces,
        keys.list,
        rects.boxes,
        tags.marks,
        values.coverages,
        chosen.reading,
        members.boxes,
        ends.boxes,
        numbers.grids,
        parents.boxes,
        order.boxes,
        box_keys.list,
        page.list,
        facts.kinds,
        facts.a,
        facts.b,
        facts.c,
        scores.log_odds,
        scores.first_values,
        scores.first_thresholds,
        scores.first_llrs,
        scores.second_values,
        scores.second_thresholds,
        scores.second_llrs,
        scores.lengths,
    )
}
