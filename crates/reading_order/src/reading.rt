// The reading order of each set.
ghost use Rattle.std.specs.Prelude.{◌≡◌, map, ℕ, ◌+◌, ◌<◌, ◌≤◌, length, take, get_or};
ghost use Rattle.std.proofs.lemmas.List.Edits.{sets};
ghost use Rattle.lists.specs.Lists.{below, concat, written};
ghost use Rattle.rects.specs.Rects.{count, rect_at};
ghost use Rattle.listings.specs.Listed.{set_of};
ghost use Rattle.reading_order.specs.Reading.{reading_key, reading_keys, reading_order};
ghost use Rattle.box_widths.specs.Steps.{PassedBoxes};
ghost use Rattle.reading_order.specs.Steps.{Indexes, SetsIn, WorkRoom};

use listings::listed::Sets;

// The key of the box at place k of a set: y0, then x0.
fn key_at(rects: &[u32], set: &[u32], k: usize) -> u64
    requires { Indexes (count rects.now) set.now × (k < length set.now) }
    ensures { result ≡ reading_key (rect_at rects.now (get_or set.now k 0)) }
{
    let r = rects::rect_at(rects, set[k] as usize);
    u64::from(r.y0) * 8192 + u64::from(r.x0)
}

// The keys of a set's boxes.
fn set_keys(rects: &[u32], set: &[u32], keys: &mut [u64])
    requires { PassedBoxes rects.now × Indexes (count rects.now) set.now × (length set.now ≤ length keys.old) }
    ensures { keys.new ≡ written (reading_keys rects.now set.now) keys.old }
{
    lists::put_all(|k| key_at(rects, set, k), set.len(), 0, keys);
}

// Writes the members of a set in the order of the given places, from place `at` on.
fn put(set: &[u32], order: &[u32], reading: &mut [u32], at: usize)
    requires { (length set.now ≤ length order.now) × ((k : ℕ) → k < length set.now → get_or order.now k 0 < length set.now)
        × (at + length set.now ≤ length reading.old) }
    ensures { reading.new ≡ sets reading.old at
        (map (λ i. get_or set.now i 0) (take (length set.now) order.now)) }
{
    for k in 0..set.len() {
        reading[at + k] = set[order[k] as usize];
    }
}

// Writes the reading order of one set from place `at` on.
fn read_set(
    rects: &[u32],
    set: &[u32],
    reading: &mut [u32],
    at: usize,
    order: &mut [u32],
    work: &mut [u32],
    keys: &mut [u64],
)
    requires { PassedBoxes rects.now × Indexes (count rects.now) set.now
        × WorkRoom (length set.now) (length order.old) (length work.old) (length keys.old) × (at + length set.now ≤ length reading.old) }
    ensures { reading.new ≡ sets reading.old at (reading_order rects.now set.now) }
{
    set_keys(rects, set, keys);
    sort::sort(&keys[..set.len()], order, work);
    put(set, order, reading, at);
}

// Writes the reading order of every set, in the places of its members.
pub fn read_sets(
    rects: &[u32],
    sets: &Sets,
    reading: &mut [u32],
    order: &mut [u32],
    work: &mut [u32],
    keys: &mut [u64],
)
    requires { PassedBoxes rects.now × SetsIn (count rects.now) (set_of sets.now) sets.now.count
        × WorkRoom (count rects.now) (length order.old) (length work.old) (length keys.old) × (count rects.now ≤ length reading.old) }
    ensures { reading.new ≡ written
        (concat (map (λ k. reading_order rects.now (set_of sets.now k)) (below sets.now.count)))
        reading.old }
{
    let mut at = 0;
    for k in 0..sets.count {
        let set = sets.at(k);
        read_set(rects, set, reading, at, order, work, keys);
        at += set.len();
    }
}
