// The order of the sets of pieces: by the smallest rectangles around them.
ghost use Rattle.std.specs.Prelude.{◌≡◌, ◌≤◌, ◌<◌, length};
ghost use Rattle.lists.specs.Lists.{written};
ghost use Rattle.rects.specs.Around.{around};
ghost use Rattle.rects.specs.Steps.{Inside, AllInside};
ghost use Rattle.listings.specs.Listed.{set_of};
ghost use Rattle.ruling_lists.specs.Rulings.{ruling_key, ruling_keys};
ghost use Rattle.ruling_lists.specs.Steps.{Parts, parts_of};

use listings::listed::Sets;
use rects::Rect;

// y0, x0, y1, x1 as one number.
fn key_of(r: Rect) -> u64
    requires { Inside 8192 8192 r }
    ensures { result ≡ ruling_key r }
{
    ((u64::from(r.y0) * 8192 + u64::from(r.x0)) * 8192 + u64::from(r.y1)) * 8192 + u64::from(r.x1)
}

// The key of set k of a listing.
fn key_at(pieces: &[u32], sets: &Sets, k: usize) -> u64
    requires { AllInside 8192 8192 pieces.now × Parts pieces.now (set_of sets.now) sets.now.count × (k < sets.now.count) }
    ensures { result ≡ ruling_key (around pieces.now (set_of sets.now k)) }
{
    key_of(rects::bounding(pieces, sets.at(k)))
}

// The keys of the sets of a listing.
pub fn set_keys(pieces: &[u32], sets: &Sets, keys: &mut [u64])
    requires { AllInside 8192 8192 pieces.now × Parts pieces.now (set_of sets.now) sets.now.count × (sets.now.count ≤ length keys.old) }
    ensures { keys.new ≡ written (ruling_keys pieces.now (parts_of (set_of sets.now) sets.now.count)) keys.old }
{
    lists::put_all(|k| key_at(pieces, sets, k), sets.count, 0, keys);
}
