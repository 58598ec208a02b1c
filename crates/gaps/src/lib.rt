// Numbers within a gap of each other: a caller of `sets` that tries all pairs.
#![tactic(auto)]

ghost use Rattle.std.specs.Prelude.{◌≡◌, ◌+◌, ◌<◌, length};
ghost use Rattle.sets.specs.Closed.{Below};
ghost use Rattle.sets.specs.Steps.{Joins, Seen, Room};
ghost use Rattle.gaps.specs.Gaps.{near, Touch, GapSets};
ghost use Rattle.gaps.specs.Answers.{room_for};

// Do two numbers differ by at most the gap?
fn near(a: u32, b: u32, gap: u32) -> bool
    ensures { result ≡ near gap a b }
{
    a.abs_diff(b) <= gap
}

// Joins place i with every later place that it touches.
fn join_row(values: &[u32], gap: u32, parents: &mut [u32], i: usize)
    requires { (i < length values.now) × Joins (length values.now) (Below (length values.now)) (Seen (Touch values.now gap) i (i + 1))
        parents.old }
    ensures { Joins (length values.now) (Below (length values.now))
        (Seen (Touch values.now gap) i (length values.now)) parents.new }
{
    let n = values.len();
    let value = values[i];
    for j in i + 1..n {
        let touch = near(value, values[j], gap);
        sets::join_known(parents, n, i, j, touch);
    }
}

// Joins every two places that touch.
fn join_all(values: &[u32], gap: u32, parents: &mut [u32])
    requires { Room (length values.now) parents.old }
    ensures { Joins (length values.now) (Below (length values.now)) (Touch values.now gap) parents.new }
{
    let n = values.len();
    sets::begin(parents, n);
    for i in 0..n {
        join_row(values, gap, parents, i);
    }
}

// Is there room for n entries in lists of these lengths? n stands beside them, since lent lists may be longer than what is in use.
pub fn room(n: usize, a: usize, b: usize, c: usize, d: usize) -> bool
    ensures { result ≡ room_for n a b c d }
{
    (n < 4294967296) & (n <= a) & (n <= b) & (n <= c) & (n <= d)
}

// 0 where a call is accepted and 1 where it is refused, and the number of sets. An `Option` of the number would say it; the
// C interface needs this form.
#[repr(C)]
#[derive(Clone, Copy)]
pub struct Answer {
    pub number: u32,
    pub count: usize,
}

// The closed sets of the places of numbers within a gap of each other. Lists too short are refused, and nothing is written. `pairs` has the
// same frame: a contract can't go over rules, which one function with a closure that joins would ask.
pub fn gap_sets(
    values: &[u32],
    gap: u32,
    parents: &mut [u32],
    members: &mut [u32],
    ends: &mut [u32],
    work: &mut [u32],
) -> Answer
    ensures { GapSets values.now gap
        (room_for (length values.now) (length parents.old) (length members.old) (length ends.old)
        (length work.old))
        parents.old members.old ends.old work.old
        parents.new members.new ends.new work.new result.number result.count }
{
    let n = values.len();
    let fits = room(n, parents.len(), members.len(), ends.len(), work.len());
    if fits {
        join_all(values, gap, parents);
        let count = listings::list(parents, n, members, ends, work);
        return Answer { number: 0, count };
    }
    Answer {
        number: 1,
        count: 0,
    }
}
