// The lines of positions: in sorted order a new line begins where a position exceeds the previous one by more than a limit.
#![tactic(auto)]

ghost use Rattle.std.specs.Prelude.{◌≡◌, cond, suc, ◌+◌, ◌<◌, ◌^◌, length, get_or};
ghost use Rattle.lines.specs.Lines.{sorted_positions, exceeds};
ghost use Rattle.lines.specs.Steps.{Room, Ordered, Lined, Numbered};

// Does a position exceed the previous one by more than the limit?
fn exceeds(limit: u64, previous: u64, position: u64) -> bool
    ensures { result ≡ exceeds limit previous position }
{
    limit < position.saturating_sub(previous)
}

// The position at place i of the sorted order.
fn sorted_at(positions: &[u64], order: &[u32], i: usize) -> u64
    requires { Ordered positions.now order.now × (i < length positions.now) }
    ensures { result ≡ get_or (sorted_positions positions.now) i 0 }
{
    let index = order[i] as usize;
    positions[index]
}

// The line in hand: its number, which is a count of lines and no code, and its last position.
#[derive(Clone, Copy)]
pub struct Line {
    pub number: u32,
    pub last: u64,
}

// The line of the position that follows: the same one, which goes on from there, or a new one.
fn next_line(line: Line, limit: u64, position: u64) -> Line
    requires { line.number + 1 < 2 ^ 32 }
    ensures { (result.number ≡ cond (exceeds limit line.last position) (suc line.number) line.number) × (result.last ≡ position) }
{
    let number = line.number + u32::from(exceeds(limit, line.last, position));
    Line {
        number,
        last: position,
    }
}

// Writes the line number of each position, in the sorted order that is given, and returns how many lines there are.
fn number(positions: &[u64], order: &[u32], limit: u64, numbers: &mut [u32]) -> usize
    requires { Room (length positions.now) order.now numbers.old × Ordered positions.now order.now }
    ensures { Lined positions.now limit numbers.old numbers.new result }
{
    let n = positions.len();
    if n == 0 {
        return 0;
    }
    let mut line = Line {
        number: 0,
        last: sorted_at(positions, order, 0),
    };
    for i in 0..n {
        line = next_line(line, limit, sorted_at(positions, order, i));
        numbers[i] = line.number;
    }
    line.number as usize + 1
}

// The line number of each position: `order` takes the indexes in sorted order, ties by index, and `numbers` the line of each beside them.
// Returns how many lines there are.
pub fn lines(positions: &[u64], limit: u64, order: &mut [u32], numbers: &mut [u32]) -> usize
    requires { Room (length positions.now) order.old numbers.old }
    ensures { Numbered positions.now limit order.old order.new numbers.new result }
{
    sort::sort(positions, order, numbers);
    number(positions, order, limit, numbers)
}
