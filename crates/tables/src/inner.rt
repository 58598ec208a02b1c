// Tables and free rulings among the chosen ones: the core, which asks for what the questions show.
ghost use Rattle.std.specs.Prelude.{◌<◌, ◌^◌, length};
ghost use Rattle.table_questions.specs.Lent.{lists_of, Same};
ghost use Rattle.tables.specs.Steps.{Filled, Roomy, WorkLong};

use crossings::connect;
use listings::listed::Sets;
use meeting::segment::Rulings;
use shapes::limits::Limits;
use table_lists::facts;
use table_questions::lent::Lists;

// How many sets, tables and free rulings there are.
#[derive(Clone, Copy)]
pub struct Counts {
    pub sets: usize,
    pub tables: usize,
    pub free: usize,
}

// Lists the closed sets of the chosen rulings, and of them the tables with their facts, and the free list.
pub fn find(rulings: &Rulings, limits: Limits, lists: &mut Lists) -> Counts
    requires join_bound { limits.join < 2 ^ 32 }
    requires roomy { Roomy (length rulings.now.chosen) (lists_of lists.old) }
    ensures filled { Filled rulings.now.rects rulings.now.directions rulings.now.chosen limits
        (lists_of lists.old) (lists_of lists.new) result.sets result.tables result.free }
    ensures work_long { WorkLong (lists_of lists.old) (lists_of lists.new) }
    ensures same { Same lists.old lists.new }
{
    let join = limits.join as u32;
    let members = &mut *lists.members;
    let ends = &mut *lists.ends;
    let count = connect::connect(
        rulings,
        join,
        lists.parents,
        lists.work,
        lists.keys,
        members,
        ends,
    );
    let sets = Sets {
        members,
        ends,
        count,
    };
    let numbers = &mut *lists.numbers;
    let found = facts::choose(
        rulings,
        limits,
        &sets,
        lists.keys,
        lists.parents,
        lists.work,
        numbers,
        lists.rows,
        lists.columns,
        lists.free,
    );
    facts::bound(rulings, &sets, numbers, found.tables, lists.bounds);
    facts::measure(
        rulings,
        join,
        &sets,
        numbers,
        found.tables,
        lists.rulings,
        lists.shares,
        lists.parents,
        lists.work,
        lists.keys,
    );
    Counts {
        sets: count,
        tables: found.tables,
        free: found.free,
    }
}
