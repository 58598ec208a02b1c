// The page as one call: the questions, then what is on it, then its findings.
#![tactic(auto)]

pub mod lists_apart;

ghost use Rattle.page.specs.Lent.{lent};
ghost use Rattle.page.specs.Call.{Detect};
ghost use Rattle.page.specs.Steps.{SameRules, SameMarks};
ghost use Rattle.finding_lists.specs.Steps.{SameFindings};

use finding_lists::lent::LentFindings;
use page::answer::Answer;
use page::counts::Counts;
use page::given::Page;
use page::lent::{LentMarks, LentRules};

pub fn detect(
    page: &Page,
    rules: &mut LentRules,
    marks: &mut LentMarks,
    found: &mut LentFindings,
) -> Answer
    ensures detected { Detect page.now (lent rules.old marks.old found.old) (lent rules.new marks.new found.new) result }
    ensures same { SameRules rules.old rules.new × SameMarks marks.old marks.new × SameFindings found.old found.new }
{
    if let Err(question) = page::guard::missed(page, rules, marks, found) {
        return page::answer::refused(question.number());
    }
    let ruled = read_page::rules::read(page, rules);
    let marked = read_page::marks::read(page, marks);
    let counts = Counts {
        rulings: ruled.rulings,
        printed: ruled.printed,
        faint: ruled.faint,
        tables: ruled.tables,
        boxes: marked.boxes,
        grids: marked.grids,
        printed_sets: ruled.printed_sets,
        free: ruled.free,
        box_sets: marked.box_sets,
    };
    let findings = page_findings::find(page, counts, rules, marks, found);
    page::answer::answered(counts, findings.count, findings.finite)
}
