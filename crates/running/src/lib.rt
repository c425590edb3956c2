// The run over the list, one step for each entry.
#![tactic(auto)]

ghost use Rattle.std.specs.Prelude.{length};
ghost use Rattle.evaluation.specs.Evaluation.{entries, RunTo};
ghost use Rattle.evaluation.specs.Marked.{needs_of, rule_of_node};
ghost use Rattle.evaluation.specs.Inner.Asked.{AtRun};

use evaluation::Marked;

// THE RUN: from entry k on, one step for each entry, whose number is one more than its node's, until the budget or the list ends; it
// counts the steps.
pub fn run(marked: Marked<'_, '_>, list: &[u64], k: usize, budget: u16, table: &mut [u64]) -> usize
    requires { AtRun marked.sides.first.words.now marked.sides.second.words.now marked.target.now marked.flag.now list.now table.old }
    ensures { RunTo (needs_of marked.entry) (rule_of_node marked.entry) (entries (length list.now) list.now) k budget table.old table.new result }
{
    let most = usize::from(budget);
    let steps = most.min(list.len().saturating_sub(k));
    for n in 0..steps {
        let x = (list[k + n] - 1) as usize;
        stepping::step(marked, table, x);
    }
    steps
}
