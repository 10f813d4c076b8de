// Filled, padded and extended tables pass the check: theorems over the definitions of the four calls (specs/, proofs/), and `run`, which
// makes the four calls.
#![tactic(auto)]

ghost use Rattle.list.specs.Lent.{held_in};
ghost use Rattle.check_table.specs.Verdicts.{verdict_answer};
ghost use Rattle.four_calls.specs.Run.{Ran, RunsHonestly, RefusesNoMore};

use check_table::Verdict;
use list::LentList;

// Fills and pads the table, extends it and checks it. Answers the verdict, or the reason of the first call that refuses: then the calls
// after it are not made, and what the calls before it have written stays.
pub fn run(list: &LentList, table: &mut [u64], aux: &mut [u64], challenges: &[u64]) -> Verdict
    ensures exact { Ran (held_in list.now) table.old aux.old challenges.now (verdict_answer result) table.new aux.new }
    ensures claim { RunsHonestly (held_in list.now) (verdict_answer result) table.new }
    ensures no_other_refusal { RefusesNoMore (held_in list.now) table.old aux.old challenges.now (verdict_answer result) }
{
    let height = fill::fill(list, table)?;
    fill::pad(table, height as usize)?;
    extend::extend(table, aux, challenges)?;
    check_table::check(table, aux, challenges)
}
