// The check of a table: the first constraint that is not zero.
#![tactic(auto)]

ghost use Rattle.std.specs.Prelude.{◌≡◌, MatchResult};
ghost use Rattle.words.specs.Answers.{Answer};
ghost use Rattle.words.specs.Refusals.{Fine, Declined};
ghost use Rattle.air.specs.Check.{check_reason, check_all};
ghost use Rattle.check_search.specs.Finds.{followed_by};
ghost use Rattle.check_table.specs.Verdicts.{verdict_answer, ZeroIff, Sound, Sums};
ghost use Rattle.check_table.specs.Groups.{search_group};

use check_search::{Group, JudgedTable, Nonzero, Rows};
use table::{AuxRow, Challenges, MainRow};
use words::Refusal;

// What the check answers: the first constraint that is not zero, or none; or why it is declined.
pub type Verdict = Result<Option<Nonzero>, Refusal>;

// ---- refusals
// Reasons 1, 7 and 8, in this order; no word is read where 1 or 7 is met.
#[tactic(auto, using(table::proofs::Rows::shaped), unfolding(air::specs::Check::check_reason))]
fn judge<'a>(
    table: &'a [u64],
    aux: &'a [u64],
    challenges: &'a [u64],
) -> Result<JudgedTable<'a>, Refusal>
    ensures { MatchResult result (λ judged. (judged.rows.table.now ≡ table.now) × (judged.aux.now ≡ aux.now) × (judged.challenges.now ≡ challenges.now) × (Fine ≡ check_reason table.now aux.now challenges.now)) (λ reason. Declined reason ≡ check_reason table.now aux.now challenges.now) }
{
    if !table::have_shapes(table, aux, challenges) {
        return Err(Refusal::Shape);
    }
    if table.len() / MainRow::WIDTH == 0 {
        return Err(Refusal::Short);
    }
    if !table::are_reduced(table, challenges) || !table::all_reduced(aux) {
        return Err(Refusal::Unreduced);
    }
    Ok(JudgedTable {
        rows: Rows { table },
        aux,
        challenges,
    })
}

// ---- the search, group by group
// The first constraint of the group that is not zero.
fn search_group(group: Group, judged: &JudgedTable) -> Option<Nonzero>
    ensures { (next : Answer) → followed_by result next ≡ search_group judged.now.rows.table.now judged.now.aux.now judged.now.challenges.now group next }
{
    match group {
        Group::Initial => {
            let weights = Challenges::from_words(judged.challenges);
            let sum = AuxRow::at(judged.aux, 0);
            judged.rows.initial(weights, sum)
        }
        Group::Consistency => check_search::consistency(judged.rows.table),
        Group::Transition => judged.transition(),
        Group::Terminal => judged.rows.terminal(),
    }
}

// Evaluates the constraints group by group: initial on row 0, consistency row by row, transition pair by pair, terminal on the last row. The
// answer is the first value that is not zero, with its group, (upper) row and index, or none. It refuses wrong shapes, a table without rows,
// and a word p or more in the table, the aux words or the challenges. Nothing lent is changed.
pub fn check(table: &[u64], aux: &[u64], challenges: &[u64]) -> Verdict
    ensures exact { verdict_answer result ≡ check_all table.now aux.now challenges.now }
    ensures zero_iff { ZeroIff table.now aux.now challenges.now result }
    ensures sound { Sound table.now result }
    ensures sum { Sums table.now aux.now challenges.now result }
{
    let judged = judge(table, aux, challenges)?;
    'found: {
        'groups: for group in [
            Group::Initial,
            Group::Consistency,
            Group::Transition,
            Group::Terminal,
        ] {
            if let Some(nonzero) = search_group(group, &judged) {
                break 'found Ok(Some(nonzero));
            }
        }
        Ok(None)
    }
}
