// The calls on tables as the C functions make them: the number of the documents is returned, and further answers go into `answers`. A list is a
// struct, which u32_table makes out of C's flat parameters; that groups and refusals are numbers and answers words of a lent array is the C interface.
#![tactic(auto)]

ghost use Rattle.std.specs.Prelude.{◌≡◌};
ghost use Rattle.list.specs.Lent.{held_in};
ghost use Rattle.fill.specs.Padding.{pad_all};
ghost use Rattle.c_tables.specs.TableAnswers.{FillAnswers, FillLeaves, ExtendAnswers, ExtendLeaves};
ghost use Rattle.c_tables.specs.TableAnswers.{CheckAnswers, SaysZeroIff, SaysZeroSound, SaysZeroSums};
ghost use Rattle.c_tables.specs.TableAnswers.{ClientAnswers};

use c_answers::SHAPE;
use list::LentList;
use xfield::XFieldElement;

// How many words of `answers` the check states.
const CHECK_ANSWERS: usize = 4 + XFieldElement::WIDTH;

// Answers: the height.
#[tactic(auto, unfolding(c_answers::specs::Exports::lent_due))]
pub fn fill(list: &LentList, table: &mut [u64], answers: &mut [u64]) -> u64
    ensures answers { FillAnswers (held_in list.now) table.old answers.old result answers.new }
    ensures table { FillLeaves (held_in list.now) table.old answers.old table.new }
{
    c_answers::answered(answers, &mut || Ok([fill::fill(list, table)?]))
}

// It has no answers besides the number.
pub fn pad(table: &mut [u64], filled: usize) -> u64
    ensures number { result ≡ (pad_all table.old filled).answer.number }
    ensures table { table.new ≡ (pad_all table.old filled).left }
{
    c_answers::number(fill::pad(table, filled))
}

// Answers: the three words of the last sum.
#[tactic(auto, unfolding(c_answers::specs::Exports::lent_due))]
pub fn extend(table: &[u64], aux: &mut [u64], challenges: &[u64], answers: &mut [u64]) -> u64
    ensures answers { ExtendAnswers table.now aux.old challenges.now answers.old result answers.new }
    ensures aux { ExtendLeaves table.now aux.old challenges.now answers.old aux.new }
{
    c_answers::answered(
        answers,
        &mut || Ok(extend::extend(table, aux, challenges)?.words()),
    )
}

// Answers: 0 where every constraint is zero, and nothing more; else 1, group, row, index and the three words of the value.
// Not handed to `answered`, which writes all words that are stated: here seven are, and at zero one is written.
pub fn check(table: &[u64], aux: &[u64], challenges: &[u64], answers: &mut [u64]) -> u64
    ensures answers { CheckAnswers table.now aux.now challenges.now answers.old result answers.new }
    ensures zero_iff { SaysZeroIff table.now aux.now challenges.now answers.old result answers.new }
    ensures sound { SaysZeroSound table.now result answers.new }
    ensures sum { SaysZeroSums table.now aux.now challenges.now result answers.new }
{
    let Some(words) = answers.first_chunk_mut::<CHECK_ANSWERS>() else {
        return SHAPE;
    };
    match check_table::check(table, aux, challenges) {
        Ok(None) => words[0] = 0,
        Ok(Some(found)) => *words = found.words(),
        Err(reason) => return u64::from(reason),
    }
    0
}

// Answers: the three words of the client's sum.
pub fn client_sum(requests: &[u64], challenges: &[u64], answers: &mut [u64]) -> u64
    ensures { ClientAnswers requests.now challenges.now answers.old result answers.new }
{
    c_answers::answered(
        answers,
        &mut || Ok(client_sum::compute_terminal(requests, challenges)?.words()),
    )
}
