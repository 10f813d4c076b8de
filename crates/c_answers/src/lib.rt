// What every C function of the crate u32_table shares: the number that it returns and the lent array `answers` (specs/, proofs/). That
// refusals are numbers and further answers are words of a lent array is the C interface.
#![tactic(auto)]

ghost use Rattle.std.specs.Prelude.{◌≡◌, ◌≤◌, ◌<◌, length};
ghost use Rattle.words.specs.Refusals.{refusal_number};
ghost use Rattle.words.specs.Outcomes.{completed_answer};
ghost use Rattle.words.specs.declared.Refusal.TheVariants.{Shape};
ghost use Rattle.c_answers.specs.Exports.{Exported, InWords, stated_answer, order_number};

use std::cmp::Ordering;
use words::Refusal;

// The number of the reason Shape, which a C function returns where `answers` has fewer words than the call states.
pub const SHAPE: u64 = Refusal::Shape as u64;

// The number of a call that has no answers besides.
pub fn number(done: Result<(), Refusal>) -> u64
    ensures { result ≡ (completed_answer done).number }
{
    done.map_or_else(u64::from, |()| 0)
}

// The number of a call whose words become the first of `answers`; a refusal writes nothing. It is made only where `answers` has the words that it states:
// else all that it was lent stays as it was.
// `call` is lent as `&mut`, so that what it has changed is known afterwards. It gives an `A` that is those words, since the bound of a closure can't name `N`.
pub fn answered<const N: usize, A: Into<[u64; N]>, F: FnMut() -> Result<A, Refusal>>(
    answers: &mut [u64],
    call: &mut F,
) -> u64
    requires { F.pre call.old }
    ensures short { length answers.old < N → (result ≡ refusal_number Shape) × ((answers.new ≡ answers.old) × (call.new ≡ call.old)) }
    ensures called { N ≤ length answers.old → (given : _) × (due : _) × (F.step call.old given call.new × (InWords A.converts given due × Exported N (stated_answer due) answers.old result answers.new)) }
{
    if answers.len() < N {
        return SHAPE;
    }
    match call() {
        Ok(given) => {
            let words: [u64; N] = given.into();
            answers[..N].copy_from_slice(&words);
            0
        }
        Err(reason) => u64::from(reason),
    }
}

// 0 for less, 1 for equal, 2 for greater.
pub fn order_number(order: Ordering) -> u64
    ensures { result ≡ order_number order }
{
    match order {
        Ordering::Less => 0,
        Ordering::Equal => 1,
        Ordering::Greater => 2,
    }
}
