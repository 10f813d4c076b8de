// The calls on lists and entries as the C functions make them: the number of the documents is returned, and further answers go into `answers`. Lists and
// entries are structs, which u32_table makes out of C's flat parameters; that orders and refusals are numbers and answers words of a lent array is the
// C interface.
#![tactic(auto)]

ghost use Rattle.std.specs.Prelude.{◌≡◌, [], ◌∷◌};
ghost use Rattle.list.specs.Holds.{held_list};
ghost use Rattle.list.specs.Lent.{held_in, held_in_mut, SameArrays};
ghost use Rattle.list_shared.specs.Shared.{record_shared, hold_shared, replay_shared, read_shared};
ghost use Rattle.list_shared.specs.Lent.{counts_in, SameCounts};
ghost use Rattle.c_answers.specs.Exports.{lent_due, Exported};
ghost use Rattle.c_lists.specs.ListAnswers.{compare_all};
ghost use Rattle.c_lists.specs.ListAnswers.{RecordAnswers, RecordLeaves, HoldAnswers, HoldLeaves, ConfirmLeaves, DropLeaves};
ghost use Rattle.c_lists.specs.ListAnswers.{ReplayAnswers, ReplayLeaves, PlanAnswers, ReadAnswers, ReadLeaves, WriteAnswers, WriteLeaves};

use c_answers::{SHAPE, order_number};
use isa::U32TableEntry;
use list::{LentList, LentListMut, Sizes};
use list_shared::OtherCounts;

// How many words of `answers` a replay states.
const REPLAY_ANSWERS: usize = 2;

// What a call answers, and after it the places used.
fn with_used(answer: usize, list: &LentListMut) -> [u64; 2]
    ensures { result ≡ answer ∷ list.now.sizes.used ∷ [] }
{
    [answer as u64, list.sizes.used as u64]
}

// Answers: the key's position, and the places used afterwards.
#[tactic(auto, unfolding(c_answers::specs::Exports::lent_due))]
pub fn record_entry(
    list: &mut LentListMut,
    other: &mut OtherCounts,
    entry: U32TableEntry,
    answers: &mut [u64],
) -> u64
    ensures answers { RecordAnswers (held_in_mut list.old) (counts_in other.old) entry answers.old result answers.new }
    ensures list { RecordLeaves (held_in_mut list.old) (counts_in other.old) entry answers.old list.new.keys.now list.new.multiplicities.now list.new.holds.now (counts_in other.new) }
    ensures sizes { list.new.sizes ≡ lent_due 2 answers.old list.old.sizes (record_shared (held_in_mut list.old) (counts_in other.old) entry).left.own.list.sizes }
    ensures same_arrays { SameArrays list.old list.new }
    ensures same_counts { SameCounts other.old other.new }
{
    c_answers::answered(
        answers,
        &mut || Ok(with_used(list_shared::record_shared(list, other, entry)?, list)),
    )
}

// Answers: the key's position, and the places used afterwards.
#[tactic(auto, unfolding(c_answers::specs::Exports::lent_due))]
pub fn hold_entry(
    list: &mut LentListMut,
    other: &mut OtherCounts,
    entry: U32TableEntry,
    answers: &mut [u64],
) -> u64
    ensures answers { HoldAnswers (held_in_mut list.old) (counts_in other.old) entry answers.old result answers.new }
    ensures list { HoldLeaves (held_in_mut list.old) (counts_in other.old) entry answers.old list.new.keys.now list.new.multiplicities.now list.new.holds.now (counts_in other.new) }
    ensures sizes { list.new.sizes ≡ lent_due 2 answers.old list.old.sizes (hold_shared (held_in_mut list.old) (counts_in other.old) entry).left.own.list.sizes }
    ensures same_arrays { SameArrays list.old list.new }
    ensures same_counts { SameCounts other.old other.new }
{
    c_answers::answered(
        answers,
        &mut || Ok(with_used(list_shared::hold_shared(list, other, entry)?, list)),
    )
}

// It has no answers besides the number. The parts of the list stand here one by one, as in `list_record`, since keys are lent to be read alone.
pub fn confirm(
    sizes: Sizes,
    keys: &[u64],
    multiplicities: &mut [u64],
    holds: &mut [u64],
    position: usize,
) -> u64
    ensures { ConfirmLeaves (held_list sizes keys.now multiplicities.old holds.old) position result multiplicities.new holds.new }
{
    c_answers::number(list_record::confirm_hold(sizes, keys, multiplicities, holds, position))
}

// It has no answers besides the number. The parts of the list stand here one by one, as in `list_record`, since keys and multiplicities are lent to be
// read alone.
pub fn drop_hold(
    sizes: Sizes,
    keys: &[u64],
    multiplicities: &[u64],
    holds: &mut [u64],
    position: usize,
) -> u64
    ensures { DropLeaves (held_list sizes keys.now multiplicities.now holds.old) position result holds.new }
{
    c_answers::number(list_record::drop_hold(sizes, keys, multiplicities, holds, position))
}

// Answers, on a refusal too: the steps done, and the places used afterwards. So it is not handed to `answered`, which writes nothing on a refusal.
#[tactic(auto, unfolding(c_answers::specs::Exports::lent_due))]
pub fn replay(
    list: &mut LentListMut,
    other: &mut OtherCounts,
    trace: &[u64],
    answers: &mut [u64],
) -> u64
    ensures answers { ReplayAnswers (held_in_mut list.old) (counts_in other.old) trace.now answers.old result answers.new }
    ensures list { ReplayLeaves (held_in_mut list.old) (counts_in other.old) trace.now answers.old list.new.keys.now list.new.multiplicities.now list.new.holds.now (counts_in other.new) }
    ensures sizes { list.new.sizes ≡ lent_due 2 answers.old list.old.sizes (replay_shared (held_in_mut list.old) (counts_in other.old) trace.now).left.own.list.sizes }
    ensures same_arrays { SameArrays list.old list.new }
    ensures same_counts { SameCounts other.old other.new }
{
    let Some(words) = answers.first_chunk_mut::<REPLAY_ANSWERS>() else {
        return SHAPE;
    };
    let (number, done) = match list_shared::replay_shared(list, other, trace) {
        Ok(done) => (0, done),
        Err(stopped) => (u64::from(stopped.reason), stopped.done),
    };
    *words = with_used(done, list);
    number
}

// Answers: 0 where the first entry is less, 1 where the two are equal, 2 where it is greater.
pub fn compare(entry: U32TableEntry, other: U32TableEntry, answers: &mut [u64]) -> u64
    ensures { Exported 1 (compare_all entry other) answers.old result answers.new }
{
    c_answers::answered(answers, &mut || Ok([order_number(entry.compare(other))]))
}

// Answers: the height and the padded height.
pub fn plan(list: &LentList, answers: &mut [u64]) -> u64
    ensures { PlanAnswers (held_in list.now) answers.old result answers.new }
{
    c_answers::answered(answers, &mut || Ok(list_record::plan(list)?.words()))
}

// Answers: the number of entries, which is the number of places used afterwards.
#[tactic(auto, unfolding(c_answers::specs::Exports::lent_due))]
pub fn read(
    bytes: &[u8],
    list: &mut LentListMut,
    other: &mut OtherCounts,
    answers: &mut [u64],
) -> u64
    ensures answers { ReadAnswers (held_in_mut list.old) (counts_in other.old) bytes.now answers.old result answers.new }
    ensures list { ReadLeaves (held_in_mut list.old) (counts_in other.old) bytes.now answers.old list.new.keys.now list.new.multiplicities.now list.new.holds.now (counts_in other.new) }
    ensures sizes { list.new.sizes ≡ lent_due 1 answers.old list.old.sizes (read_shared (held_in_mut list.old) (counts_in other.old) bytes.now).left.own.list.sizes }
    ensures same_arrays { SameArrays list.old list.new }
    ensures same_counts { SameCounts other.old other.new }
{
    c_answers::answered(
        answers,
        &mut || Ok([list_shared::read_shared(bytes, list, other)? as u64]),
    )
}

// Answers: the number of bytes written.
#[tactic(auto, unfolding(c_answers::specs::Exports::lent_due))]
pub fn write(list: &LentList, out: &mut [u8], answers: &mut [u64]) -> u64
    ensures answers { WriteAnswers (held_in list.now) out.old answers.old result answers.new }
    ensures bytes { WriteLeaves (held_in list.now) out.old answers.old out.new }
{
    c_answers::answered(
        answers,
        &mut || Ok([list_stored::write_list(list, out)? as u64]),
    )
}
