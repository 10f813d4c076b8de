// Two recorders on one list of keys, each with its own multiplicities and holds. A call that may bring places into use is lent the caller's own arrays, then
// the other's: it does to its own what the call alone does, and at the places that have come into use the other has no count and no hold.
#![tactic(auto)]

ghost use Rattle.std.specs.Prelude.{◌≡◌, IfErr, OnOk, IsErrAnd};
ghost use Rattle.std.specs.Fn.{FnOnceReturnsAtMut};
ghost use Rattle.words.specs.Outcomes.{Leaves};
ghost use Rattle.list.specs.Lent.{held_in_mut, SameArrays};
ghost use Rattle.list_record.specs.Recording.{recorded_answer};
ghost use Rattle.list_replay.specs.Replay.{replayed_answer};
ghost use Rattle.list_stored.specs.Stored.{read_answer};
ghost use Rattle.list_shared.specs.Shared.{other_shape, cleared, record_shared, hold_shared, replay_shared, read_shared};
ghost use Rattle.list_shared.specs.Lent.{counts_in, shared, SameCounts};

use isa::U32TableEntry;
use list::LentListMut;
use list_record::{hold_u32_table_entry, record_u32_table_entry};
use list_replay::Stopped;
use words::Refusal;

// The multiplicities and the holds of the other recorder, one each a place, lent to be changed.
#[derive(Drop)]
pub struct OtherCounts<'a> {
    pub multiplicities: &'a mut [u64],
    pub holds: &'a mut [u64],
}

impl OtherCounts<'_> {
    // Reason 1: not one word a place in both arrays.
    #[tactic(auto, unfolding(crate::specs::Shared::other_shape))]
    fn other_shape(&self, list: &LentListMut) -> Result<(), Refusal>
        ensures { result ≡ other_shape (held_in_mut list.now) (counts_in self.now) }
    {
        let capacity = list.sizes.capacity;
        if self.multiplicities.len() == capacity && self.holds.len() == capacity {
            Ok(())
        } else {
            Err(Refusal::Shape)
        }
    }

    // At places `from` to `to` − 1 there is no count and no hold.
    #[tactic(auto, unfolding(crate::specs::Shared::cleared))]
    fn clear(&mut self, from: usize, to: usize)
        ensures counts { counts_in self.new ≡ cleared from to (counts_in self.old) }
        ensures same_counts { SameCounts self.old self.new }
    {
        list::clear_places(self.multiplicities, from, to);
        list::clear_places(self.holds, from, to);
    }
}

// A call of one of the two, with the other's arrays beside it: where these are of the wrong shape it is refused, and nothing is changed. What is cleared goes by
// the places, and not by the answer.
fn call_beside<A, E: From<Refusal>, F: FnOnce(&mut LentListMut) -> Result<A, E>>(
    list: &mut LentListMut,
    other: &mut OtherCounts,
    call: F,
) -> Result<A, E>
    requires { F.IsAlwaysCallable call }
    ensures refused { IfErr (other_shape (held_in_mut list.old) (counts_in other.old)) (λ reason. IsErrAnd result (E.from_gives reason) × (list.new ≡ list.old) × (counts_in other.new ≡ counts_in other.old)) }
    ensures called { OnOk (other_shape (held_in_mut list.old) (counts_in other.old)) (FnOnceReturnsAtMut F.FnOnce call list.old result list.new × (counts_in other.new ≡ cleared list.old.sizes.used list.new.sizes.used (counts_in other.old))) }
    ensures same_counts { SameCounts other.old other.new }
{
    other.other_shape(list)?;
    let from = list.sizes.used;
    let answer = call(list);
    other.clear(from, list.sizes.used);
    answer
}

// A recording by one of the two.
#[tactic(auto, unfolding(crate::specs::Shared::record_shared))]
pub fn record_shared(
    list: &mut LentListMut,
    other: &mut OtherCounts,
    entry: U32TableEntry,
) -> Result<usize, Refusal>
    ensures outcome { Leaves (record_shared (held_in_mut list.old) (counts_in other.old) entry) (recorded_answer result) (shared (held_in_mut list.new) (counts_in other.new)) }
    ensures same_arrays { SameArrays list.old list.new }
    ensures same_counts { SameCounts other.old other.new }
{
    call_beside(list, other, |list| record_u32_table_entry(list, entry))
}

// A hold by one of the two.
#[tactic(auto, unfolding(crate::specs::Shared::hold_shared))]
pub fn hold_shared(
    list: &mut LentListMut,
    other: &mut OtherCounts,
    entry: U32TableEntry,
) -> Result<usize, Refusal>
    ensures outcome { Leaves (hold_shared (held_in_mut list.old) (counts_in other.old) entry) (recorded_answer result) (shared (held_in_mut list.new) (counts_in other.new)) }
    ensures same_arrays { SameArrays list.old list.new }
    ensures same_counts { SameCounts other.old other.new }
{
    call_beside(list, other, |list| hold_u32_table_entry(list, entry))
}

// A replay by one of the two. One that stops has brought places into use as well.
#[tactic(auto, unfolding(crate::specs::Shared::replay_shared))]
pub fn replay_shared(
    list: &mut LentListMut,
    other: &mut OtherCounts,
    trace: &[u64],
) -> Result<usize, Stopped>
    ensures outcome { Leaves (replay_shared (held_in_mut list.old) (counts_in other.old) trace.now) (replayed_answer result) (shared (held_in_mut list.new) (counts_in other.new)) }
    ensures same_arrays { SameArrays list.old list.new }
    ensures same_counts { SameCounts other.old other.new }
{
    call_beside(list, other, |list| list_replay::replay(list, trace))
}

// Stored bytes read by one of the two.
#[tactic(auto, unfolding(crate::specs::Shared::read_shared))]
pub fn read_shared(
    bytes: &[u8],
    list: &mut LentListMut,
    other: &mut OtherCounts,
) -> Result<usize, Refusal>
    ensures outcome { Leaves (read_shared (held_in_mut list.old) (counts_in other.old) bytes.now) (read_answer result) (shared (held_in_mut list.new) (counts_in other.new)) }
    ensures same_arrays { SameArrays list.old list.new }
    ensures same_counts { SameCounts other.old other.new }
{
    call_beside(list, other, |list| list_stored::read_list(bytes, list))
}
