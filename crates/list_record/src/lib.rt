// Planning, recording, and recording in two parts: a hold, then its confirmation or its end. A list is its sizes, its keys, three words a place, its
// multiplicities and its holds, one each a place.
#![tactic(auto)]

ghost use Rattle.std.specs.Prelude.{◌≡◌, ◌+◌, ◌*◌, ◌^◌, ◌≤◌, ◌<◌, [], ◌∷◌, IfOk, length, get_or};
ghost use Rattle.words.specs.Limits.{max_places};
ghost use Rattle.words.specs.Outcomes.{Leaves, completed_answer};
ghost use Rattle.isa.specs.Entries.{entry_width};
ghost use Rattle.list.specs.Holds.{held_list};
ghost use Rattle.list.specs.Lent.{held_in, held_in_mut, SameArrays};
ghost use Rattle.list_record.specs.Plan.{padded_height, plan_all, planned_answer};
ghost use Rattle.list_record.specs.Recording.{place_reason, record_with, record_all, hold_all, recorded_answer};
ghost use Rattle.list_record.specs.Holding.{drop_reason, confirm_all, drop_all};
ghost use Rattle.list_record.specs.Placing.{place_as, place_of, stored_at, Fits};

use isa::U32TableEntry;
pub use list::Sizes;
use list::{LentList, LentListMut, UsedPlaces};
pub use words::MAX_PLACES;
use words::{MIN_PADDED_HEIGHT, Refusal};

// Height and padded height of a list.
#[derive(Clone, Copy)]
pub struct Heights {
    pub height: u64,
    pub padded: u64,
}

impl Heights {
    // As words: the height, and then the padded height.
    pub fn words(self) -> [u64; 2]
        ensures { result ≡ self.height ∷ self.padded ∷ [] }
    {
        [self.height, self.padded]
    }
}

// Where an entry goes: the place of an equal key, or nowhere yet and this is the new key.
#[derive(Clone, Copy)]
pub enum Place {
    Known(usize),
    New(U32TableEntry),
}

// The smallest power of two that is at least the height and at least 256. Above 2^63 no word holds it, and the answer is 0: no Option, since
// heights of lists and batches are far below, and each caller would have to unwrap.
pub fn padded_height(height: u64) -> u64
    ensures exact { height ≤ 2 ^ 63 → result ≡ padded_height height }
    ensures past_a_word { 2 ^ 63 < height → result ≡ 0 }
{
    height
        .checked_next_power_of_two()
        .map_or(0, |power| power.max(MIN_PADDED_HEIGHT))
}

// The list's height and its padded height.
pub fn plan(list: &LentList) -> Result<Heights, Refusal>
    ensures { planned_answer result ≡ plan_all (held_in list.now) }
{
    let height = list.judge_held()?;
    Ok(Heights {
        height,
        padded: padded_height(height),
    })
}

// Where an admitted entry goes: to the first equal key, or as a new key; or 5 or 6.
fn find_admitted(held: &LentList, entry: U32TableEntry) -> Result<Place, Refusal>
    requires { (held.now.list.sizes.used ≤ max_places) × (entry_width * held.now.list.sizes.used ≤ length held.now.list.keys.now) × (held.now.list.sizes.used ≤ length held.now.list.multiplicities.now) × (held.now.list.sizes.used ≤ length held.now.holds.now) }
    ensures { result ≡ place_as (place_reason (held_in held.now) entry) (held_in held.now) entry }
{
    let list = held.list;
    match list::find(UsedPlaces { list }.used_keys(), entry) {
        Some(at) => {
            if list::one_more_is_full(list.multiplicities[at], held.holds[at]) {
                Err(Refusal::CountFull)
            } else {
                Ok(Place::Known(at))
            }
        }
        None => {
            if list.sizes.used < list.sizes.capacity {
                Ok(Place::New(entry))
            } else {
                Err(Refusal::ListFull)
            }
        }
    }
}

// Where an entry goes, or the first reason against recording it. What is looked for and goes there is the entry that admission hands back.
pub fn find_place(list: &LentList, entry: U32TableEntry) -> Result<Place, Refusal>
    ensures { result ≡ place_of (held_in list.now) entry }
{
    list.held_shape()?;
    let admitted = entry.admit()?;
    find_admitted(list, admitted)
}

// Stores at a place that was found, and answers where: the key there gains so many counts and holds, at most one of each, or the new key is appended
// with them. A refusal stores nothing, and its reason is the answer.
// The gains are two numbers and no enum: the match on it would stand twice below, and (0, 0) and (1, 1) are promised too.
// `place` may be a refusal, as `find_place` answers it: a type without one would ask more of callers.
pub fn store(
    list: &mut LentListMut,
    place: Result<Place, Refusal>,
    count: u64,
    hold: u64,
) -> Result<usize, Refusal>
    requires { (count ≤ 1) × (hold ≤ 1) × Fits (held_in_mut list.old) place }
    ensures outcome { Leaves (stored_at count hold (held_in_mut list.old) place) (recorded_answer result) (held_in_mut list.new) }
    ensures same_arrays { SameArrays list.old list.new }
{
    match place? {
        Place::Known(at) => {
            list.multiplicities[at] += count;
            list.holds[at] += hold;
            Ok(at)
        }
        Place::New(key) => {
            let used = list.sizes.used;
            list::put_key(list.keys, used, key);
            list.multiplicities[used] = count;
            list.holds[used] = hold;
            list.sizes.used += 1;
            Ok(used)
        }
    }
}

// The first equal key gains so many counts and holds; else the key is appended with them.
fn record_with(
    list: &mut LentListMut,
    entry: U32TableEntry,
    count: u64,
    hold: u64,
) -> Result<usize, Refusal>
    requires { (count ≤ 1) × (hold ≤ 1) }
    ensures outcome { Leaves (record_with count hold (held_in_mut list.old) entry) (recorded_answer result) (held_in_mut list.new) }
    ensures same_arrays { SameArrays list.old list.new }
{
    let place = find_place(&list.view(), entry);
    store(list, place, count, hold)
}

// The first equal key gains one; else the key is appended with 1. The answer is its place, and the sizes come back beside it.
pub fn record_u32_table_entry_by_value(
    sizes: Sizes,
    keys: &mut [u64],
    multiplicities: &mut [u64],
    holds: &mut [u64],
    entry: U32TableEntry,
) -> (Result<usize, Refusal>, Sizes)
    ensures { Leaves (record_all (held_list sizes keys.old multiplicities.old holds.old) entry) (recorded_answer result.0) (held_list result.1 keys.new multiplicities.new holds.new) }
{
    let mut list = LentListMut {
        sizes,
        keys,
        multiplicities,
        holds,
    };
    let answer = record_with(&mut list, entry, 1, 0);
    (answer, list.sizes)
}

// The same recording, with the sizes lent.
pub fn record_sizes_lent(
    sizes: &mut Sizes,
    keys: &mut [u64],
    multiplicities: &mut [u64],
    holds: &mut [u64],
    entry: U32TableEntry,
) -> Result<usize, Refusal>
    ensures { Leaves (record_all (held_list sizes.old keys.old multiplicities.old holds.old) entry) (recorded_answer result) (held_list sizes.new keys.new multiplicities.new holds.new) }
{
    let (answer, after) = record_u32_table_entry_by_value(
        *sizes,
        keys,
        multiplicities,
        holds,
        entry,
    );
    *sizes = after;
    answer
}

// The same recording in a list lent as one: its sizes are lent on.
pub fn record_u32_table_entry(
    list: &mut LentListMut,
    entry: U32TableEntry,
) -> Result<usize, Refusal>
    ensures outcome { Leaves (record_all (held_in_mut list.old) entry) (recorded_answer result) (held_in_mut list.new) }
    ensures same_arrays { SameArrays list.old list.new }
{
    record_sizes_lent(
        &mut list.sizes,
        list.keys,
        list.multiplicities,
        list.holds,
        entry,
    )
}

// The first equal key gains one hold; else the key is appended with multiplicity 0 and one hold. The answer is its place, and the sizes come back beside it.
pub fn hold_u32_table_entry_by_value(
    sizes: Sizes,
    keys: &mut [u64],
    multiplicities: &mut [u64],
    holds: &mut [u64],
    entry: U32TableEntry,
) -> (Result<usize, Refusal>, Sizes)
    ensures { Leaves (hold_all (held_list sizes keys.old multiplicities.old holds.old) entry) (recorded_answer result.0) (held_list result.1 keys.new multiplicities.new holds.new) }
{
    let mut list = LentListMut {
        sizes,
        keys,
        multiplicities,
        holds,
    };
    let answer = record_with(&mut list, entry, 0, 1);
    (answer, list.sizes)
}

// The same hold, with the sizes lent.
pub fn hold_sizes_lent(
    sizes: &mut Sizes,
    keys: &mut [u64],
    multiplicities: &mut [u64],
    holds: &mut [u64],
    entry: U32TableEntry,
) -> Result<usize, Refusal>
    ensures { Leaves (hold_all (held_list sizes.old keys.old multiplicities.old holds.old) entry) (recorded_answer result) (held_list sizes.new keys.new multiplicities.new holds.new) }
{
    let (answer, after) = hold_u32_table_entry_by_value(*sizes, keys, multiplicities, holds, entry);
    *sizes = after;
    answer
}

// The same hold in a list lent as one: its sizes are lent on.
pub fn hold_u32_table_entry(list: &mut LentListMut, entry: U32TableEntry) -> Result<usize, Refusal>
    ensures outcome { Leaves (hold_all (held_in_mut list.old) entry) (recorded_answer result) (held_in_mut list.new) }
    ensures same_arrays { SameArrays list.old list.new }
{
    hold_sizes_lent(
        &mut list.sizes,
        list.keys,
        list.multiplicities,
        list.holds,
        entry,
    )
}

// Reasons 1 and 16 against ending a hold at a position.
#[tactic(auto, unfolding(crate::specs::Holding::drop_reason, list::specs::Holds::hold_at))]
fn judge_drop(held: &LentList, position: usize) -> Result<(), Refusal>
    ensures reason { result ≡ drop_reason (held_in held.now) position }
    ensures room { IfOk result (λ _. (position < length (held_in held.now).list.multiplicities) × (position < length (held_in held.now).holds) × (0 < get_or (held_in held.now).holds position 0)) }
{
    held.held_shape()?;
    if held.list.sizes.used <= position || held.holds[position] == 0 {
        Err(Refusal::NoHold)
    } else {
        Ok(())
    }
}

// One hold at the position becomes one count. The parts of the list stand here one by one, since keys are lent to be read alone.
pub fn confirm_hold(
    sizes: Sizes,
    keys: &[u64],
    multiplicities: &mut [u64],
    holds: &mut [u64],
    position: usize,
) -> Result<(), Refusal>
    ensures { Leaves (confirm_all (held_list sizes keys.now multiplicities.old holds.old) position) (completed_answer result) (held_list sizes keys.now multiplicities.new holds.new) }
{
    judge_drop(&LentList::new(sizes, keys, multiplicities, holds), position)?;
    if list::one_more_is_full(multiplicities[position], 0) {
        return Err(Refusal::CountFull);
    }
    multiplicities[position] += 1;
    holds[position] -= 1;
    Ok(())
}

// One hold at the position is no more. The parts of the list stand here one by one, since keys and multiplicities are lent to be read alone.
pub fn drop_hold(
    sizes: Sizes,
    keys: &[u64],
    multiplicities: &[u64],
    holds: &mut [u64],
    position: usize,
) -> Result<(), Refusal>
    ensures { Leaves (drop_all (held_list sizes keys.now multiplicities.now holds.old) position) (completed_answer result) (held_list sizes keys.now multiplicities.now holds.new) }
{
    judge_drop(&LentList::new(sizes, keys, multiplicities, holds), position)?;
    holds[position] -= 1;
    Ok(())
}
