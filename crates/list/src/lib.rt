// Lists of entries with their multiplicities, judged. A list is its sizes, its keys, three words a place, and its multiplicities, one a place; its
// holds, one a place, stand beside it.
// The arrays are words and no arrays of structs: the C interface lends them so.
#![tactic(auto)]

ghost use Rattle.std.specs.Prelude.{◌≡◌, true, false, ℕ, ◌+◌, ◌*◌, ◌-◌, ◌/◌, ◌≤◌, ◌<◌, List, [], IfSome, OnOk, length, take, replicate};
ghost use Rattle.std.proofs.lemmas.List.Edits.{sets};
ghost use Rattle.std.specs.Option.{unwrap_or};
ghost use Rattle.words.specs.Limits.{max_places};
ghost use Rattle.isa.specs.Entries.{entry_words, entry_width, admission};
ghost use Rattle.list.specs.Lists.{u32_list, key_at, entry_at, list_shape, count_full, judge_entry_by};
ghost use Rattle.list.specs.Heights.{judged_places, judged_list};
ghost use Rattle.list.specs.Keys.{same_key, find_from};
ghost use Rattle.list.specs.Counted.{counted as counted_of};
ghost use Rattle.list.specs.Holds.{held_shape, open_hold, judge_closed, judged_held, section_list};
ghost use Rattle.list.specs.Eights.{EightDiffer, other_word};

use field::BFieldElement;
use isa::{Opcode, U32TableEntry};
use words::{MAX_PLACES, MULTIPLICITY_LIMIT, Refusal};

// A list's places: how many there are, and how many hold an entry.
#[derive(Clone, Copy, PartialEq, Eq)]
pub struct Sizes {
    pub capacity: usize,
    pub used: usize,
}

// A list without its holds, as it is lent: any words.
#[derive(Clone, Copy)]
pub struct LentCounts<'a> {
    pub sizes: Sizes,
    pub keys: &'a [u64],
    pub multiplicities: &'a [u64],
}

// One whose used places stand in its arrays.
#[derive(Clone, Copy)]
pub struct UsedPlaces<'a> {
    pub list: LentCounts<'a>,
    pub ghost in_bounds: { (list.sizes.used ≤ max_places) × (entry_width * list.sizes.used ≤ length list.keys.now) × (list.sizes.used ≤ length list.multiplicities.now) },
}

// Places that are copied, one after the other: their keys and multiplicities, from the front of the two arrays on.
// The arrays are fixed and no vectors: no call may fail for want of memory. No `ArrayVec`s either: those lend the places in use alone, while `counted` and
// `unpack` of list_bytes store in arrays as they are lent, past what is in use; and two have two lengths, one always three times the other.
#[derive(Drop)]
pub struct Copied {
    pub used: usize,
    pub keys: [u64; U32TableEntry::WIDTH * MAX_PLACES],
    pub multiplicities: [u64; MAX_PLACES],
    pub ghost fits: { used ≤ max_places },
}

// A list with its holds, as it is lent: any words.
#[derive(Clone, Copy)]
pub struct LentList<'a> {
    pub list: LentCounts<'a>,
    pub holds: &'a [u64],
}

// The same, lent to be changed: its sizes; its keys, three words a place; its multiplicities and its holds, one each a place.
#[derive(Drop)]
pub struct LentListMut<'a> {
    pub sizes: Sizes,
    pub keys: &'a mut [u64],
    pub multiplicities: &'a mut [u64],
    pub holds: &'a mut [u64],
}

impl LentListMut<'_> {
    ghost use Rattle.list.specs.Lent.{held_in, held_in_mut};

    // The list, to be looked at.
    pub fn view(&self) -> LentList<'_>
        ensures { held_in result ≡ held_in_mut self.now }
    {
        LentList::new(self.sizes, self.keys, self.multiplicities, self.holds)
    }
}

// The three words at place i.
#[tactic(auto, unfolding(crate::specs::Lists::key_at))]
pub fn key_at(keys: &[u64], i: usize) -> U32TableEntry
    requires { entry_width * i + 2 < length keys.now }
    ensures { (s : Sizes) (ms : List ℕ) → result ≡ key_at (u32_list s keys.now ms) i }
{
    U32TableEntry::at(keys, i)
}

// The entry at place i, as admission hands it back.
#[tactic(auto, unfolding(crate::specs::Lists::entry_at))]
pub fn entry_at(keys: &[u64], i: usize) -> U32TableEntry
    requires { entry_width * i + 2 < length keys.now }
    ensures { (s : Sizes) (ms : List ℕ) → result ≡ entry_at (u32_list s keys.now ms) i }
{
    key_at(keys, i).reduced()
}

// The three words at place i become the key.
pub fn put_key(keys: &mut [u64], i: usize, key: U32TableEntry)
    requires { entry_width * i + 2 < length keys.old }
    ensures { keys.new ≡ sets keys.old (entry_width * i) (entry_words key) }
{
    words::put_record(keys, i, key.words());
}

// Yes: eight places have another word where LHS stands.
fn do_eight_differ(eight: &[u64], left_operand: u64) -> bool
    requires { length eight.now ≡ entry_width * 8 }
    ensures { result ≡ true → EightDiffer eight.now 0 left_operand }
{
    eight
        .chunks_exact(U32TableEntry::WIDTH)
        .all(|key| key[1] != left_operand)
}

// The other word that stands for LHS of the key at a place: of pow, LHS + p where it fits a word. Where there is none, LHS.
#[tactic(auto, unfolding(crate::specs::Eights::other_word))]
fn other_word(key: U32TableEntry) -> u64
    ensures { result ≡ other_word key }
{
    if key.opcode == Opcode::Pow as u64 {
        key.left_operand
            .checked_add(BFieldElement::P)
            .unwrap_or(key.left_operand)
    } else {
        key.left_operand
    }
}

// Yes: eight places have neither of the two words where LHS stands.
fn do_eight_differ_from_both(eight: &[u64], left_operand: u64, other: u64) -> bool
    requires { length eight.now ≡ entry_width * 8 }
    ensures { result ≡ true → (EightDiffer eight.now 0 left_operand) × (EightDiffer eight.now 0 other) }
{
    do_eight_differ(eight, left_operand) && (other == left_operand || do_eight_differ(eight, other))
}

// Whether place i holds the key. RHS is asked for first, since it stands there as admission hands it back, so that a key is reduced only where RHS is equal:
// for speed (docs/changes/07.md: recording 2,048 keys of pow with one base takes 0.60 ms; before keys were reduced, and without this, it took 0.88).
#[tactic(auto, using(crate::proofs::Finding::equal_is_same, crate::proofs::Finding::differ_by_rhs))]
fn holds(keys: &[u64], i: usize, key: U32TableEntry) -> bool
    requires { entry_width * i + 2 < length keys.now }
    ensures { (s : Sizes) (ms : List ℕ) → result ≡ same_key (entry_at (u32_list s keys.now ms) i) key }
{
    keys[U32TableEntry::WIDTH * i + 2] == key.right_operand && entry_at(keys, i) == key
}

// The first of these places that holds the key, if one does: eight at a time, up to eight that get a no, or to the last eight; from there one by one.
// Eight at a time for speed: recording 2,048 keys took 1.69 ms one by one and takes 0.45, and with one LHS 1.11 and 1.20 (docs/BENCHMARKS.md).
pub fn find(keys: &[u64], key: U32TableEntry) -> Option<usize>
    ensures within { IfSome result (λ at. at < length keys.now / entry_width) }
    ensures first { (s : Sizes) (ms : List ℕ) → unwrap_or result (length keys.now / entry_width) ≡ find_from (u32_list s keys.now ms) key 0 (length keys.now / entry_width) }
{
    let n = keys.len() / U32TableEntry::WIDTH;
    let other = other_word(key);
    let passed = keys
        .chunks_exact(8 * U32TableEntry::WIDTH)
        .position(|eight| !do_eight_differ_from_both(eight, key.left_operand, other))
        .unwrap_or(n / 8);
    (8 * passed..n).find(|place| holds(keys, *place, key))
}

// Reason 5: a multiplicity above the limit.
#[tactic(auto, unfolding(crate::specs::Lists::count_full))]
pub fn count_full(multiplicity: u64) -> bool
    ensures { result ≡ count_full multiplicity }
{
    MULTIPLICITY_LIMIT < multiplicity
}

// Reason 5 where one more is recorded or held: count and holds together would pass the limit.
#[tactic(auto, unfolding(crate::specs::Lists::count_full))]
pub fn one_more_is_full(multiplicity: u64, holds: u64) -> bool
    ensures { result ≡ count_full (multiplicity + holds + 1) }
{
    MULTIPLICITY_LIMIT <= multiplicity.saturating_add(holds)
}

// An entry admitted by one of the two rules: that of stored bytes, or the other.
// The rule is a flag, as `judge_entry_by` takes it. What a closure answers would be a `requires` of `judge_places`, which asks its callers nothing of the
// rule; an enum of the two rules would be turned into the flag in each clause.
#[tactic(auto, unfolding(crate::specs::Lists::judge_entry_by, isa::specs::Entries::admit))]
fn admit_by(stored: bool, key: U32TableEntry) -> Result<U32TableEntry, Refusal>
    ensures { result ≡ admission (judge_entry_by stored key) key }
{
    if stored {
        key.admit_stored()
    } else {
        key.admit()
    }
}

impl LentCounts<'_> {
    ghost use Rattle.list.specs.Lent.{counts_in};

    // Reason 1. The capacity is tested before it is multiplied.
    #[tactic(auto, unfolding(crate::specs::Lists::list_shape))]
    pub fn list_shape(&self) -> Result<(), Refusal>
        ensures { result ≡ list_shape (counts_in self.now) }
    {
        let capacity = self.sizes.capacity;
        if MAX_PLACES < capacity
            || capacity < self.sizes.used
            || self.keys.len() != U32TableEntry::WIDTH * capacity
            || self.multiplicities.len() != capacity
        {
            Err(Refusal::Shape)
        } else {
            Ok(())
        }
    }

    // The places whose multiplicity is not 0, one after the other: their keys and multiplicities, from the front of the two arrays on. The answer is
    // the sizes of the list that they are. No method of `UsedPlaces`, which would ask besides that at most 2,048 places be used.
    pub fn counted(&self, to_keys: &mut [u64], to_multiplicities: &mut [u64]) -> Sizes
        requires used_in_bounds { (entry_width * self.now.sizes.used ≤ length self.now.keys.now) × (self.now.sizes.used ≤ length self.now.multiplicities.now) }
        requires used_in_bounds_2 { (entry_width * self.now.sizes.used ≤ length to_keys.old) × (self.now.sizes.used ≤ length to_multiplicities.old) }
        ensures value { result ≡ (counted_of (counts_in self.now)).sizes }
        ensures to_keys_after { to_keys.new ≡ sets to_keys.old 0 (counted_of (counts_in self.now)).keys }
        ensures to_multiplicities_after { to_multiplicities.new ≡ sets to_multiplicities.old 0 (counted_of (counts_in self.now)).multiplicities }
    {
        let mut n: usize = 0;
        for place in 0..self.sizes.used {
            let multiplicity = self.multiplicities[place];
            if multiplicity == 0 {
                continue;
            }
            put_key(to_keys, n, key_at(self.keys, place));
            to_multiplicities[n] = multiplicity;
            n += 1;
        }
        Sizes {
            capacity: n,
            used: n,
        }
    }

    // Reason 1, then 2 to 5 entry by entry; where there is none, the list's height.
    pub fn judge_list(&self) -> Result<u64, Refusal>
        ensures { result ≡ judged_list (counts_in self.now) }
    {
        self.list_shape()?;
        UsedPlaces { list: *self }.judge_places(false)
    }
}

impl UsedPlaces<'_> {
    ghost use Rattle.list.specs.Lent.{counts_in, copied_in};

    // The keys of the used places.
    pub fn used_keys(&self) -> &[u64]
        ensures { result.now ≡ take (entry_width * self.now.list.sizes.used) self.now.list.keys.now }
    {
        &self.list.keys[..U32TableEntry::WIDTH * self.list.sizes.used]
    }

    // Reasons 2 to 5 entry by entry; where there is none, the height.
    pub fn judge_places(&self, stored: bool) -> Result<u64, Refusal>
        ensures { result ≡ judged_places stored (counts_in self.now.list) }
    {
        let mut height: u64 = 0;
        for place in 0..self.list.sizes.used {
            let entry = admit_by(stored, key_at(self.list.keys, place))?;
            if count_full(self.list.multiplicities[place]) {
                return Err(Refusal::CountFull);
            }
            height += entry.table_height_contribution();
        }
        Ok(height)
    }

    // The counted ones are gathered, which get sections, and 2 to 5 are asked of them entry by entry; where there is none, their height.
    fn judge_counted(&self, counted: &mut Copied) -> Result<u64, Refusal>
        ensures height { result ≡ judged_places false (counted_of (counts_in self.now.list)) }
        ensures gathered { copied_in counted.new ≡ counted_of (counts_in self.now.list) }
    {
        counted.gather(self);
        counted.lent().judge_places(false)
    }
}

impl Copied {
    ghost use Rattle.list.specs.Lent.{counts_in, copied_in};

    // A copy of no place.
    pub fn none() -> Copied
        ensures { copied_in result ≡ u32_list (record { capacity = 0; used = 0 }) [] [] }
    {
        Copied {
            used: 0,
            keys: [0u64; U32TableEntry::WIDTH * MAX_PLACES],
            multiplicities: [0u64; MAX_PLACES],
        }
    }

    // It becomes a copy of the places whose multiplicity is not 0. It is filled where it stands.
    pub fn gather(&mut self, places: &UsedPlaces)
        ensures list { copied_in self.new ≡ counted_of (counts_in places.now.list) }
    {
        let copied = places
            .list
            .counted(&mut self.keys, &mut self.multiplicities);
        self.used = copied.used;
    }

    // The list that they are.
    pub fn lent(&self) -> UsedPlaces<'_>
        ensures { counts_in result.list ≡ copied_in self.now }
    {
        let used = self.used;
        UsedPlaces {
            list: LentCounts {
                sizes: Sizes {
                    capacity: used,
                    used,
                },
                keys: &self.keys[..U32TableEntry::WIDTH * used],
                multiplicities: &self.multiplicities[..used],
            },
        }
    }
}

impl<'a> LentList<'a> {
    ghost use Rattle.list.specs.Holds.{held_list};
    ghost use Rattle.list.specs.Lent.{counts_in, copied_in, held_in, PlacesUnless};

    // Of its parts.
    pub fn new(
        sizes: Sizes,
        keys: &'a [u64],
        multiplicities: &'a [u64],
        holds: &'a [u64],
    ) -> LentList<'a>
        ensures { held_in result ≡ held_list sizes keys.now multiplicities.now holds.now }
    {
        LentList {
            list: LentCounts {
                sizes,
                keys,
                multiplicities,
            },
            holds,
        }
    }

    // Reason 1.
    #[tactic(auto, unfolding(crate::specs::Holds::held_shape))]
    pub fn held_shape(&self) -> Result<(), Refusal>
        ensures { result ≡ held_shape (held_in self.now) }
    {
        // Two tests with one answer: joined by `||` they would drop the refusal that `list_shape` tells, and tell it anew.
        self.list.list_shape()?;
        if self.holds.len() == self.list.sizes.capacity {
            Ok(())
        } else {
            Err(Refusal::Shape)
        }
    }

    // Reason 15: an open hold at a used place.
    fn open_hold(&self) -> Result<(), Refusal>
        ensures { result ≡ open_hold (held_in self.now) }
    {
        if self
            .holds
            .iter()
            .take(self.list.sizes.used)
            .all(|hold| *hold == 0)
        {
            Ok(())
        } else {
            Err(Refusal::OpenHold)
        }
    }

    // Reasons 1 and 15; where there is none, the used places. Neither needs a copy: who makes one asks for these first.
    pub fn closed(&self) -> Result<UsedPlaces<'a>, Refusal>
        ensures { PlacesUnless (judge_closed (held_in self.now)) (counts_in self.now.list) result }
    {
        self.held_shape()?;
        self.open_hold()?;
        let list = self.list;
        Ok(UsedPlaces { list })
    }

    // Reasons 1 and 15; then the counted places are gathered, which get sections, and 2 to 5 are asked of them entry by entry; where there is none, their height.
    pub fn judge_and_gather(&self, counted: &mut Copied) -> Result<u64, Refusal>
        ensures height { result ≡ judged_held (held_in self.now) }
        ensures gathered { OnOk result (copied_in counted.new ≡ section_list (held_in self.now)) }
    {
        let places = self.closed()?;
        places.judge_counted(counted)
    }

    // The same for who needs the height alone.
    pub fn judge_held(&self) -> Result<u64, Refusal>
        ensures { result ≡ judged_held (held_in self.now) }
    {
        let places = self.closed()?;
        let mut counted = Copied::none();
        places.judge_counted(&mut counted)
    }
}

// Places `from` to `to` − 1 of an array become 0, those that it has.
pub fn clear_places(counts: &mut [u64], from: usize, to: usize)
    ensures { counts.new ≡ sets counts.old from (replicate (to - from) 0) }
{
    let end = to.min(counts.len());
    if from < end {
        counts[from..end].fill(0);
    }
}
