// Stored lists: reading bytes into a list, writing a list as bytes. What is wrong is refused with its reason, and then nothing lent changes.
#![tactic(auto)]

ghost use Rattle.std.specs.Prelude.{◌≡◌, ◌≤◌};
ghost use Rattle.words.specs.Limits.{max_places};
ghost use Rattle.words.specs.Outcomes.{Leaves};
ghost use Rattle.list.specs.Heights.{list_height};
ghost use Rattle.list.specs.Lent.{counts_in, copied_in, held_in, held_in_mut, SameArrays};
ghost use Rattle.list_bytes.specs.Packed.{multiplicity_width, length_with};
ghost use Rattle.list_stored.specs.Stored.{torn, content_list, content_reason, read_reason, TakenUnless, read_all, read_answer, storing_reason, stored_as, write_all, written_answer};

use list::{Copied, LentList, LentListMut, UsedPlaces};
use list_bytes::StoredList;
use words::{MAX_PLACES, Refusal};

// The number of bytes that n stored entries take, with multiplicities of so many bytes.
fn length_with(width: usize, n: usize) -> usize
    requires { (width ≤ multiplicity_width) × (n ≤ max_places) }
    ensures { result ≡ length_with width n }
{
    list_bytes::HEAD_WIDTH + (list_bytes::KEY_WIDTH * n + width * n)
}

// The bytes with their number of entries. Reason 10: they are not as many as that number says, in the new form or in the old, or it is too large.
// The first test is apart: with the others it would read the count four times.
// Which form they have is not handed on: a field for it would ask more of who makes a `StoredList`.
fn stored_list(bytes: &[u8]) -> Result<StoredList<'_>, Refusal>
    ensures { TakenUnless (torn bytes.now) bytes.now result }
{
    if bytes.len() < list_bytes::HEAD_WIDTH {
        return Err(Refusal::Torn);
    }
    let n = list_bytes::stored_n(bytes);
    if MAX_PLACES < n
        || (bytes.len() != length_with(list_bytes::OLD_MULTIPLICITY_WIDTH, n)
            && bytes.len() != length_with(list_bytes::MULTIPLICITY_WIDTH, n))
    {
        return Err(Refusal::Torn);
    }
    Ok(StoredList { bytes, n })
}

// The copy becomes one of the entries that the bytes hold. It is filled where it stands.
fn copy_entries(stored: &StoredList, copied: &mut Copied)
    ensures { copied_in copied.new ≡ content_list stored.now.bytes.now }
{
    stored.unpack(&mut copied.keys, &mut copied.multiplicities);
    copied.used = stored.n;
}

// Reasons 2 to 5 entry by entry, 11 and 12 against what the bytes hold. It is judged on a copy, by the rule of stored bytes.
fn judge_content(stored: &StoredList) -> Result<(), Refusal>
    ensures { result ≡ content_reason stored.now.bytes.now }
{
    let mut copied = Copied::none();
    copy_entries(stored, &mut copied);
    let content = copied.lent();
    let height = content.judge_places(true)?;
    if list_repeats::has_repeats(content.used_keys()) {
        return Err(Refusal::Repeat);
    }
    if list_bytes::stored_height(stored.bytes) == height {
        Ok(())
    } else {
        Err(Refusal::Tally)
    }
}

// What the list is to be, or the first reason against reading the bytes into it.
fn judge_reading<'a>(bytes: &'a [u8], held: &LentList) -> Result<StoredList<'a>, Refusal>
    ensures { TakenUnless (read_reason (held_in held.now) bytes.now) bytes.now result }
{
    held.held_shape()?;
    let stored = stored_list(bytes)?;
    if held.list.sizes.capacity < stored.n || 0 < held.list.sizes.used {
        return Err(Refusal::ListFull);
    }
    judge_content(&stored)?;
    Ok(stored)
}

// Reads stored bytes onto a list that has no key: they become the list, none of them held, and the answer is the number of entries.
pub fn read_list(bytes: &[u8], list: &mut LentListMut) -> Result<usize, Refusal>
    ensures outcome { Leaves (read_all (held_in_mut list.old) bytes.now) (read_answer result) (held_in_mut list.new) }
    ensures same_arrays { SameArrays list.old list.new }
{
    let stored = judge_reading(bytes, &list.view())?;
    let n = stored.n;
    stored.unpack(list.keys, list.multiplicities);
    list::clear_places(list.holds, 0, n);
    list.sizes.used = n;
    Ok(n)
}

// Stores the bytes of a list that is judged fine and has this height, and answers their number: reason 11, then 7.
fn store(places: &UsedPlaces, height: u64, out: &mut [u8]) -> Result<usize, Refusal>
    requires { height ≡ list_height (counts_in places.now.list) }
    ensures { Leaves (stored_as (storing_reason (counts_in places.now.list) out.old) (counts_in places.now.list) out.old) (written_answer result) out.new }
{
    if list_repeats::has_repeats(places.used_keys()) {
        return Err(Refusal::Repeat);
    }
    let length = length_with(list_bytes::MULTIPLICITY_WIDTH, places.list.sizes.used);
    if out.len() < length {
        return Err(Refusal::Short);
    }
    list_bytes::put_list(places, height, out);
    Ok(length)
}

// Writes a list's counted keys as stored bytes, and answers their number.
pub fn write_list(list: &LentList, out: &mut [u8]) -> Result<usize, Refusal>
    ensures { Leaves (write_all (held_in list.now) out.old) (written_answer result) out.new }
{
    // Before the copy is made: what they refuse needs none.
    list.closed()?;
    let mut counted = Copied::none();
    let height = list.judge_and_gather(&mut counted)?;
    store(&counted.lent(), height, out)
}
