// The two round trips of stored lists, as two calls each: what was written reads back as the counted keys with their counts, and what was accepted,
// without a multiplicity 0, is written again in the new form, to the same bytes where it has that form. Where the first call refuses, the second is
// not made.
#![tactic(auto)]

ghost use Rattle.list.specs.Lent.{held_in, held_in_mut, SameArrays};
ghost use Rattle.list_round_trips.specs.RoundTrips.{IsWrittenThenRead, IsReadThenWritten};

use list::{LentList, LentListMut};
use words::Refusal;

// Writes a list, then reads what was written onto another list.
pub fn write_then_read(
    list: &LentList,
    out: &mut [u8],
    to: &mut LentListMut,
) -> Result<usize, Refusal>
    ensures trip { IsWrittenThenRead (held_in list.now) out.old (held_in_mut to.old) result out.new (held_in_mut to.new) }
    ensures same_arrays { SameArrays to.old to.new }
{
    let n = list_stored::write_list(list, out)?;
    list_stored::read_list(&out[..n], to)
}

// Reads stored bytes onto a list, then writes the list.
pub fn read_then_write(
    bytes: &[u8],
    list: &mut LentListMut,
    out: &mut [u8],
) -> Result<usize, Refusal>
    ensures trip { IsReadThenWritten (held_in_mut list.old) bytes.now out.old result (held_in_mut list.new) out.new }
    ensures same_arrays { SameArrays list.old list.new }
{
    list_stored::read_list(bytes, list)?;
    list_stored::write_list(&list.view(), out)
}
