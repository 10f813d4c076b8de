// Whether keys of a list are equal.
#![tactic(auto)]

ghost use Rattle.std.specs.Prelude.{◌≡◌, ℕ, ◌+◌, ◌*◌, ◌/◌, ◌%◌, ◌≤◌, List, map, length};
ghost use Rattle.words.specs.Limits.{max_places};
ghost use Rattle.words.specs.Places.{places};
ghost use Rattle.isa.specs.Entries.{lhs, rhs, entry_width};
ghost use Rattle.list.specs.Lists.{u32_list, entry_at};
ghost use Rattle.list_repeats.specs.Repeats.{repeats};

use isa::U32TableEntry;
use list::Sizes;
use words::MAX_PLACES;

// Two for each place.
const BUCKETS: usize = 2 * MAX_PLACES;

// Where a key is looked for: equal keys have the same bucket.
fn bucket(key: U32TableEntry) -> usize
    ensures { result ≡ (key.opcode % 4093 + 67 * (lhs key % 4093) + 1031 * (rhs key % 4093)) % (2 * max_places) }
{
    ((key.opcode % 4093 + 67 * (key.left_operand % 4093) + 1031 * (key.right_operand % 4093))
        % BUCKETS as u64) as usize
}

// Whether two of the entries of these keys are equal, as admission hands them back. Each is compared with those before it in its bucket. The places
// of a bucket are linked, from the last to the first: `heads` has the last of each bucket and `links` the one before each place.
// No HashSet: nothing here allocates. Places fit 16 bits: an `Option<u16>` takes 4 bytes, an `Option<usize>` 16, and each call sets them all at its start.
// Keys alone: as `list::UsedPlaces` it would ask for multiplicities too, at which it does not look.
pub fn has_repeats(keys: &[u64]) -> bool
    requires { length keys.now / entry_width ≤ max_places }
    ensures { (s : Sizes) (ms : List ℕ) → result ≡ repeats (map (entry_at (u32_list s keys.now ms)) (places (length keys.now / entry_width))) }
{
    let mut heads: [Option<u16>; BUCKETS] = [None; BUCKETS];
    let mut links: [Option<u16>; MAX_PLACES] = [None; MAX_PLACES];
    for i in 0..keys.len() / U32TableEntry::WIDTH {
        let key = list::entry_at(keys, i);
        let b = bucket(key);
        let mut next = heads[b];
        while let Some(last) = next {
            let j = usize::from(last);
            if list::entry_at(keys, j) == key {
                return true;
            }
            next = links[j];
        }
        links[i] = heads[b];
        heads[b] = Some(i as u16);
    }
    false
}
