// The bytes of a stored list: what they hold, and putting them.
#![tactic(auto)]

ghost use Rattle.std.specs.Prelude.{◌≡◌, ◌+◌, ◌*◌, ◌≤◌, ◌<◌, length};
ghost use mathlib.Core.List.{map, flat_map};
ghost use Rattle.std.proofs.lemmas.List.Edits.{sets};
ghost use Rattle.words.specs.Limits.{max_places};
ghost use Rattle.words.specs.LittleEndian.{le};
ghost use Rattle.words.specs.Places.{places};
ghost use Rattle.isa.specs.Entries.{entry_words, entry_width};
ghost use Rattle.list.specs.Lists.{entry_at, multiplicity_at};
ghost use Rattle.list.specs.Lent.{counts_in};
ghost use Rattle.list_bytes.specs.Packed.{n_width, head_width, key_width, keys_end, multiplicity_width, length_with, width_of, stored_length, key_bytes, bytes_with};
ghost use Rattle.list_bytes.specs.Packed.{stored_n, stored_height, stored_entry, stored_multiplicity};

use isa::U32TableEntry;
use list::UsedPlaces;

// The bytes of each part: the number of entries, the height, and for each entry a key and its multiplicity.
const N_WIDTH: usize = 4;

const HEIGHT_WIDTH: usize = 4;

// What stands before the keys.
pub const HEAD_WIDTH: usize = N_WIDTH + HEIGHT_WIDTH;

const OPCODE_WIDTH: usize = 1;

const OPERAND_WIDTH: usize = 8;

pub const KEY_WIDTH: usize = OPCODE_WIDTH + OPERAND_WIDTH + OPERAND_WIDTH;

pub const MULTIPLICITY_WIDTH: usize = 8;

// Lists whose multiplicities take four bytes are read, and not written.
pub const OLD_MULTIPLICITY_WIDTH: usize = 4;

// The number of entries that the bytes say they hold.
#[tactic(auto, unfolding(crate::specs::Packed::stored_n))]
pub fn stored_n(bytes: &[u8]) -> usize
    requires { n_width ≤ length bytes.now }
    ensures { result ≡ stored_n bytes.now }
{
    words::half_at(bytes, 0) as usize
}

// The height that the bytes say their entries have.
#[tactic(auto, unfolding(crate::specs::Packed::stored_height))]
pub fn stored_height(bytes: &[u8]) -> u64
    requires { head_width ≤ length bytes.now }
    ensures { result ≡ stored_height bytes.now }
{
    words::half_at(bytes, N_WIDTH)
}

// Bytes that hold n entries.
#[derive(Clone, Copy)]
pub struct StoredList<'a> {
    pub bytes: &'a [u8],
    pub n: usize,
    pub ghost whole: { (n ≡ stored_n bytes.now) × (n ≤ max_places) × (length_with (width_of bytes.now) n ≤ length bytes.now) },
}

impl StoredList<'_> {
    // The entry at place i.
    #[tactic(auto, unfolding(crate::specs::Packed::stored_entry))]
    fn entry(&self, i: usize) -> U32TableEntry
        requires { i < self.now.n }
        ensures { result ≡ stored_entry self.now.bytes.now i }
    {
        let at = HEAD_WIDTH + KEY_WIDTH * i;
        U32TableEntry {
            opcode: words::byte_at(self.bytes, at),
            left_operand: words::word_at(self.bytes, at + OPCODE_WIDTH),
            right_operand: words::word_at(self.bytes, at + OPCODE_WIDTH + OPERAND_WIDTH),
        }
    }

    // The multiplicity at place i. The number of bytes tells how many each takes.
    fn multiplicity(&self, i: usize) -> u64
        requires { i < self.now.n }
        ensures { result ≡ stored_multiplicity self.now.bytes.now i }
    {
        let at = HEAD_WIDTH + KEY_WIDTH * self.n;
        if self.bytes.len() == at + OLD_MULTIPLICITY_WIDTH * self.n {
            words::half_at(self.bytes, at + OLD_MULTIPLICITY_WIDTH * i)
        } else {
            words::word_at(self.bytes, at + MULTIPLICITY_WIDTH * i)
        }
    }

    // Stores what the bytes hold in the first n places.
    // By place, here and below: `chunks_exact_mut` was tried, and after such a loop a proof knows nothing of what was written.
    pub fn unpack(&self, keys: &mut [u64], multiplicities: &mut [u64])
        requires n_in_bounds { (entry_width * self.now.n ≤ length keys.old) × (self.now.n ≤ length multiplicities.old) }
        ensures keys_after { keys.new ≡ sets keys.old 0 (flat_map (λ i. entry_words (stored_entry self.now.bytes.now i)) (places self.now.n)) }
        ensures multiplicities_after { multiplicities.new ≡ sets multiplicities.old 0 (map (stored_multiplicity self.now.bytes.now) (places self.now.n)) }
    {
        for i in 0..self.n {
            list::put_key(keys, i, self.entry(i));
            multiplicities[i] = self.multiplicity(i);
        }
    }
}

// The bytes become those of an entry.
fn put_entry(out: &mut [u8], e: U32TableEntry)
    requires { length out.old ≡ key_width }
    ensures { out.new ≡ key_bytes e }
{
    words::put_le(out, 0, OPCODE_WIDTH, e.opcode);
    words::put_le(out, OPCODE_WIDTH, OPERAND_WIDTH, e.left_operand);
    words::put_le(
        out,
        OPCODE_WIDTH + OPERAND_WIDTH,
        OPERAND_WIDTH,
        e.right_operand,
    );
}

// The bytes become those of a list's entries.
fn put_entries(used: &UsedPlaces, out: &mut [u8])
    requires { length out.old ≡ key_width * used.now.list.sizes.used }
    ensures { out.new ≡ flat_map (λ i. key_bytes (entry_at (counts_in used.now.list) i)) (places used.now.list.sizes.used) }
{
    let list = used.list;
    for i in 0..list.sizes.used {
        let at = KEY_WIDTH * i;
        put_entry(&mut out[at..at + KEY_WIDTH], list::entry_at(list.keys, i));
    }
}

// The bytes become those of a list's multiplicities.
fn put_multiplicities(used: &UsedPlaces, out: &mut [u8])
    requires { length out.old ≡ multiplicity_width * used.now.list.sizes.used }
    ensures { out.new ≡ flat_map (λ i. le multiplicity_width (multiplicity_at (counts_in used.now.list) i)) (places used.now.list.sizes.used) }
{
    let list = used.list;
    for i in 0..list.sizes.used {
        words::put_le(
            out,
            MULTIPLICITY_WIDTH * i,
            MULTIPLICITY_WIDTH,
            list.multiplicities[i],
        );
    }
}

// Stores the bytes of a list, with this number as its height.
pub fn put_list(places: &UsedPlaces, height: u64, out: &mut [u8])
    requires { stored_length places.now.list.sizes.used ≤ length out.old }
    ensures { out.new ≡ sets out.old 0 (bytes_with height (counts_in places.now.list)) }
{
    let n = places.list.sizes.used;
    let keys_end = HEAD_WIDTH + KEY_WIDTH * n;
    words::put_le(out, 0, N_WIDTH, n as u64);
    words::put_le(out, N_WIDTH, HEIGHT_WIDTH, height);
    put_entries(places, &mut out[HEAD_WIDTH..keys_end]);
    put_multiplicities(
        places,
        &mut out[keys_end..keys_end + MULTIPLICITY_WIDTH * n],
    );
}
