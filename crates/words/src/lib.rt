// What every call shares: the reasons to decline, limits, little-endian numbers and records of words.
#![tactic(auto)]

ghost use Rattle.std.specs.Prelude.{◌≡◌, ◌+◌, ◌*◌, ◌≤◌, ◌<◌, length, take, drop};
ghost use Rattle.std.proofs.lemmas.List.Edits.{sets};
ghost use Rattle.words.specs.Refusals.{refusal_number};
ghost use Rattle.words.specs.LittleEndian.{le_at, le};

// A list has at most this many places.
pub const MAX_PLACES: usize = 2048;

// A table has at most this many rows.
pub const MAX_ROWS: usize = 131072;

// A list of jobs has at most this many.
pub const MAX_JOBS: usize = 1048576;

// The byte lookup's rows: no padded height is below it.
pub const MIN_PADDED_HEIGHT: u64 = 256;

// A cascade has at most this many places.
pub const MAX_CASCADE_PLACES: usize = 65536;

// The byte lookup has this many rows, one a byte.
pub const BYTE_ROWS: usize = 256;

// No multiplicity is above this: p − 1.
pub const MULTIPLICITY_LIMIT: u64 = 18446744069414584320;

// Document 01's "Reasons to decline", in its order; then those of the requests. Each has its number in the documents.
#[derive(Clone, Copy, PartialEq, Eq, Debug)]
pub enum Refusal {
    Shape = 1,
    Stranger = 2,
    Wide = 3,
    BareLog = 4,
    CountFull = 5,
    ListFull = 6,
    Short = 7,
    Unreduced = 8,
    Flat = 9,
    Torn = 10,
    Repeat = 11,
    Tally = 12,
    ZeroDivisor = 13,
    CascadeFull = 14,
    OpenHold = 15,
    NoHold = 16,
    JobAbove = 17,
}

impl From<Refusal> for u64 {
    ghost from_gives = { λ reason n. n ≡ refusal_number reason };

    fn from(reason: Refusal) -> u64
        ensures { result ≡ refusal_number reason }
    {
        reason as u64
    }
}

// The byte at a place, as a word. Here and below a place is given: of a part, each caller would cut it and say the width once more, as in
// `word_of(&bytes[8 * i..8 * i + 8])`.
#[tactic(auto, using(crate::proofs::LittleEndian::le_at_one))]
pub fn byte_at(bytes: &[u8], at: usize) -> u64
    requires { at < length bytes.now }
    ensures exact { result ≡ le_at bytes.now at 1 }
    ensures bound { result < 256 }
{
    u64::from(bytes[at])
}

// The number in four bytes: the sum of byte i times 256^i.
pub fn half_at(bytes: &[u8], at: usize) -> u64
    requires { at + 4 ≤ length bytes.now }
    ensures exact { result ≡ le_at bytes.now at 4 }
    ensures bound { result < 4294967296 }
{
    u64::from(u32::from_le_bytes(bytes[at..at + 4].try_into().unwrap()))
}

// Eight bytes to a word: the sum of byte i times 256^i.
pub fn word_at(bytes: &[u8], at: usize) -> u64
    requires { at + 8 ≤ length bytes.now }
    ensures { result ≡ le_at bytes.now at 8 }
{
    u64::from_le_bytes(bytes[at..at + 8].try_into().unwrap())
}

// Puts the k lowest bytes of n at place `at`, lowest first. Past the eighth they are 0.
pub fn put_le(bytes: &mut [u8], at: usize, k: usize, n: u64)
    requires { at + k ≤ length bytes.old }
    ensures { bytes.new ≡ sets bytes.old at (le k n) }
{
    let low = k.min(8);
    bytes[at..at + low].copy_from_slice(&n.to_le_bytes()[..low]);
    bytes[at + low..at + k].fill(0);
}

// Record i of words that hold records of N words each.
pub fn record_at<const N: usize>(words: &[u64], i: usize) -> [u64; N]
    requires { N * i + N ≤ length words.now }
    ensures { result ≡ take N (drop (N * i) words.now) }
{
    words[N * i..N * i + N].try_into().unwrap()
}

// These words become record i.
pub fn put_record<const N: usize>(words: &mut [u64], i: usize, item: [u64; N])
    requires { N * i + N ≤ length words.old }
    ensures { words.new ≡ sets words.old (N * i) item.entry }
{
    words[N * i..N * i + N].copy_from_slice(&item);
}
