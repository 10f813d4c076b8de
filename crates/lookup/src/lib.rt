// The byte lookup and the cascade: their outputs, and the recording of a 16-bit value. The cascade is its sizes, its keys, one 16-bit word a
// place, and its multiplicities, one a place; beside it stand the multiplicities of the 256 bytes.
#![tactic(auto)]

ghost use Rattle.std.specs.Prelude.{◌≡◌, not, ◌+◌, ◌*◌, ◌≤◌, ◌<◌, [], get_or, length, MatchOption, Ok};
ghost use Rattle.words.specs.Limits.{byte_rows};
ghost use Rattle.words.specs.Answers.{done};
ghost use Rattle.words.specs.Outcomes.{Leaves, completed_answer};
ghost use Rattle.words.specs.Refusals.{decline_if};
ghost use Rattle.words.specs.declared.Refusal.TheVariants.{Shape};
ghost use Rattle.list.specs.Lists.{count_full};
ghost use Rattle.lookup.specs.ByteLookup.{byte_lookup, byte_output, NoneShared, high_byte, low_byte, cascade_output};
ghost use Rattle.lookup.specs.Cascades.{lookups, cascade_shape, bytes_full, find_from, look_up_all};
ghost use Rattle.lookup.specs.Lent.{cascade_in, lookups_in, SameArrays};
ghost use Rattle.lookup.specs.Placing.{place_of, stored_at, Fits};
ghost use Rattle.lookup.specs.Recordings.{occurs};

pub use list::Sizes;
use words::{BYTE_ROWS, MAX_CASCADE_PLACES, Refusal};

// The outputs of the byte lookup.
static BYTE_LOOKUP: [u8; 256] = [
    0, 7, 26, 63, 124, 215, 85, 254, 214, 228, 45, 185, 140, 173, 33, 240, 29, 177, 176, 32, 8,
    110, 87, 202, 204, 99, 150, 106, 230, 14, 235, 128, 213, 239, 212, 138, 23, 130, 208, 6, 44,
    71, 93, 116, 146, 189, 251, 81, 199, 97, 38, 28, 73, 179, 95, 84, 152, 48, 35, 119, 49, 88,
    242, 3, 148, 169, 72, 120, 62, 161, 166, 83, 175, 191, 137, 19, 100, 129, 112, 55, 221, 102,
    218, 61, 151, 237, 68, 164, 17, 147, 46, 234, 203, 216, 22, 141, 65, 57, 123, 12, 244, 54, 219,
    231, 96, 77, 180, 154, 5, 253, 133, 165, 98, 195, 205, 134, 245, 30, 9, 188, 59, 142, 186, 197,
    181, 144, 92, 31, 224, 163, 111, 74, 58, 69, 113, 196, 67, 246, 225, 10, 121, 50, 60, 157, 90,
    122, 2, 250, 101, 75, 178, 159, 24, 36, 201, 11, 243, 132, 198, 190, 114, 233, 39, 52, 21, 209,
    108, 238, 91, 187, 18, 104, 194, 37, 153, 34, 200, 143, 126, 155, 236, 118, 64, 80, 172, 89,
    94, 193, 135, 183, 86, 107, 252, 13, 167, 206, 136, 220, 207, 103, 171, 160, 76, 182, 227, 217,
    158, 56, 174, 4, 66, 109, 139, 162, 184, 211, 249, 47, 125, 232, 117, 43, 16, 42, 127, 20, 241,
    25, 149, 105, 156, 51, 53, 168, 145, 247, 223, 79, 78, 226, 15, 222, 82, 115, 70, 210, 27, 41,
    1, 170, 40, 131, 192, 229, 248, 255,
];

// The output of a byte. No two bytes share one.
pub fn byte_lookup(byte: u8) -> u8
    ensures rule { result ≡ byte_output byte }
    ensures distinct { NoneShared byte_lookup }
{
    BYTE_LOOKUP[usize::from(byte)]
}

// The high and the low byte of a 16-bit value.
fn bytes_of(limb: u16) -> (usize, usize)
    ensures { (result.0 ≡ high_byte limb) × (result.1 ≡ low_byte limb) }
{
    let [high, low] = limb.to_be_bytes();
    (usize::from(high), usize::from(low))
}

// The output of a 16-bit value in a table of outputs: that of its high byte, then that of its low one.
pub fn cascade_lookup_in(outputs: &[u8; 256], value: u16) -> u16
    ensures { result ≡ 256 * get_or outputs.now (high_byte value) 0 + get_or outputs.now (low_byte value) 0 }
{
    let (high, low) = bytes_of(value);
    u16::from_be_bytes([outputs[high], outputs[low]])
}

// The output of a 16-bit value.
pub fn cascade_lookup(value: u16) -> u16
    ensures { result ≡ cascade_output value }
{
    cascade_lookup_in(&BYTE_LOOKUP, value)
}

// A cascade as it is lent: its sizes; its keys, one 16-bit word a place; its multiplicities, one a place.
#[derive(Clone, Copy)]
pub struct LentCascade<'a> {
    pub sizes: Sizes,
    pub keys: &'a [u16],
    pub multiplicities: &'a [u64],
}

// A cascade lent to be changed, and beside it the multiplicities of the 256 bytes.
#[derive(Drop)]
pub struct LentLookupsMut<'a> {
    pub sizes: Sizes,
    pub keys: &'a mut [u16],
    pub multiplicities: &'a mut [u64],
    pub byte_multiplicities: &'a mut [u64],
}

impl LentCascade<'_> {
    // Reason 1. With the most places and the words of a key as arguments, one function for this and `list::list_shape` would be no plainer.
    #[tactic(auto, unfolding(crate::specs::Cascades::cascade_shape))]
    pub fn judge_shape(&self) -> Result<(), Refusal>
        ensures { result ≡ decline_if (not (cascade_shape (cascade_in self.now))) Shape }
    {
        let capacity = self.sizes.capacity;
        if capacity <= MAX_CASCADE_PLACES
            && self.sizes.used <= capacity
            && self.keys.len() == capacity
            && self.multiplicities.len() == capacity
        {
            Ok(())
        } else {
            Err(Refusal::Shape)
        }
    }
}

// Whether one of the keys is the value. They are looked at to their end, so that many are compared at a time: `contains` takes a fifth longer.
fn holds(keys: &[u16], value: u16) -> bool
    ensures { result ≡ occurs value keys.now }
{
    keys.iter()
        .fold(false, |found, key| found | (*key == value))
}

// The first place that holds the value: 256 at a time, up to a run that holds it, or to the last run; from there one by one. `position` over all of
// them takes nine times as long.
fn find_value(keys: &[u16], value: u16) -> Option<usize>
    ensures { MatchOption result (find_from keys.now value 0 (length keys.now) ≡ length keys.now) (λ at. (at < length keys.now) × (at ≡ find_from keys.now value 0 (length keys.now))) }
{
    let passed = keys
        .chunks_exact(256)
        .position(|run| holds(run, value))
        .unwrap_or(keys.len() / 256);
    (256 * passed..keys.len()).find(|place| keys[*place] == value)
}

// Whether a multiplicity would be raised past the limit. A sum that no word holds is past it too.
fn would_pass_limit(multiplicity: u64, more: u64) -> bool
    ensures { result ≡ count_full (multiplicity + more) }
{
    list::count_full(multiplicity.saturating_add(more))
}

// Whether a new value would raise the multiplicity of one of its bytes past the limit: by two where they are equal.
fn bytes_full(byte_multiplicities: &[u64], limb: u16) -> bool
    requires { length byte_multiplicities.now ≡ byte_rows }
    ensures { result ≡ bytes_full byte_multiplicities.now limb }
{
    let (high, low) = bytes_of(limb);
    if high == low {
        would_pass_limit(byte_multiplicities[high], 2)
    } else {
        would_pass_limit(byte_multiplicities[high], 1)
            || would_pass_limit(byte_multiplicities[low], 1)
    }
}

impl LentLookupsMut<'_> {
    // The cascade, to be looked at.
    fn cascade(&self) -> LentCascade<'_>
        ensures { cascade_in result ≡ (lookups_in self.now).values }
    {
        LentCascade {
            sizes: self.sizes,
            keys: self.keys,
            multiplicities: self.multiplicities,
        }
    }

    // Where a value goes, the place of the first equal key, or none yet where it is new; or the first reason against recording it: 1, then 5,
    // then 14. Of a known value the bytes are not looked at.
    fn find_limb(&self, limb: u16) -> Result<Option<usize>, Refusal>
        ensures { result ≡ place_of (lookups_in self.now) limb }
    {
        // Two tests with one answer: joined by `||` they would drop the refusal that `judge_shape` tells, and tell it anew.
        self.cascade().judge_shape()?;
        if self.byte_multiplicities.len() != BYTE_ROWS {
            return Err(Refusal::Shape);
        }
        let used = self.sizes.used;
        if let Some(at) = find_value(&self.keys[..used], limb) {
            if would_pass_limit(self.multiplicities[at], 1) {
                return Err(Refusal::CountFull);
            }
            return Ok(Some(at));
        }
        if bytes_full(self.byte_multiplicities, limb) {
            return Err(Refusal::CountFull);
        }
        if used < self.sizes.capacity {
            Ok(None)
        } else {
            Err(Refusal::CascadeFull)
        }
    }

    // Stores at a place that was found: the value there gains one; or the new value is appended with 1, and its bytes gain one each.
    fn store_limb(&mut self, limb: u16, place: Option<usize>)
        requires { Fits (lookups_in self.old) limb (Ok place) }
        ensures outcome { Leaves (stored_at (lookups_in self.old) limb (Ok place)) (done []) (lookups_in self.new) }
        ensures same_arrays { SameArrays self.old self.new }
    {
        match place {
            Some(at) => self.multiplicities[at] += 1,
            None => {
                let used = self.sizes.used;
                self.keys[used] = limb;
                self.multiplicities[used] = 1;
                let (high, low) = bytes_of(limb);
                self.byte_multiplicities[high] += 1;
                self.byte_multiplicities[low] += 1;
                self.sizes.used += 1;
            }
        }
    }

    // A known value gains one; a new one is appended with 1, and its two bytes gain one each. The sizes are lent on.
    pub fn increase_lookup_multiplicities_for_limb(&mut self, limb: u16) -> Result<(), Refusal>
        ensures outcome { Leaves (look_up_all (lookups_in self.old) limb) (completed_answer result) (lookups_in self.new) }
        ensures same_arrays { SameArrays self.old self.new }
    {
        look_up_sizes_lent(
            &mut self.sizes,
            self.keys,
            self.multiplicities,
            self.byte_multiplicities,
            limb,
        )
    }
}

// Where a value goes is found, and it is stored there.
fn find_and_store(tables: &mut LentLookupsMut, limb: u16) -> Result<(), Refusal>
    ensures outcome { Leaves (look_up_all (lookups_in tables.old) limb) (completed_answer result) (lookups_in tables.new) }
    ensures same_arrays { SameArrays tables.old tables.new }
{
    let place = tables.find_limb(limb)?;
    tables.store_limb(limb, place);
    Ok(())
}

// The recording; the sizes come back beside the answer.
pub fn increase_lookup_multiplicities_for_limb_by_value(
    sizes: Sizes,
    keys: &mut [u16],
    multiplicities: &mut [u64],
    byte_multiplicities: &mut [u64],
    limb: u16,
) -> (Result<(), Refusal>, Sizes)
    ensures { Leaves (look_up_all (lookups sizes keys.old multiplicities.old byte_multiplicities.old) limb) (completed_answer result.0) (lookups result.1 keys.new multiplicities.new byte_multiplicities.new) }
{
    let mut tables = LentLookupsMut {
        sizes,
        keys,
        multiplicities,
        byte_multiplicities,
    };
    let answer = find_and_store(&mut tables, limb);
    (answer, tables.sizes)
}

// The same recording, with the sizes lent.
pub fn look_up_sizes_lent(
    sizes: &mut Sizes,
    keys: &mut [u16],
    multiplicities: &mut [u64],
    byte_multiplicities: &mut [u64],
    limb: u16,
) -> Result<(), Refusal>
    ensures { Leaves (look_up_all (lookups sizes.old keys.old multiplicities.old byte_multiplicities.old) limb) (completed_answer result) (lookups sizes.new keys.new multiplicities.new byte_multiplicities.new) }
{
    let (answer, after) = increase_lookup_multiplicities_for_limb_by_value(
        *sizes,
        keys,
        multiplicities,
        byte_multiplicities,
        limb,
    );
    *sizes = after;
    answer
}
