// The running sums of the byte lookup and of the cascade, so far at each byte or used place, stored in the aux words. All is judged before the
// first aux word is written.
#![tactic(auto)]

ghost use Rattle.std.specs.Prelude.{◌≡◌, ◌*◌, ◌≤◌, length, get_or, Some};
ghost use Rattle.words.specs.Limits.{byte_rows};
ghost use Rattle.words.specs.Outcomes.{Leaves};
ghost use Rattle.xfield.specs.XFieldElements.{ext_of};
ghost use Rattle.table.specs.Columns.{aux_width};
ghost use Rattle.sums.specs.Shares.{IsShareOf};
ghost use Rattle.extend.specs.Extensions.{extended_answer};
ghost use Rattle.lookup.specs.ByteLookup.{byte_output, cascade_output};
ghost use Rattle.lookup.specs.Lent.{cascade_in};
ghost use Rattle.lookup_sums.specs.LookupSums.{lookup_challenge_words, lookup_challenges_of, lookup_denominator, lookup_summand};
ghost use Rattle.lookup_sums.specs.LookupSums.{sum_shape, places_reason, summed_as, byte_sum_all, cascade_sum_all};
ghost use Rattle.lookup_sums.specs.Elements.{lookup_challenges_in};

use field::BFieldElement;
use lookup::LentCascade;
use sums::{Share, Summands};
use table::AuxRow;
use words::{BYTE_ROWS, Refusal};
use xfield::XFieldElement;

// The challenges of a lookup table: three extension elements, the indeterminate last.
#[derive(Clone, Copy)]
pub struct LookupChallenges {
    pub input_weight: XFieldElement,
    pub output_weight: XFieldElement,
    pub indeterminate: XFieldElement,
}

impl LookupChallenges {
    pub const WIDTH: usize = 3 * XFieldElement::WIDTH;

    // No `From`, which cannot require that there are enough words, and no `TryFrom`, which could fail.
    #[tactic(auto, unfolding(crate::specs::LookupSums::lookup_challenges_of))]
    pub fn from_words(words: &[u64]) -> Self
        requires { lookup_challenge_words ≤ length words.now }
        ensures { lookup_challenges_in result ≡ lookup_challenges_of words.now }
    {
        LookupChallenges {
            input_weight: table::element_at(words, 0),
            output_weight: table::element_at(words, 1),
            indeterminate: table::element_at(words, 2),
        }
    }

    // The indeterminate minus the weighted sum of input and output.
    #[tactic(auto, unfolding(crate::specs::LookupSums::lookup_denominator))]
    pub fn denominator(self, input: BFieldElement, output: BFieldElement) -> XFieldElement
        ensures { ext_of result ≡ lookup_denominator (lookup_challenges_in self) input.0 output.0 }
    {
        self.indeterminate - (self.input_weight * input + self.output_weight * output)
    }

    // What a value adds, which counts also where its multiplicity is 0.
    fn share(self, input: u16, output: u16, multiplicity: u64) -> Share
        ensures { IsShareOf (lookup_summand (lookup_challenges_in self) input output multiplicity) (Some result) }
    {
        let input = BFieldElement(u64::from(input));
        let output = BFieldElement(u64::from(output));
        Share {
            multiplicity: BFieldElement(multiplicity),
            denominator: self.denominator(input, output),
        }
    }
}

// The 256 bytes in order, as summands.
#[derive(Clone, Copy)]
struct Bytes<'a> {
    multiplicities: &'a [u64],
    challenges: LookupChallenges,
    ghost one_each: { length multiplicities.now ≡ byte_rows },
}

impl Summands for Bytes<'_> {
    ghost count = { λ _. byte_rows };

    ghost summand = { λ bytes i. lookup_summand (lookup_challenges_in bytes.challenges) i (byte_output i) (get_or bytes.multiplicities.now i 0) };

    fn count(&self) -> usize {
        BYTE_ROWS
    }

    fn share(&self, i: usize) -> Option<Share> {
        let byte = i as u8;
        let output = lookup::byte_lookup(byte);
        Some(
            self.challenges
                .share(u16::from(byte), u16::from(output), self.multiplicities[i]),
        )
    }
}

// The used places of a cascade in order, as summands.
#[derive(Clone, Copy)]
struct Places<'a> {
    cascade: LentCascade<'a>,
    challenges: LookupChallenges,
    ghost within_keys: { cascade.sizes.used ≤ length cascade.keys.now },
    ghost within_multiplicities: { cascade.sizes.used ≤ length cascade.multiplicities.now },
}

impl Summands for Places<'_> {
    ghost count = { λ places. places.cascade.sizes.used };

    ghost summand = { λ places i. lookup_summand (lookup_challenges_in places.challenges) (get_or places.cascade.keys.now i 0) (cascade_output (get_or places.cascade.keys.now i 0)) (get_or places.cascade.multiplicities.now i 0) };

    fn count(&self) -> usize {
        self.cascade.sizes.used
    }

    fn share(&self, i: usize) -> Option<Share> {
        let value = self.cascade.keys[i];
        let output = lookup::cascade_lookup(value);
        Some(
            self.challenges
                .share(value, output, self.cascade.multiplicities[i]),
        )
    }
}

// Nine challenge words, and three aux words a place.
#[tactic(auto, unfolding(crate::specs::LookupSums::sum_shape))]
fn has_sum_shape(places: usize, challenges: &[u64], aux: &[u64]) -> bool
    requires { places ≤ 65536 }
    ensures { result ≡ sum_shape places challenges.now aux.now }
{
    challenges.len() == LookupChallenges::WIDTH && aux.len() == AuxRow::WIDTH * places
}

// Reasons 8 and 9, in this order, else the sums are written. The multiplicities of the summands are given besides: `share` gives them as elements,
// each with its denominator, and 8 is asked of the words before any denominator is worked out.
#[tactic(auto, unfolding(crate::specs::LookupSums::places_reason))]
fn sum_over<S: Summands>(
    summands: &S,
    multiplicities: &[u64],
    challenges: &[u64],
    aux: &mut [u64],
) -> Result<XFieldElement, Refusal>
    requires { (S.count summands.now ≤ length multiplicities.now) × (aux_width * S.count summands.now ≤ length aux.old) }
    ensures { Leaves (summed_as (places_reason (S.summand summands.now) (S.count summands.now) multiplicities.now challenges.now) (S.summand summands.now) (S.count summands.now) aux.old) (extended_answer result) aux.new }
{
    if !table::are_reduced(challenges, &multiplicities[..summands.count()]) {
        return Err(Refusal::Unreduced);
    }
    if !sums::denominators_ok(summands) {
        return Err(Refusal::Flat);
    }
    Ok(sums::write_sums(summands, aux))
}

// The sum over input and output of each byte: each byte's aux words become the sum so far, and the answer is the last sum. It refuses wrong
// shapes, a challenge word or multiplicity that is p or more, and a denominator of zero.
#[tactic(auto, using(crate::proofs::Sums::sum_shaped), unfolding(crate::specs::LookupSums::byte_sum_all, crate::specs::LookupSums::byte_sum_reason, lookup::specs::Cascades::bytes_shape))]
pub fn byte_sum(
    byte_multiplicities: &[u64],
    challenges: &[u64],
    aux: &mut [u64],
) -> Result<XFieldElement, Refusal>
    ensures { Leaves (byte_sum_all byte_multiplicities.now challenges.now aux.old) (extended_answer result) aux.new }
{
    if byte_multiplicities.len() != BYTE_ROWS || !has_sum_shape(BYTE_ROWS, challenges, aux) {
        return Err(Refusal::Shape);
    }
    let bytes = Bytes {
        multiplicities: byte_multiplicities,
        challenges: LookupChallenges::from_words(challenges),
    };
    sum_over(&bytes, byte_multiplicities, challenges, aux)
}

// The same over the used places of a cascade: unused places are not examined, and their aux words stay.
#[tactic(auto, using(crate::proofs::Sums::sum_shaped), unfolding(crate::specs::LookupSums::cascade_sum_all, crate::specs::LookupSums::cascade_sum_reason))]
pub fn cascade_sum(
    cascade: &LentCascade,
    challenges: &[u64],
    aux: &mut [u64],
) -> Result<XFieldElement, Refusal>
    ensures { Leaves (cascade_sum_all (cascade_in cascade.now) challenges.now aux.old) (extended_answer result) aux.new }
{
    // Two tests with one answer: joined by `||` they would drop the refusal that `judge_shape` tells, and tell it anew.
    cascade.judge_shape()?;
    if !has_sum_shape(cascade.sizes.capacity, challenges, aux) {
        return Err(Refusal::Shape);
    }
    let places = Places {
        cascade: *cascade,
        challenges: LookupChallenges::from_words(challenges),
    };
    sum_over(&places, cascade.multiplicities, challenges, aux)
}
