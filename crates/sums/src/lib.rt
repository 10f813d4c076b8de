// Running sums, of any summands: their denominators judged, and the sums so far stored in the aux words. The table's sum stands on them, and
// those of the lookup tables.
#![tactic(auto)]

ghost use Rattle.std.specs.Prelude.{◌≡◌, ℕ, ◌*◌, ◌≤◌, ◌<◌, length};
ghost use Rattle.std.proofs.lemmas.List.Edits.{sets};
ghost use Rattle.xfield.specs.XFieldElements.{ext_of};
ghost use Rattle.table.specs.Columns.{aux_width};
ghost use Rattle.sums.specs.RunningSum.{Summand, add_summand, running_sum, denominator_ok, denominators_ok, sum_words};
ghost use Rattle.sums.specs.Shares.{IsShareOf};

use field::BFieldElement;
use xfield::XFieldElement;

// What a summand adds: its multiplicity times the inverse of its denominator.
#[derive(Clone, Copy)]
pub struct Share {
    pub multiplicity: BFieldElement,
    pub denominator: XFieldElement,
}

// The summands of a sum, in their order.
pub trait Summands {
    ghost count: { Self → ℕ };

    ghost summand: { Self → ℕ → Summand };

    // How many there are.
    fn count(&self) -> usize
        ensures { result ≡ count self.now };

    // What summand i adds, if it counts.
    fn share(&self, i: usize) -> Option<Share>
        requires { i < count self.now }
        ensures { IsShareOf (summand self.now i) result };
}

// Nothing against summand i: it does not count, or its denominator is not zero.
#[tactic(auto, unfolding(crate::specs::RunningSum::denominator_ok))]
pub fn denominator_ok<S: Summands>(summands: &S, i: usize) -> bool
    requires { i < S.count summands.now }
    ensures { result ≡ denominator_ok (S.summand summands.now i) }
{
    match summands.share(i) {
        Some(share) => !share.denominator.is_zero(),
        None => true,
    }
}

// Nothing against any summand.
pub fn denominators_ok<S: Summands>(summands: &S) -> bool
    ensures { result ≡ denominators_ok (S.summand summands.now) (S.count summands.now) }
{
    (0..summands.count()).all(|i| denominator_ok(summands, i))
}

// The sum with what summand i adds to it.
#[tactic(auto, unfolding(crate::specs::RunningSum::add_summand))]
fn add_share<S: Summands>(sum: XFieldElement, summands: &S, i: usize) -> XFieldElement
    requires { i < S.count summands.now }
    ensures { ext_of result ≡ add_summand (ext_of sum) (S.summand summands.now i) }
{
    match summands.share(i) {
        Some(share) => sum + share.denominator.inverse_or_zero() * share.multiplicity,
        None => sum,
    }
}

// Each summand's aux words become the sum so far; the last sum comes back, zero for none.
#[tactic(auto, using(crate::proofs::RunningSums::sum_turn, crate::proofs::SumWords::words_turn), unfolding(crate::specs::RunningSum::running_sum, crate::specs::RunningSum::sum_words))]
pub fn write_sums<S: Summands>(summands: &S, aux: &mut [u64]) -> XFieldElement
    requires { aux_width * S.count summands.now ≤ length aux.old }
    ensures last { ext_of result ≡ running_sum (S.summand summands.now) (S.count summands.now) }
    ensures sums { aux.new ≡ sets aux.old 0 (sum_words (S.summand summands.now) (S.count summands.now)) }
{
    let mut sum = XFieldElement::ZERO;
    for place in 0..summands.count() {
        sum = add_share(sum, summands, place);
        table::put_element(aux, place, sum);
    }
    sum
}
