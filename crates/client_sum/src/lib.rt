// The client's sum: the processor's end of the lookup. Each request adds the inverse of its denominator; its Result is the plain function's.
#![tactic(auto)]

ghost use Rattle.std.specs.Prelude.{◌≡◌};
ghost use Rattle.xfield.specs.XFieldElements.{ext_of};
ghost use Rattle.table.specs.Layouts.{challenges_in};
ghost use Rattle.client_sum.specs.Client.{entry_denominator, client_all, terminal_answer};

use field::BFieldElement;
use isa::U32TableEntry;
use table::Challenges;
use words::Refusal;
use xfield::XFieldElement;

// The denominator of an entry.
fn denominator_of(e: U32TableEntry, challenges: Challenges) -> XFieldElement
    ensures { ext_of result ≡ entry_denominator (challenges_in challenges) e }
{
    challenges.denominator(
        BFieldElement(e.left_operand),
        BFieldElement(e.right_operand),
        BFieldElement(e.opcode),
        BFieldElement(e.plain_result()),
    )
}

// From (0, 0, 0), each request adds the inverse of its denominator. It refuses words that are no whole requests, or not fifteen challenge words;
// a challenge word p or more; and, request by request, one that is not admitted or whose denominator is zero.
#[tactic(auto, using(table::proofs::Rows::challenges_shaped), unfolding(crate::specs::Client::client_all, crate::specs::Client::client_reason, crate::specs::Client::client_shape))]
pub fn compute_terminal(requests: &[u64], challenges: &[u64]) -> Result<XFieldElement, Refusal>
    ensures { terminal_answer result ≡ client_all requests.now challenges.now }
{
    if requests.len() % U32TableEntry::WIDTH != 0 || !Challenges::has_shape(challenges) {
        return Err(Refusal::Shape);
    }
    if !table::all_reduced(challenges) {
        return Err(Refusal::Unreduced);
    }
    let elements = Challenges::from_words(challenges);
    let mut sum = XFieldElement::ZERO;
    for i in 0..requests.len() / U32TableEntry::WIDTH {
        let entry = U32TableEntry::at(requests, i).admit()?;
        let denominator = denominator_of(entry, elements);
        if denominator.is_zero() {
            return Err(Refusal::Flat);
        }
        sum = sum + denominator.inverse_or_zero();
    }
    Ok(sum)
}
