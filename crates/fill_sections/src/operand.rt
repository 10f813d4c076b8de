// An operand of a row with its inverse, which is carried down the section as the operand is halved.

ghost use Rattle.std.specs.Prelude.{◌≡◌, ◌/◌};
ghost use Rattle.field.specs.Elements.{inv_f};

use field::BFieldElement;

// The inverse is zero for 0.
#[derive(Clone, Copy)]
pub(crate) struct Operand {
    pub(crate) value: u64,
    pub(crate) inverse: BFieldElement,
    ghost is_inverse: { inverse.0 ≡ inv_f value },
}

impl Operand {
    pub(crate) fn new(value: u64) -> Self
        ensures { result.value ≡ value }
    {
        let inverse = BFieldElement(value).inverse_or_zero();
        Operand { value, inverse }
    }

    // Half of it, rounded down.
    pub(crate) fn half(self) -> Self
        ensures { result.value ≡ self.value / 2 }
    {
        let inverse = BFieldElement::inverse_of_half(self.value, self.inverse);
        Operand {
            value: self.value / 2,
            inverse,
        }
    }
}
