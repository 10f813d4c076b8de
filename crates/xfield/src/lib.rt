// Extension elements: three base elements (a, b, c) for a + b * X + c * X^2, with X^3 = X - 1. Every function here takes any
// content, and those that compute answer words below p; each contract is one equation, to the operation's definition in
// specs/Extension.antt, but for the inverse, whose contract is its meaning.
#![tactic(auto)]

ghost use Rattle.std.specs.Prelude.{◌≡◌};
ghost use Rattle.std.specs.Cmp.{on_equiv, partial_equiv_from_equiv};
ghost use Rattle.field.specs.Elements.{add_f, sub_f, mul_f};
ghost use Rattle.xfield.specs.Extension.{ext, lift_x, reduce_x, add_x, sub_x, mul_x, scale_x, words_x, InverseOrZeroX};
ghost use Rattle.xfield.specs.Extension.{equal_x, equal_x_equivalence, is_zero_x};
ghost use Rattle.xfield.specs.XFieldElements.{ext_of};

use field::BFieldElement;
use std::ops::{Add, Mul, Sub};

#[derive(Clone, Copy)]
pub struct XFieldElement(pub BFieldElement, pub BFieldElement, pub BFieldElement);

impl XFieldElement {
    // Words of an element.
    pub const WIDTH: usize = 3;

    pub const ZERO: XFieldElement = XFieldElement(
        BFieldElement::ZERO,
        BFieldElement::ZERO,
        BFieldElement::ZERO,
    );

    // The element of three words, each reduced.
    pub fn new(a: u64, b: u64, c: u64) -> Self
        ensures { ext_of result ≡ reduce_x (ext a b c) }
    {
        XFieldElement(
            BFieldElement::new(a),
            BFieldElement::new(b),
            BFieldElement::new(c),
        )
    }

    // The three words as they are.
    pub fn words(self) -> [u64; XFieldElement::WIDTH]
        ensures { result ≡ words_x (ext_of self) }
    {
        [self.0.0, self.1.0, self.2.0]
    }

    // The cofactors of the first row of multiplication by self: self times them is the norm, a base element.
    fn adjugate(self) -> Self
        ensures first { result.0.0 ≡ sub_f (mul_f (add_f self.0.0 self.2.0) (add_f self.0.0 self.2.0))
            (mul_f self.1.0 (sub_f self.1.0 self.2.0)) }
        ensures second { result.1.0 ≡ sub_f (mul_f self.2.0 (sub_f self.1.0 self.2.0))
            (mul_f self.1.0 (add_f self.0.0 self.2.0)) }
        ensures third { result.2.0 ≡ sub_f (mul_f self.1.0 self.1.0) (mul_f self.2.0 (add_f self.0.0 self.2.0)) }
    {
        let s = self.0 + self.2;
        let d = self.1 - self.2;
        XFieldElement(
            s * s - self.1 * d,
            self.2 * d - self.1 * s,
            self.1 * self.1 - self.2 * s,
        )
    }

    // The first word of the product.
    #[tactic(auto, unfolding(crate::specs::Extension::mul_x))]
    fn first_of_product(self, other: Self) -> BFieldElement
        ensures { result.0 ≡ (mul_x (ext_of self) (ext_of other)).a }
    {
        self.0 * other.0 - (self.1 * other.2 + self.2 * other.1)
    }

    // The adjugate divided by the norm: one inverse of a base element.
    pub fn inverse_or_zero(self) -> Self
        ensures { InverseOrZeroX (ext_of self) (ext_of result) }
    {
        let adjugate = self.adjugate();
        let norm = self.first_of_product(adjugate);
        adjugate * norm.inverse_or_zero()
    }

    #[tactic(auto, unfolding(crate::specs::Extension::is_zero_x, crate::specs::Extension::equal_x, field::specs::Elements::is_zero_f))]
    pub fn is_zero(self) -> bool
        ensures { result ≡ is_zero_x (ext_of self) }
    {
        self.0.is_zero() && self.1.is_zero() && self.2.is_zero()
    }
}

// (v, 0, 0) for a base element v.
impl From<BFieldElement> for XFieldElement {
    ghost from_gives = { λ v r. ext_of r ≡ lift_x v.0 };

    fn from(v: BFieldElement) -> XFieldElement {
        let zero = BFieldElement::ZERO;
        XFieldElement(BFieldElement::new(v.0), zero, zero)
    }
}

impl Add for XFieldElement {
    type Output = XFieldElement;

    ghost add_gives = { λ a b r. ext_of r ≡ add_x (ext_of a) (ext_of b) };

    #[tactic(auto, unfolding(crate::specs::Extension::add_x))]
    fn add(self, other: XFieldElement) -> XFieldElement {
        XFieldElement(self.0 + other.0, self.1 + other.1, self.2 + other.2)
    }
}

impl Sub for XFieldElement {
    type Output = XFieldElement;

    ghost sub_gives = { λ a b r. ext_of r ≡ sub_x (ext_of a) (ext_of b) };

    #[tactic(auto, unfolding(crate::specs::Extension::sub_x))]
    fn sub(self, other: XFieldElement) -> XFieldElement {
        XFieldElement(self.0 - other.0, self.1 - other.1, self.2 - other.2)
    }
}

// The coefficients of the polynomials' product, then X^3 = X - 1 and X^4 = X^2 - X.
impl Mul for XFieldElement {
    type Output = XFieldElement;

    ghost mul_gives = { λ a b r. ext_of r ≡ mul_x (ext_of a) (ext_of b) };

    #[tactic(auto, unfolding(crate::specs::Extension::mul_x))]
    fn mul(self, other: XFieldElement) -> XFieldElement {
        let c0 = self.0 * other.0;
        let c1 = self.0 * other.1 + self.1 * other.0;
        let c2 = self.0 * other.2 + self.1 * other.1 + self.2 * other.0;
        let c3 = self.1 * other.2 + self.2 * other.1;
        let c4 = self.2 * other.2;
        XFieldElement(c0 - c3, c1 + c3 - c4, c2 + c4)
    }
}

// The product with a base element.
impl Mul<BFieldElement> for XFieldElement {
    type Output = XFieldElement;

    ghost mul_gives = { λ a k r. ext_of r ≡ scale_x k.0 (ext_of a) };

    #[tactic(auto, unfolding(crate::specs::Extension::scale_x))]
    fn mul(self, k: BFieldElement) -> XFieldElement {
        XFieldElement(k * self.0, k * self.1, k * self.2)
    }
}

// Written out: so `==` is known by one word, `equal_x`, of which `is_zero_x` is made. A derive, which was tried, proves, but promises `equal_f`
// of each field; `equal_x` follows from that only where both are open, and above the fields they are shut.
impl PartialEq for XFieldElement {
    ghost eq = { λ a b. equal_x (ext_of a) (ext_of b) };

    ghost laws = { partial_equiv_from_equiv (on_equiv ext_of equal_x_equivalence) };

    #[tactic(auto, unfolding(crate::specs::Extension::equal_x, field::specs::Elements::equal_f))]
    fn eq(&self, other: &XFieldElement) -> bool {
        self.0 == other.0 && self.1 == other.1 && self.2 == other.2
    }
}

impl Eq for XFieldElement {
    ghost laws = { on_equiv ext_of equal_x_equivalence };
}
