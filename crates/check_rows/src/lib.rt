// The constraints of the U32 table on one row: initial, consistency and terminal. What several polynomials share is computed once, and
// a base constraint is computed in base elements. An evaluator answers the constraints' values, in the order of the source's list.
//
// Each constraint by its place and the name that the source and air/specs/Constraints.antt give it, under the function that computes it:
// `starts`, of the initial constraints
//    0 running_sum_log_derivative_starts_correctly
// `FlagConsistency::of`
//    0 copy_flag_is_bit
//    1 copy_flag_is_0_or_bits_is_0
//    2 bits_minus_33_inv_is_inverse_of_bits_minus_33
//   14 if_copy_flag_is_0_then_lookup_multiplicity_is_0
// `InverseConsistency::of`, of LHS
//    3 lhs_inv_is_0_or_the_inverse_of_lhs
//    4 lhs_is_0_or_lhs_inverse_is_the_inverse_of_lhs
// `InverseConsistency::of`, of RHS
//    5 rhs_inv_is_0_or_the_inverse_of_rhs
//    6 rhs_is_0_or_rhs_inverse_is_the_inverse_of_rhs
// `ResultConsistency::of`
//    7 result_is_initialized_correctly_for_lt_with_copy_flag_0
//    8 result_is_initialized_correctly_for_lt_with_copy_flag_1
//    9 result_is_initialized_correctly_for_and
//   10 result_is_initialized_correctly_for_pow
//   11 result_is_initialized_correctly_for_log_2_floor
//   12 result_is_initialized_correctly_for_pop_count
//   13 if_log_2_floor_on_0_then_vm_crashes
// `terminal_constraints`
//    0 lhs_is_0_or_ci_is_pow
//    1 rhs_is_0
#![tactic(auto)]

ghost use Rattle.std.specs.Prelude.{◌≡◌, map};
ghost use Rattle.xfield.specs.Extension.{sub_x, mul_x, scale_x};
ghost use Rattle.xfield.specs.XFieldElements.{ext_of};
ghost use Rattle.air.specs.Constraints.{base_value, running_sum_log_derivative_starts_correctly};
ghost use Rattle.air.specs.Constraints.{initial_constraints, consistency_constraints, terminal_constraints};
ghost use Rattle.table.specs.Challenges.{row_denominator};
ghost use Rattle.table.specs.Layouts.{row_of, sum_of, challenges_in};
ghost use Rattle.check_rows.specs.Deselection.{DeselectorsOf, TimesOf};
ghost use Rattle.check_rows.specs.Parts.{FlagConsistencyOf, InverseConsistencyOf, ResultConsistencyOf};

use field::BFieldElement;
use isa::Opcode;
use table::{AuxRow, Challenges, MainRow};
use xfield::XFieldElement;

// How many constraints each group has.
pub const INITIAL_COUNT: usize = 1;

pub const CONSISTENCY_COUNT: usize = 15;

pub const TERMINAL_COUNT: usize = 2;

// The instruction deselectors of a CI. No constraint asks for split's.
#[derive(Clone, Copy)]
pub struct Deselectors {
    pub lt: BFieldElement,
    pub and: BFieldElement,
    pub log_2_floor: BFieldElement,
    pub pow: BFieldElement,
    pub pop_count: BFieldElement,
}

impl Deselectors {
    // From the products of the first and of the last differences.
    #[tactic(auto, using(crate::proofs::Products::deselector_products))]
    pub fn of(ci: BFieldElement) -> Self
        ensures { DeselectorsOf ci.0 result }
    {
        let split = ci - BFieldElement(Opcode::Split as u64);
        let lt = ci - BFieldElement(Opcode::Lt as u64);
        let and = ci - BFieldElement(Opcode::And as u64);
        let log_2_floor = ci - BFieldElement(Opcode::Log2Floor as u64);
        let pow = ci - BFieldElement(Opcode::Pow as u64);
        let pop_count = ci - BFieldElement(Opcode::PopCount as u64);
        let first2 = split * lt;
        let first3 = first2 * and;
        let first4 = first3 * log_2_floor;
        let last2 = pow * pop_count;
        let last3 = log_2_floor * last2;
        let last4 = and * last3;
        Deselectors {
            lt: split * last4,
            and: first2 * last3,
            log_2_floor: first3 * last2,
            pow: first4 * pop_count,
            pop_count: first4 * pow,
        }
    }

    // A factor times each.
    pub fn times(self, factor: BFieldElement) -> Self
        ensures { TimesOf factor.0 self result }
    {
        Deselectors {
            lt: factor * self.lt,
            and: factor * self.and,
            log_2_floor: factor * self.log_2_floor,
            pow: factor * self.pow,
            pop_count: factor * self.pop_count,
        }
    }
}

// ---- a base element as an extension element
// (v, 0, 0), with v as it is.
pub fn base_value(v: BFieldElement) -> XFieldElement
    ensures { ext_of result ≡ base_value v.0 }
{
    let zero = BFieldElement::ZERO;
    XFieldElement(v, zero, zero)
}

// ---- the running sum
// CopyFlag of a row times what a step of the running sum, times the row's denominator, is above its multiplicity.
#[tactic(auto, unfolding(table::specs::Layouts::row_of))]
pub fn accumulated(challenges: Challenges, row: MainRow, step: XFieldElement) -> XFieldElement
    ensures { ext_of result ≡ scale_x row.copy_flag.0 (sub_x (mul_x (ext_of step) (row_denominator (challenges_in challenges) (row_of row))) (base_value row.lookup_multiplicity.0)) }
{
    let denominator = challenges.row_denominator(row);
    (step * denominator - base_value(row.lookup_multiplicity)) * row.copy_flag
}

// ---- initial
// The running sum starts at 0 in a row with CopyFlag 0, and at multiplicity / denominator in one with CopyFlag 1.
#[tactic(auto, unfolding(table::specs::Layouts::row_of, air::specs::Constraints::running_sum_log_derivative_starts_correctly))]
fn starts(challenges: Challenges, row: MainRow, sum: XFieldElement) -> XFieldElement
    ensures { ext_of result ≡ running_sum_log_derivative_starts_correctly (challenges_in challenges) (row_of row) (ext_of sum) }
{
    (sum - XFieldElement::ZERO) * (row.copy_flag - BFieldElement::ONE)
        + accumulated(challenges, row, sum)
}

#[tactic(auto, unfolding(air::specs::Constraints::initial_constraints))]
pub fn initial_constraints(
    challenges: Challenges,
    row: MainRow,
    aux: AuxRow,
) -> [XFieldElement; INITIAL_COUNT]
    ensures { map ext_of result ≡ initial_constraints (challenges_in challenges) (row_of row) (sum_of aux) }
{
    [starts(challenges, row, aux.lookup_server_log_derivative)]
}

// ---- consistency
// Constraints 0, 1, 2 and 14.
#[derive(Clone, Copy)]
struct FlagConsistency {
    copy_flag_minus_1: BFieldElement,
    copy_flag_is_bit: BFieldElement,
    copy_flag_is_0_or_bits_is_0: BFieldElement,
    bits_minus_33_inv_is_inverse_of_bits_minus_33: BFieldElement,
    if_copy_flag_is_0_then_lookup_multiplicity_is_0: BFieldElement,
}

impl FlagConsistency {
    fn of(row: MainRow) -> Self
        ensures { FlagConsistencyOf (row_of row) result }
    {
        let copy_flag_minus_1 = row.copy_flag - BFieldElement::ONE;
        FlagConsistency {
            copy_flag_minus_1,
            copy_flag_is_bit: row.copy_flag * (BFieldElement::ONE - row.copy_flag),
            copy_flag_is_0_or_bits_is_0: row.copy_flag * row.bits,
            bits_minus_33_inv_is_inverse_of_bits_minus_33: BFieldElement::ONE
                - row.bits_minus_33_inv * (row.bits - BFieldElement(33)),
            if_copy_flag_is_0_then_lookup_multiplicity_is_0: copy_flag_minus_1
                * row.lookup_multiplicity,
        }
    }
}

// Constraints 3 and 4 of LHS, 5 and 6 of RHS.
#[derive(Clone, Copy)]
struct InverseConsistency {
    one_minus_product: BFieldElement,
    inv_is_0_or_the_inverse: BFieldElement,
    value_is_0_or_inverse_is_the_inverse: BFieldElement,
}

impl InverseConsistency {
    #[tactic(auto, unfolding(air::specs::Constraints::one_minus_product_of))]
    fn of(value: BFieldElement, inverse: BFieldElement) -> Self
        ensures { InverseConsistencyOf value.0 inverse.0 result }
    {
        let one_minus_product = BFieldElement::ONE - value * inverse;
        InverseConsistency {
            one_minus_product,
            inv_is_0_or_the_inverse: inverse * one_minus_product,
            value_is_0_or_inverse_is_the_inverse: value * one_minus_product,
        }
    }
}

// Constraints 7 to 13: the Results of end rows.
#[derive(Clone, Copy)]
struct ResultConsistency {
    for_lt_with_copy_flag_0: BFieldElement,
    for_lt_with_copy_flag_1: BFieldElement,
    for_and: BFieldElement,
    for_pow: BFieldElement,
    for_log_2_floor: BFieldElement,
    for_pop_count: BFieldElement,
    if_log_2_floor_on_0_then_vm_crashes: BFieldElement,
}

impl ResultConsistency {
    #[tactic(auto, using(crate::proofs::Products::shared_products), unfolding(table::specs::Layouts::row_of))]
    fn of(
        row: MainRow,
        flag: FlagConsistency,
        lhs: InverseConsistency,
        rhs: InverseConsistency,
    ) -> Self
        ensures { ResultConsistencyOf (row_of row) flag.copy_flag_minus_1.0 lhs.one_minus_product.0 rhs.one_minus_product.0 result }
    {
        let deselectors = Deselectors::of(row.ci);
        let both = lhs.one_minus_product * rhs.one_minus_product;
        let lt = deselectors.lt * both;
        let log_2_floor = deselectors.log_2_floor * lhs.one_minus_product;
        ResultConsistency {
            for_lt_with_copy_flag_0: lt * flag.copy_flag_minus_1 * (row.result - BFieldElement(2)),
            for_lt_with_copy_flag_1: lt * row.copy_flag * row.result,
            for_and: deselectors.and * both * row.result,
            for_pow: deselectors.pow * rhs.one_minus_product * (row.result - BFieldElement::ONE),
            for_log_2_floor: log_2_floor
                * flag.copy_flag_minus_1
                * (row.result + BFieldElement::ONE),
            for_pop_count: deselectors.pop_count * lhs.one_minus_product * row.result,
            if_log_2_floor_on_0_then_vm_crashes: log_2_floor * row.copy_flag,
        }
    }
}

pub fn consistency_constraints(row: MainRow) -> [XFieldElement; CONSISTENCY_COUNT]
    ensures { map ext_of result ≡ consistency_constraints (row_of row) }
{
    let flag = FlagConsistency::of(row);
    let lhs = InverseConsistency::of(row.lhs, row.lhs_inv);
    let rhs = InverseConsistency::of(row.rhs, row.rhs_inv);
    let result = ResultConsistency::of(row, flag, lhs, rhs);
    [
        flag.copy_flag_is_bit,
        flag.copy_flag_is_0_or_bits_is_0,
        flag.bits_minus_33_inv_is_inverse_of_bits_minus_33,
        lhs.inv_is_0_or_the_inverse,
        lhs.value_is_0_or_inverse_is_the_inverse,
        rhs.inv_is_0_or_the_inverse,
        rhs.value_is_0_or_inverse_is_the_inverse,
        result.for_lt_with_copy_flag_0,
        result.for_lt_with_copy_flag_1,
        result.for_and,
        result.for_pow,
        result.for_log_2_floor,
        result.for_pop_count,
        result.if_log_2_floor_on_0_then_vm_crashes,
        flag.if_copy_flag_is_0_then_lookup_multiplicity_is_0,
    ]
    .map(base_value)
}

// ---- terminal
pub fn terminal_constraints(row: MainRow) -> [XFieldElement; TERMINAL_COUNT]
    ensures { map ext_of result ≡ terminal_constraints (row_of row) }
{
    let lhs_is_0_or_ci_is_pow = row.lhs * (row.ci - BFieldElement(Opcode::Pow as u64));
    [lhs_is_0_or_ci_is_pow, row.rhs].map(base_value)
}
