// The transition constraints of the U32 table, evaluated on a row and the row below it. What several polynomials share is computed
// once, and a base constraint is computed in base elements. The values stand in the order of the source's list.
//
// Each constraint by its place and the name that the source and air/specs/Constraints.antt give it, under the function that computes it:
// `GeneralTransition::of`
//    0 if_copy_flag_next_is_1_then_lhs_is_0_or_ci_is_pow
//    1 if_copy_flag_next_is_1_then_rhs_is_0
//    2 if_copy_flag_next_is_0_then_ci_stays
//    3 if_copy_flag_next_is_0_and_lhs_next_is_nonzero_and_ci_not_pow_then_bits_increases_by_1
//    4 if_copy_flag_next_is_0_and_rhs_next_is_nonzero_then_bits_increases_by_1
// `BitTransition::of`
//    5 if_copy_flag_next_is_0_and_ci_not_pow_then_lhs_lsb_is_a_bit
//    6 if_copy_flag_next_is_0_then_rhs_lsb_is_a_bit
// `DecidedLtTransition::of`
//    7 if_copy_flag_next_is_0_and_ci_is_lt_and_result_next_is_0_then_result_is_0
//    8 if_copy_flag_next_is_0_and_ci_is_lt_and_result_next_is_1_then_result_is_1
// `UndecidedLtTransition::of`
//    9 if_copy_flag_next_is_0_and_ci_is_lt_and_result_next_is_2_and_lt_is_0_then_result_is_0
//   10 if_copy_flag_next_is_0_and_ci_is_lt_and_result_next_is_2_and_lt_is_1_then_result_is_1
//   11 if_copy_flag_next_is_0_and_ci_is_lt_and_result_still_not_known_then_result_is_2
//   12 if_copy_flag_next_is_0_and_ci_is_lt_and_copy_flag_dictates_result_then_result_is_0
// `AndLog2FloorTransition::of`
//   13 if_copy_flag_next_is_0_and_ci_is_and_then_results_updates_correctly
//   14 if_copy_flag_next_is_0_and_ci_is_log_2_floor_lhs_next_0_for_first_time_then_set_result
//   15 if_copy_flag_next_is_0_and_ci_is_log_2_floor_and_lhs_next_not_0_then_copy_result
// `PowPopCountTransition::of`
//   16 if_copy_flag_next_is_0_and_ci_is_pow_then_lhs_remains_unchanged
//   17 if_copy_flag_next_is_0_and_ci_is_pow_and_rhs_lsb_is_0_then_result_squares
//   18 if_copy_flag_next_is_0_and_ci_is_pow_and_rhs_lsb_is_1_then_result_squares_and_mults
//   19 if_copy_flag_next_is_0_and_ci_is_pop_count_then_result_increases_by_lhs_lsb
// `RunningSumTransition::of`
//   20 if_copy_flag_next_is_0_then_running_sum_log_derivative_stays
//   21 if_copy_flag_next_is_1_then_running_sum_log_derivative_accumulates_next_row
// The polynomials decide where a name says another thing (docs/DIFFERENCES.md): 9 asks for Result 1 and 10 for Result 0; 3 and 4 ask the upper
// row's LHS and RHS.
#![tactic(auto)]

ghost use Rattle.std.specs.Prelude.{◌≡◌, map};
ghost use Rattle.xfield.specs.XFieldElements.{ext_of};
ghost use Rattle.air.specs.Constraints.{transition_constraints};
ghost use Rattle.table.specs.Challenges.{row_denominator};
ghost use Rattle.table.specs.Layouts.{row_of, sum_of, challenges_in};
ghost use Rattle.check_pairs.specs.Parts.{LeastBitsOf, GeneralTransitionOf, BitTransitionOf, DecidedLtTransitionOf};
ghost use Rattle.check_pairs.specs.Parts.{UndecidedLtTransitionOf, AndLog2FloorTransitionOf, PowPopCountTransitionOf};
ghost use Rattle.check_pairs.specs.Parts.{BaseTransitionOf, RunningSumTransitionOf, transition_values};

use check_rows::Deselectors;
use field::BFieldElement;
use isa::Opcode;
use table::{Challenges, RowPair};
use xfield::XFieldElement;

// How many transition constraints there are.
pub const TRANSITION_COUNT: usize = 22;

// The bits that leave LHS and RHS, their product, and 1 where they are equal, else 0.
#[derive(Clone, Copy)]
struct LeastBits {
    lhs: BFieldElement,
    rhs: BFieldElement,
    product: BFieldElement,
    equal: BFieldElement,
}

impl LeastBits {
    #[tactic(auto, using(crate::proofs::Sums::double, crate::proofs::Sums::double_product), unfolding(air::specs::Constraints::equal_bits))]
    fn of(pair: RowPair) -> Self
        ensures { LeastBitsOf pair.upper.lhs.0 pair.lower.lhs.0 pair.upper.rhs.0 pair.lower.rhs.0 result }
    {
        let lhs_lsb = pair.upper.lhs - (pair.lower.lhs + pair.lower.lhs);
        let rhs_lsb = pair.upper.rhs - (pair.lower.rhs + pair.lower.rhs);
        let product = lhs_lsb * rhs_lsb;
        LeastBits {
            lhs: lhs_lsb,
            rhs: rhs_lsb,
            product,
            equal: BFieldElement::ONE - lhs_lsb - rhs_lsb + (product + product),
        }
    }
}

// Constraints 0 to 4, and what others share with them.
#[derive(Clone, Copy)]
struct GeneralTransition {
    next_minus_1: BFieldElement,
    ci_is_pow: BFieldElement,
    lhs_is_0_or_ci_is_pow: BFieldElement,
    rhs_is_0: BFieldElement,
    ci_stays: BFieldElement,
    bits_increase_for_lhs: BFieldElement,
    bits_increase_for_rhs: BFieldElement,
}

impl GeneralTransition {
    fn of(pair: RowPair) -> Self
        ensures { GeneralTransitionOf (row_of pair.upper) (row_of pair.lower) result }
    {
        let next_minus_1 = pair.lower.copy_flag - BFieldElement::ONE;
        let ci_is_pow = pair.upper.ci - BFieldElement(Opcode::Pow as u64);
        let increase = pair.lower.bits - pair.upper.bits - BFieldElement::ONE;
        GeneralTransition {
            next_minus_1,
            ci_is_pow,
            lhs_is_0_or_ci_is_pow: pair.lower.copy_flag * pair.upper.lhs * ci_is_pow,
            rhs_is_0: pair.lower.copy_flag * pair.upper.rhs,
            ci_stays: next_minus_1 * (pair.lower.ci - pair.upper.ci),
            bits_increase_for_lhs: next_minus_1 * pair.upper.lhs * ci_is_pow * increase,
            bits_increase_for_rhs: next_minus_1 * pair.upper.rhs * increase,
        }
    }
}

// Constraints 5 and 6.
#[derive(Clone, Copy)]
struct BitTransition {
    lhs_lsb_is_a_bit: BFieldElement,
    rhs_lsb_is_a_bit: BFieldElement,
}

impl BitTransition {
    fn of(general: GeneralTransition, bits: LeastBits) -> Self
        ensures { BitTransitionOf general.next_minus_1.0 general.ci_is_pow.0 bits.lhs.0 bits.rhs.0 result }
    {
        let next_minus_1 = general.next_minus_1;
        BitTransition {
            lhs_lsb_is_a_bit: next_minus_1
                * general.ci_is_pow
                * bits.lhs
                * (bits.lhs - BFieldElement::ONE),
            rhs_lsb_is_a_bit: next_minus_1 * bits.rhs * (bits.rhs - BFieldElement::ONE),
        }
    }
}

// Constraints 7 and 8: lt, decided in the lower row.
#[derive(Clone, Copy)]
struct DecidedLtTransition {
    result_is_0: BFieldElement,
    result_is_1: BFieldElement,
}

impl DecidedLtTransition {
    fn of(pair: RowPair, selected: Deselectors) -> Self
        ensures { DecidedLtTransitionOf selected.lt.0 pair.upper.result.0 pair.lower.result.0 result }
    {
        let res = pair.upper.result;
        let result_next = pair.lower.result;
        let next_minus_2 = result_next - BFieldElement(2);
        DecidedLtTransition {
            result_is_0: selected.lt * (result_next - BFieldElement::ONE) * next_minus_2 * res,
            result_is_1: selected.lt * result_next * next_minus_2 * (res - BFieldElement::ONE),
        }
    }
}

// Constraints 9 to 12: lt, not decided in the lower row.
#[derive(Clone, Copy)]
struct UndecidedLtTransition {
    bits_0_and_1: BFieldElement,
    bits_1_and_0: BFieldElement,
    equal_bits_with_copy_flag_0: BFieldElement,
    equal_bits_with_copy_flag_1: BFieldElement,
}

impl UndecidedLtTransition {
    fn of(pair: RowPair, selected: Deselectors, bits: LeastBits) -> Self
        ensures { UndecidedLtTransitionOf selected.lt.0 pair.upper.copy_flag.0 pair.upper.result.0 pair.lower.result.0 bits result }
    {
        let res = pair.upper.result;
        let result_next = pair.lower.result;
        let undecided = selected.lt * result_next * (result_next - BFieldElement::ONE);
        let equal = undecided * bits.equal;
        UndecidedLtTransition {
            bits_0_and_1: undecided
                * (bits.lhs - BFieldElement::ONE)
                * bits.rhs
                * (res - BFieldElement::ONE),
            bits_1_and_0: undecided * bits.lhs * (bits.rhs - BFieldElement::ONE) * res,
            equal_bits_with_copy_flag_0: equal
                * (pair.upper.copy_flag - BFieldElement::ONE)
                * (res - BFieldElement(2)),
            equal_bits_with_copy_flag_1: equal * pair.upper.copy_flag * res,
        }
    }
}

// Constraints 13 to 15: and, log_2_floor.
#[derive(Clone, Copy)]
struct AndLog2FloorTransition {
    and_updates: BFieldElement,
    log_2_floor_is_set: BFieldElement,
    log_2_floor_is_copied: BFieldElement,
}

impl AndLog2FloorTransition {
    #[tactic(auto, using(crate::proofs::Sums::double), unfolding(table::specs::Layouts::row_of, air::specs::Constraints::one_minus_product_of))]
    fn of(pair: RowPair, selected: Deselectors, bits: LeastBits) -> Self
        ensures { AndLog2FloorTransitionOf selected.and.0 selected.log_2_floor.0 bits.product.0 (row_of pair.upper) (row_of pair.lower) result }
    {
        let doubled = pair.lower.result + pair.lower.result;
        let one_minus_product = BFieldElement::ONE - pair.lower.lhs * pair.lower.lhs_inv;
        AndLog2FloorTransition {
            and_updates: selected.and * (pair.upper.result - doubled - bits.product),
            log_2_floor_is_set: selected.log_2_floor
                * one_minus_product
                * pair.upper.lhs
                * (pair.upper.result - pair.upper.bits),
            log_2_floor_is_copied: selected.log_2_floor
                * pair.lower.lhs
                * (pair.lower.result - pair.upper.result),
        }
    }
}

// Constraints 16 to 19: pow, pop_count.
#[derive(Clone, Copy)]
struct PowPopCountTransition {
    pow_lhs_unchanged: BFieldElement,
    pow_squares: BFieldElement,
    pow_squares_and_mults: BFieldElement,
    pop_count_increases: BFieldElement,
}

impl PowPopCountTransition {
    #[tactic(auto, unfolding(table::specs::Layouts::row_of))]
    fn of(pair: RowPair, selected: Deselectors, bits: LeastBits) -> Self
        ensures { PowPopCountTransitionOf selected.pow.0 selected.pop_count.0 bits (row_of pair.upper) (row_of pair.lower) result }
    {
        let pow = selected.pow;
        let square = pair.lower.result * pair.lower.result;
        PowPopCountTransition {
            pow_lhs_unchanged: pow * (pair.lower.lhs - pair.upper.lhs),
            pow_squares: pow * (bits.rhs - BFieldElement::ONE) * (pair.upper.result - square),
            pow_squares_and_mults: pow * bits.rhs * (pair.upper.result - square * pair.upper.lhs),
            pop_count_increases: selected.pop_count
                * (pair.upper.result - pair.lower.result - bits.lhs),
        }
    }
}

// Constraints 0 to 19: those of main columns alone.
#[derive(Clone, Copy)]
struct BaseTransition {
    general: GeneralTransition,
    bit: BitTransition,
    decided_lt: DecidedLtTransition,
    undecided_lt: UndecidedLtTransition,
    and_log_2_floor: AndLog2FloorTransition,
    pow_pop_count: PowPopCountTransition,
}

impl BaseTransition {
    fn of(pair: RowPair) -> Self
        ensures { BaseTransitionOf (row_of pair.upper) (row_of pair.lower) result }
    {
        let general = GeneralTransition::of(pair);
        let bits = LeastBits::of(pair);
        let selected = Deselectors::of(pair.lower.ci).times(general.next_minus_1);
        BaseTransition {
            general,
            bit: BitTransition::of(general, bits),
            decided_lt: DecidedLtTransition::of(pair, selected),
            undecided_lt: UndecidedLtTransition::of(pair, selected, bits),
            and_log_2_floor: AndLog2FloorTransition::of(pair, selected, bits),
            pow_pop_count: PowPopCountTransition::of(pair, selected, bits),
        }
    }
}

// Constraints 20 and 21.
#[derive(Clone, Copy)]
struct RunningSumTransition {
    stays: XFieldElement,
    accumulates: XFieldElement,
}

impl RunningSumTransition {
    fn of(challenges: Challenges, pair: RowPair) -> Self
        ensures { RunningSumTransitionOf pair.lower.copy_flag.0 pair.lower.lookup_multiplicity.0 (sum_of pair.aux) (sum_of pair.aux_next) (row_denominator (challenges_in challenges) (row_of pair.lower)) result }
    {
        let sum = pair.aux.lookup_server_log_derivative;
        let sum_next = pair.aux_next.lookup_server_log_derivative;
        let step = sum_next - sum;
        let stays = step * (pair.lower.copy_flag - BFieldElement::ONE);
        let accumulates = check_rows::accumulated(challenges, pair.lower, step);
        RunningSumTransition { stays, accumulates }
    }
}

// The values in their places. Not by `map` as those of a row are: the last two are no base values.
// A method of one of the two parts would take the other as its parameter.
fn transition_values(
    base: BaseTransition,
    running_sum: RunningSumTransition,
) -> [XFieldElement; TRANSITION_COUNT]
    ensures { map ext_of result ≡ transition_values base (ext_of running_sum.stays) (ext_of running_sum.accumulates) }
{
    [
        check_rows::base_value(base.general.lhs_is_0_or_ci_is_pow),
        check_rows::base_value(base.general.rhs_is_0),
        check_rows::base_value(base.general.ci_stays),
        check_rows::base_value(base.general.bits_increase_for_lhs),
        check_rows::base_value(base.general.bits_increase_for_rhs),
        check_rows::base_value(base.bit.lhs_lsb_is_a_bit),
        check_rows::base_value(base.bit.rhs_lsb_is_a_bit),
        check_rows::base_value(base.decided_lt.result_is_0),
        check_rows::base_value(base.decided_lt.result_is_1),
        check_rows::base_value(base.undecided_lt.bits_0_and_1),
        check_rows::base_value(base.undecided_lt.bits_1_and_0),
        check_rows::base_value(base.undecided_lt.equal_bits_with_copy_flag_0),
        check_rows::base_value(base.undecided_lt.equal_bits_with_copy_flag_1),
        check_rows::base_value(base.and_log_2_floor.and_updates),
        check_rows::base_value(base.and_log_2_floor.log_2_floor_is_set),
        check_rows::base_value(base.and_log_2_floor.log_2_floor_is_copied),
        check_rows::base_value(base.pow_pop_count.pow_lhs_unchanged),
        check_rows::base_value(base.pow_pop_count.pow_squares),
        check_rows::base_value(base.pow_pop_count.pow_squares_and_mults),
        check_rows::base_value(base.pow_pop_count.pop_count_increases),
        running_sum.stays,
        running_sum.accumulates,
    ]
}

pub fn transition_constraints(
    challenges: Challenges,
    pair: RowPair,
) -> [XFieldElement; TRANSITION_COUNT]
    ensures { map ext_of result ≡ transition_constraints (challenges_in challenges) (row_of pair.upper) (row_of pair.lower) (sum_of pair.aux) (sum_of pair.aux_next) }
{
    transition_values(
        BaseTransition::of(pair),
        RunningSumTransition::of(challenges, pair),
    )
}
