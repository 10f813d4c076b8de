// Tests that a row, or a row and the row below it, meets every constraint, by a few comparisons in place of the polynomials. A test that
// says yes is right. One that says no says nothing: there the polynomials decide.
#![tactic(auto)]

ghost use Rattle.std.specs.Prelude.{◌≡◌, true, ◌⊎◌, ◌+◌};
ghost use Rattle.xfield.specs.Extension.{zero_x};
ghost use Rattle.xfield.specs.XFieldElements.{ext_of};
ghost use Rattle.air.specs.Constraints.{consistency_constraints, transition_constraints};
ghost use Rattle.air.specs.Constraints.{if_copy_flag_next_is_1_then_running_sum_log_derivative_accumulates_next_row};
ghost use Rattle.air.specs.Check.{AllZero};
ghost use Rattle.table.specs.Layouts.{row_of, sum_of, challenges_in};
ghost use Rattle.check_plain.specs.Plain.{Flagged, Inverted, LtEqual, Ended, IsEnd, LtCarried, AndCarried, LogCarried, PowCarried};
ghost use Rattle.check_plain.specs.Plain.{PopCountCarried, Carried, Step};

use field::BFieldElement;
use isa::Opcode;
use table::{Challenges, MainRow, RowPair};
use xfield::XFieldElement;

// ---- one row. Free functions, here and below: methods stand in the crate of their struct, and row and pair are `table`'s.
fn is_flagged(row: MainRow) -> bool
    ensures { result ≡ true → Flagged row.copy_flag.0 row.bits.0 row.lookup_multiplicity.0 }
{
    match row.copy_flag.0 {
        0 => row.lookup_multiplicity.0 == 0,
        1 => row.bits.0 == 0,
        _ => false,
    }
}

fn is_inverted(x: BFieldElement, inverse: BFieldElement) -> bool
    ensures { result ≡ true → Inverted x.0 inverse.0 }
{
    if x.0 == 0 {
        inverse.0 == 0
    } else {
        (x * inverse).0 == 1
    }
}

// lt on equal operands.
fn is_lt_equal(row: MainRow) -> bool
    ensures { result ≡ true → LtEqual row.copy_flag.0 row.result.0 }
{
    match row.copy_flag.0 {
        0 => row.result.0 == 2,
        1 => row.result.0 == 0,
        _ => false,
    }
}

fn is_ended(row: MainRow) -> bool
    ensures { result ≡ true → Ended row.ci.0 row.copy_flag.0 row.lhs.0 row.rhs.0 row.result.0 }
{
    let lhs = row.lhs.0;
    let rhs = row.rhs.0;
    let res = row.result.0;
    match Opcode::try_from(row.ci.0) {
        Ok(Opcode::Split) => true,
        Ok(Opcode::Lt) => lhs != 0 || rhs != 0 || is_lt_equal(row),
        Ok(Opcode::And) => lhs != 0 || rhs != 0 || res == 0,
        Ok(Opcode::Log2Floor) => lhs != 0 || row.copy_flag.0 == 0 && res == BFieldElement::P - 1,
        Ok(Opcode::Pow) => rhs != 0 || res == 1,
        Ok(Opcode::PopCount) => lhs != 0 || res == 0,
        Err(_) => false,
    }
}

// Yes: every consistency constraint of the row is zero.
pub fn is_plain_row(row: MainRow) -> bool
    ensures { result ≡ true → AllZero (consistency_constraints (row_of row)) }
{
    (row.bits_minus_33_inv * (row.bits - BFieldElement(33))).0 == 1
        && is_flagged(row)
        && is_inverted(row.lhs, row.lhs_inv)
        && is_inverted(row.rhs, row.rhs_inv)
        && is_ended(row)
}

// ---- two rows
// The row ends its section.
#[tactic(auto, using(fill_results::proofs::Results::end_zero))]
fn is_end(row: MainRow) -> bool
    ensures { result ≡ true → IsEnd row.ci.0 row.lhs.0 row.rhs.0 }
{
    fill_results::is_end(row.ci.0, row.lhs.0, row.rhs.0)
}

// Bits is one more, or the upper row ends its section.
fn is_counted(pair: RowPair) -> bool
    ensures { result ≡ true → (pair.lower.bits.0 ≡ pair.upper.bits.0 + 1) ⊎ IsEnd pair.upper.ci.0 pair.upper.lhs.0 pair.upper.rhs.0 }
{
    0 < pair.lower.bits.0 && pair.lower.bits.0 - 1 == pair.upper.bits.0 || is_end(pair.upper)
}

fn is_lt_carried(pair: RowPair) -> bool
    ensures { result ≡ true → LtCarried pair.upper.copy_flag.0 pair.upper.lhs.0 pair.upper.rhs.0 pair.lower.result.0 pair.upper.result.0 }
{
    let lhs = pair.upper.lhs.0 % 2;
    let rhs = pair.upper.rhs.0 % 2;
    match pair.lower.result.0 {
        0 => pair.upper.result.0 == 0,
        1 => pair.upper.result.0 == 1,
        2 if lhs < rhs => pair.upper.result.0 == 1,
        2 if rhs < lhs => pair.upper.result.0 == 0,
        2 => is_lt_equal(pair.upper),
        _ => false,
    }
}

fn is_log_carried(pair: RowPair) -> bool
    ensures { result ≡ true → LogCarried pair.upper.bits.0 pair.upper.lhs.0 pair.lower.lhs.0 pair.lower.lhs_inv.0 pair.lower.result.0 pair.upper.result.0 }
{
    if pair.upper.lhs.0 == 0 {
        true
    } else if pair.lower.lhs.0 == 0 {
        pair.upper.result.0 == pair.upper.bits.0
    } else {
        (pair.lower.lhs * pair.lower.lhs_inv).0 == 1 && pair.lower.result.0 == pair.upper.result.0
    }
}

fn is_pow_carried(pair: RowPair) -> bool
    ensures { result ≡ true → PowCarried pair.upper.lhs.0 pair.upper.rhs.0 pair.lower.result.0 pair.upper.result.0 }
{
    let square = pair.lower.result * pair.lower.result;
    if pair.upper.rhs.0 % 2 == 0 {
        pair.upper.result.0 == square.0
    } else {
        pair.upper.result.0 == (square * pair.upper.lhs).0
    }
}

fn is_and_carried(pair: RowPair) -> bool
    ensures { result ≡ true → AndCarried pair.upper.lhs.0 pair.upper.rhs.0 pair.lower.result.0 pair.upper.result.0 }
{
    pair.upper.result.0 / 2 == pair.lower.result.0
        && pair.upper.result.0 % 2 == pair.upper.lhs.0 % 2 * (pair.upper.rhs.0 % 2)
}

fn is_pop_count_carried(pair: RowPair) -> bool
    ensures { result ≡ true → PopCountCarried pair.upper.lhs.0 pair.lower.result.0 pair.upper.result.0 }
{
    pair.upper.result.0 == (pair.lower.result + BFieldElement(pair.upper.lhs.0 % 2)).0
}

#[tactic(auto, unfolding(table::specs::Layouts::row_of))]
fn is_carried(pair: RowPair) -> bool
    ensures { result ≡ true → Carried (row_of pair.upper) (row_of pair.lower) }
{
    let is_halved = pair.lower.lhs.0 == pair.upper.lhs.0 / 2;
    match Opcode::try_from(pair.upper.ci.0) {
        Ok(Opcode::Split) => is_halved,
        Ok(Opcode::Lt) => is_halved && is_lt_carried(pair),
        Ok(Opcode::And) => is_halved && is_and_carried(pair),
        Ok(Opcode::Log2Floor) => is_halved && is_log_carried(pair),
        Ok(Opcode::Pow) => pair.lower.lhs.0 == pair.upper.lhs.0 && is_pow_carried(pair),
        Ok(Opcode::PopCount) => is_halved && is_pop_count_carried(pair),
        Err(_) => false,
    }
}

#[tactic(auto, unfolding(table::specs::Layouts::row_of))]
fn is_step(pair: RowPair) -> bool
    ensures { result ≡ true → Step (row_of pair.upper) (row_of pair.lower) }
{
    pair.lower.copy_flag.0 == 0
        && pair.lower.ci.0 == pair.upper.ci.0
        && is_counted(pair)
        && pair.lower.rhs.0 == pair.upper.rhs.0 / 2
        && is_carried(pair)
}

// Word by word, since `==` is equality modulo p: another relation, which would reduce six words.
fn same_words(a: XFieldElement, b: XFieldElement) -> bool
    ensures { result ≡ true → ext_of a ≡ ext_of b }
{
    a.words() == b.words()
}

#[tactic(auto, using(crate::proofs::Sums::scaled_zero), unfolding(table::specs::Layouts::row_of, air::specs::Constraints::if_copy_flag_next_is_1_then_running_sum_log_derivative_accumulates_next_row))]
fn accumulates(challenges: Challenges, pair: RowPair) -> bool
    ensures { result ≡ true → if_copy_flag_next_is_1_then_running_sum_log_derivative_accumulates_next_row (challenges_in challenges) (row_of pair.lower) (sum_of pair.aux) (sum_of pair.aux_next) ≡ zero_x }
{
    let sum = pair.aux.lookup_server_log_derivative;
    let sum_next = pair.aux_next.lookup_server_log_derivative;
    check_rows::accumulated(challenges, pair.lower, sum_next - sum).is_zero()
}

// Yes: every transition constraint of the two rows is zero.
pub fn is_plain_pair(challenges: Challenges, pair: RowPair) -> bool
    ensures { result ≡ true → AllZero (transition_constraints (challenges_in challenges) (row_of pair.upper) (row_of pair.lower) (sum_of pair.aux) (sum_of pair.aux_next)) }
{
    let sum = pair.aux.lookup_server_log_derivative;
    let sum_next = pair.aux_next.lookup_server_log_derivative;
    if pair.lower.copy_flag.0 == 1 {
        is_end(pair.upper) && accumulates(challenges, pair)
    } else {
        is_step(pair) && same_words(sum, sum_next)
    }
}
