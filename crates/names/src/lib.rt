// The names of the forty constraints, those of the source, by group and index.
#![tactic(auto)]

ghost use Rattle.std.specs.Prelude.{◌≡◌, map};
ghost use Rattle.text.specs.Lines.{field_line};
ghost use Rattle.text.specs.Put.{HasRoom, Adds};
ghost use Rattle.names.specs.Names.{names_of, name_of, max_name};

use text::Text;

// The names of a group, in the order of its constraints; no other group has any.
fn names_of(group: u64) -> &'static [&'static str]
    ensures { map (λ name. name.now) result.now ≡ names_of group }
{
    match group {
        0 => &["running_sum_log_derivative_starts_correctly"],
        1 => &[
            "copy_flag_is_bit",
            "copy_flag_is_0_or_bits_is_0",
            "bits_minus_33_inv_is_inverse_of_bits_minus_33",
            "lhs_inv_is_0_or_the_inverse_of_lhs",
            "lhs_is_0_or_lhs_inverse_is_the_inverse_of_lhs",
            "rhs_inv_is_0_or_the_inverse_of_rhs",
            "rhs_is_0_or_rhs_inverse_is_the_inverse_of_rhs",
            "result_is_initialized_correctly_for_lt_with_copy_flag_0",
            "result_is_initialized_correctly_for_lt_with_copy_flag_1",
            "result_is_initialized_correctly_for_and",
            "result_is_initialized_correctly_for_pow",
            "result_is_initialized_correctly_for_log_2_floor",
            "result_is_initialized_correctly_for_pop_count",
            "if_log_2_floor_on_0_then_vm_crashes",
            "if_copy_flag_is_0_then_lookup_multiplicity_is_0",
        ],
        2 => &[
            "if_copy_flag_next_is_1_then_lhs_is_0_or_ci_is_pow",
            "if_copy_flag_next_is_1_then_rhs_is_0",
            "if_copy_flag_next_is_0_then_ci_stays",
            "if_copy_flag_next_is_0_and_lhs_next_is_nonzero_and_ci_not_pow_then_bits_increases_by_1",
            "if_copy_flag_next_is_0_and_rhs_next_is_nonzero_then_bits_increases_by_1",
            "if_copy_flag_next_is_0_and_ci_not_pow_then_lhs_lsb_is_a_bit",
            "if_copy_flag_next_is_0_then_rhs_lsb_is_a_bit",
            "if_copy_flag_next_is_0_and_ci_is_lt_and_result_next_is_0_then_result_is_0",
            "if_copy_flag_next_is_0_and_ci_is_lt_and_result_next_is_1_then_result_is_1",
            "if_copy_flag_next_is_0_and_ci_is_lt_and_result_next_is_2_and_lt_is_0_then_result_is_0",
            "if_copy_flag_next_is_0_and_ci_is_lt_and_result_next_is_2_and_lt_is_1_then_result_is_1",
            "if_copy_flag_next_is_0_and_ci_is_lt_and_result_still_not_known_then_result_is_2",
            "if_copy_flag_next_is_0_and_ci_is_lt_and_copy_flag_dictates_result_then_result_is_0",
            "if_copy_flag_next_is_0_and_ci_is_and_then_results_updates_correctly",
            "if_copy_flag_next_is_0_and_ci_is_log_2_floor_lhs_next_0_for_first_time_then_set_result",
            "if_copy_flag_next_is_0_and_ci_is_log_2_floor_and_lhs_next_not_0_then_copy_result",
            "if_copy_flag_next_is_0_and_ci_is_pow_then_lhs_remains_unchanged",
            "if_copy_flag_next_is_0_and_ci_is_pow_and_rhs_lsb_is_0_then_result_squares",
            "if_copy_flag_next_is_0_and_ci_is_pow_and_rhs_lsb_is_1_then_result_squares_and_mults",
            "if_copy_flag_next_is_0_and_ci_is_pop_count_then_result_increases_by_lhs_lsb",
            "if_copy_flag_next_is_0_then_running_sum_log_derivative_stays",
            "if_copy_flag_next_is_1_then_running_sum_log_derivative_accumulates_next_row",
        ],
        3 => &["lhs_is_0_or_ci_is_pow", "rhs_is_0"],
        _ => &[],
    }
}

// Puts the line of a constraint's name; an empty line where there is none.
// Any number may be given as the group: an enum of the four groups would promise nothing of any other, and no promise is to be smaller.
pub fn put_name(text: &mut Text, group: u64, index: usize)
    requires { HasRoom text.old max_name }
    ensures { Adds text.old (field_line (name_of group index)) text.new }
{
    match names_of(group).get(index) {
        Some(name) => text.put_field(name.as_bytes()),
        None => text.put_field(b""),
    }
}
