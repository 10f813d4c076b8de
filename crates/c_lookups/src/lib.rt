// The calls on the lookup tables as the C functions make them: the number of the refusal is returned, and further answers go into `answers`. The
// tables are structs, which u32_table makes out of C's flat parameters; that refusals are numbers and answers words of a lent array is the C interface.
#![tactic(auto)]

ghost use Rattle.std.specs.Prelude.{◌≡◌};
ghost use Rattle.lookup.specs.Cascades.{look_up_all};
ghost use Rattle.lookup.specs.Lent.{cascade_in, lookups_in, SameArrays};
ghost use Rattle.lookup_sums.specs.LookupSums.{byte_sum_all, cascade_sum_all};
ghost use Rattle.c_answers.specs.Exports.{lent_due, Exported};
ghost use Rattle.c_lookups.specs.LookupAnswers.{looked_up_due, byte_output_due, cascade_output_due};

use lookup::{LentCascade, LentLookupsMut};

// Answers: the places used afterwards.
#[tactic(auto, unfolding(c_answers::specs::Exports::lent_due))]
pub fn look_up(tables: &mut LentLookupsMut, limb: u16, answers: &mut [u64]) -> u64
    ensures answers { Exported 1 (looked_up_due (look_up_all (lookups_in tables.old) limb)) answers.old result answers.new }
    ensures sizes { tables.new.sizes ≡ lent_due 1 answers.old tables.old.sizes (look_up_all (lookups_in tables.old) limb).left.values.sizes }
    ensures keys { tables.new.keys.now ≡ lent_due 1 answers.old tables.old.keys.now (look_up_all (lookups_in tables.old) limb).left.values.keys }
    ensures multiplicities { tables.new.multiplicities.now ≡ lent_due 1 answers.old tables.old.multiplicities.now (look_up_all (lookups_in tables.old) limb).left.values.multiplicities }
    ensures bytes { tables.new.byte_multiplicities.now ≡ lent_due 1 answers.old tables.old.byte_multiplicities.now (look_up_all (lookups_in tables.old) limb).left.byte_multiplicities }
    ensures same_arrays { SameArrays tables.old tables.new }
{
    c_answers::answered(
        answers,
        &mut || {
            tables.increase_lookup_multiplicities_for_limb(limb)?;
            Ok([tables.sizes.used as u64])
        },
    )
}

// Answers: the output of the byte.
pub fn byte_lookup(byte: u8, answers: &mut [u64]) -> u64
    ensures { Exported 1 (byte_output_due byte) answers.old result answers.new }
{
    c_answers::answered(answers, &mut || Ok([u64::from(lookup::byte_lookup(byte))]))
}

// Answers: the output of the 16-bit value.
pub fn cascade_lookup(value: u16, answers: &mut [u64]) -> u64
    ensures { Exported 1 (cascade_output_due value) answers.old result answers.new }
{
    c_answers::answered(
        answers,
        &mut || Ok([u64::from(lookup::cascade_lookup(value))]),
    )
}

// Answers: the three words of the last sum.
#[tactic(auto, unfolding(c_answers::specs::Exports::lent_due))]
pub fn byte_sum(
    byte_multiplicities: &[u64],
    challenges: &[u64],
    aux: &mut [u64],
    answers: &mut [u64],
) -> u64
    ensures answers { Exported 3 (byte_sum_all byte_multiplicities.now challenges.now aux.old).answer answers.old result answers.new }
    ensures aux { aux.new ≡ lent_due 3 answers.old aux.old (byte_sum_all byte_multiplicities.now challenges.now aux.old).left }
{
    c_answers::answered(
        answers,
        &mut || Ok(lookup_sums::byte_sum(byte_multiplicities, challenges, aux)?.words()),
    )
}

// Answers: the three words of the last sum.
#[tactic(auto, unfolding(c_answers::specs::Exports::lent_due))]
pub fn cascade_sum(
    cascade: &LentCascade,
    challenges: &[u64],
    aux: &mut [u64],
    answers: &mut [u64],
) -> u64
    ensures answers { Exported 3 (cascade_sum_all (cascade_in cascade.now) challenges.now aux.old).answer answers.old result answers.new }
    ensures aux { aux.new ≡ lent_due 3 answers.old aux.old (cascade_sum_all (cascade_in cascade.now) challenges.now aux.old).left }
{
    c_answers::answered(
        answers,
        &mut || Ok(lookup_sums::cascade_sum(cascade, challenges, aux)?.words()),
    )
}
