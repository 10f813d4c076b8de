// The calls of document 01 and of the requests as C functions on numbers and slices: include/u32_table.h describes them. Each returns the number of the documents, 0 for
// done.
// Further answers go into `answers`, a lent array of words: with fewer words than the call states it is refused with 1 before anything else is
// looked at; on every other refusal it is untouched, but for u32_table_replay, which says on a refusal too how many steps were done. Its words past
// those stated are always untouched. That parameters are flat, refusals numbers and answers words of a lent array is the C interface: here the
// parameters become the structs that the calls take.
// `LentListMut` and `OtherCounts` are made by their fields: a `new` takes the same parts, and has to promise of each array, in a clause of its own, that it
// is the one lent, which the fields say by themselves; tried so, the clause `list` of four functions needs an answer each, where the check finds it now.
#![tactic(auto)]

ghost use Rattle.std.specs.Prelude.{◌≡◌};
ghost use Rattle.isa.specs.Entries.{entry};
ghost use Rattle.batches.specs.Batches.{batch_all};
ghost use Rattle.list_shared.specs.Lent.{counts};
ghost use Rattle.c_answers.specs.Exports.{lent_list, lent_due, Exported};
ghost use Rattle.c_lists.specs.ListAnswers.{compare_all};
ghost use Rattle.c_lists.specs.ListAnswers.{RecordAnswers, RecordLeaves, HoldAnswers, HoldLeaves, ConfirmLeaves, DropLeaves};
ghost use Rattle.c_lists.specs.ListAnswers.{ReplayAnswers, ReplayLeaves, PlanAnswers, ReadAnswers, ReadLeaves, WriteAnswers, WriteLeaves};
ghost use Rattle.fill.specs.Padding.{pad_all};
ghost use Rattle.c_tables.specs.TableAnswers.{FillAnswers, FillLeaves, ExtendAnswers, ExtendLeaves};
ghost use Rattle.c_tables.specs.TableAnswers.{CheckAnswers, SaysZeroIff, SaysZeroSound, SaysZeroSums};
ghost use Rattle.c_tables.specs.TableAnswers.{ClientAnswers};
ghost use Rattle.lookup.specs.Cascades.{look_up_all};
ghost use Rattle.lookup_sums.specs.LookupSums.{byte_sum_all, cascade_sum_all};
ghost use Rattle.archive.specs.Archives.{archive_all, restore_all};
ghost use Rattle.c_lookups.specs.LookupAnswers.{lent_cascade, lent_lookups, looked_up_due, byte_output_due, cascade_output_due};

use isa::U32TableEntry;
use list::{LentList, LentListMut, Sizes};
use list_shared::OtherCounts;
use lookup::{LentCascade, LentLookupsMut};

// The number of these signatures. It is raised whenever one of them changes, and not where a function is added: here, in the name below, in include/u32_table.h and in the Rust
// crate. Both name the symbol, so a program does not link with a library of other signatures.
const ABI: u64 = 3;

#[unsafe(no_mangle)]
pub extern "C" fn u32_table_abi_3() -> u64
    ensures { result ≡ 3 }
{
    ABI
}

// Answers: the key's position, and the places used afterwards.
#[unsafe(no_mangle)]
pub extern "C" fn u32_table_record(
    capacity: usize,
    used: usize,
    keys: &mut [u64],
    multiplicities: &mut [u64],
    holds: &mut [u64],
    other_multiplicities: &mut [u64],
    other_holds: &mut [u64],
    opcode: u64,
    left_operand: u64,
    right_operand: u64,
    answers: &mut [u64],
) -> u64
    ensures answers { RecordAnswers (lent_list capacity used keys.old multiplicities.old holds.old) (counts other_multiplicities.old other_holds.old) (entry opcode left_operand right_operand) answers.old result answers.new }
    ensures list { RecordLeaves (lent_list capacity used keys.old multiplicities.old holds.old) (counts other_multiplicities.old other_holds.old) (entry opcode left_operand right_operand) answers.old keys.new multiplicities.new holds.new (counts other_multiplicities.new other_holds.new) }
{
    let mut list = LentListMut {
        sizes: Sizes { capacity, used },
        keys,
        multiplicities,
        holds,
    };
    let mut other = OtherCounts {
        multiplicities: other_multiplicities,
        holds: other_holds,
    };
    let entry = U32TableEntry::new(opcode, left_operand, right_operand);
    c_lists::record_entry(&mut list, &mut other, entry, answers)
}

// Answers: the key's position, and the places used afterwards.
#[unsafe(no_mangle)]
pub extern "C" fn u32_table_hold(
    capacity: usize,
    used: usize,
    keys: &mut [u64],
    multiplicities: &mut [u64],
    holds: &mut [u64],
    other_multiplicities: &mut [u64],
    other_holds: &mut [u64],
    opcode: u64,
    left_operand: u64,
    right_operand: u64,
    answers: &mut [u64],
) -> u64
    ensures answers { HoldAnswers (lent_list capacity used keys.old multiplicities.old holds.old) (counts other_multiplicities.old other_holds.old) (entry opcode left_operand right_operand) answers.old result answers.new }
    ensures list { HoldLeaves (lent_list capacity used keys.old multiplicities.old holds.old) (counts other_multiplicities.old other_holds.old) (entry opcode left_operand right_operand) answers.old keys.new multiplicities.new holds.new (counts other_multiplicities.new other_holds.new) }
{
    let mut list = LentListMut {
        sizes: Sizes { capacity, used },
        keys,
        multiplicities,
        holds,
    };
    let mut other = OtherCounts {
        multiplicities: other_multiplicities,
        holds: other_holds,
    };
    let entry = U32TableEntry::new(opcode, left_operand, right_operand);
    c_lists::hold_entry(&mut list, &mut other, entry, answers)
}

// It has no answers besides the number.
#[unsafe(no_mangle)]
pub extern "C" fn u32_table_confirm(
    capacity: usize,
    used: usize,
    keys: &[u64],
    multiplicities: &mut [u64],
    holds: &mut [u64],
    position: usize,
) -> u64
    ensures { ConfirmLeaves (lent_list capacity used keys.now multiplicities.old holds.old) position result multiplicities.new holds.new }
{
    let sizes = Sizes { capacity, used };
    c_lists::confirm(sizes, keys, multiplicities, holds, position)
}

// It has no answers besides the number.
#[unsafe(no_mangle)]
pub extern "C" fn u32_table_drop(
    capacity: usize,
    used: usize,
    keys: &[u64],
    multiplicities: &[u64],
    holds: &mut [u64],
    position: usize,
) -> u64
    ensures { DropLeaves (lent_list capacity used keys.now multiplicities.now holds.old) position result holds.new }
{
    let sizes = Sizes { capacity, used };
    c_lists::drop_hold(sizes, keys, multiplicities, holds, position)
}

// Answers, on a refusal too: the steps done, and the places used afterwards.
#[unsafe(no_mangle)]
pub extern "C" fn u32_table_replay(
    capacity: usize,
    used: usize,
    keys: &mut [u64],
    multiplicities: &mut [u64],
    holds: &mut [u64],
    other_multiplicities: &mut [u64],
    other_holds: &mut [u64],
    trace: &[u64],
    answers: &mut [u64],
) -> u64
    ensures answers { ReplayAnswers (lent_list capacity used keys.old multiplicities.old holds.old) (counts other_multiplicities.old other_holds.old) trace.now answers.old result answers.new }
    ensures list { ReplayLeaves (lent_list capacity used keys.old multiplicities.old holds.old) (counts other_multiplicities.old other_holds.old) trace.now answers.old keys.new multiplicities.new holds.new (counts other_multiplicities.new other_holds.new) }
{
    let mut list = LentListMut {
        sizes: Sizes { capacity, used },
        keys,
        multiplicities,
        holds,
    };
    let mut other = OtherCounts {
        multiplicities: other_multiplicities,
        holds: other_holds,
    };
    c_lists::replay(&mut list, &mut other, trace, answers)
}

// Answers: 0 where the first entry is less, 1 where the two are equal, 2 where it is greater.
#[unsafe(no_mangle)]
pub extern "C" fn u32_table_compare(
    opcode: u64,
    left_operand: u64,
    right_operand: u64,
    other_opcode: u64,
    other_left_operand: u64,
    other_right_operand: u64,
    answers: &mut [u64],
) -> u64
    ensures { Exported 1 (compare_all (entry opcode left_operand right_operand) (entry other_opcode other_left_operand other_right_operand)) answers.old result answers.new }
{
    let entry = U32TableEntry::new(opcode, left_operand, right_operand);
    let other = U32TableEntry::new(other_opcode, other_left_operand, other_right_operand);
    c_lists::compare(entry, other, answers)
}

// Answers: the height and the padded height.
#[unsafe(no_mangle)]
pub extern "C" fn u32_table_plan(
    capacity: usize,
    used: usize,
    keys: &[u64],
    multiplicities: &[u64],
    holds: &[u64],
    answers: &mut [u64],
) -> u64
    ensures { PlanAnswers (lent_list capacity used keys.now multiplicities.now holds.now) answers.old result answers.new }
{
    let list = LentList::new(Sizes { capacity, used }, keys, multiplicities, holds);
    c_lists::plan(&list, answers)
}

// Answers: the number of entries, which is the number of places used afterwards.
#[unsafe(no_mangle)]
pub extern "C" fn u32_table_read(
    bytes: &[u8],
    capacity: usize,
    used: usize,
    keys: &mut [u64],
    multiplicities: &mut [u64],
    holds: &mut [u64],
    other_multiplicities: &mut [u64],
    other_holds: &mut [u64],
    answers: &mut [u64],
) -> u64
    ensures answers { ReadAnswers (lent_list capacity used keys.old multiplicities.old holds.old) (counts other_multiplicities.old other_holds.old) bytes.now answers.old result answers.new }
    ensures list { ReadLeaves (lent_list capacity used keys.old multiplicities.old holds.old) (counts other_multiplicities.old other_holds.old) bytes.now answers.old keys.new multiplicities.new holds.new (counts other_multiplicities.new other_holds.new) }
{
    let mut list = LentListMut {
        sizes: Sizes { capacity, used },
        keys,
        multiplicities,
        holds,
    };
    let mut other = OtherCounts {
        multiplicities: other_multiplicities,
        holds: other_holds,
    };
    c_lists::read(bytes, &mut list, &mut other, answers)
}

// Answers: the number of bytes written.
#[unsafe(no_mangle)]
pub extern "C" fn u32_table_write(
    capacity: usize,
    used: usize,
    keys: &[u64],
    multiplicities: &[u64],
    holds: &[u64],
    out: &mut [u8],
    answers: &mut [u64],
) -> u64
    ensures answers { WriteAnswers (lent_list capacity used keys.now multiplicities.now holds.now) out.old answers.old result answers.new }
    ensures bytes { WriteLeaves (lent_list capacity used keys.now multiplicities.now holds.now) out.old answers.old out.new }
{
    let list = LentList::new(Sizes { capacity, used }, keys, multiplicities, holds);
    c_lists::write(&list, out, answers)
}

// Answers: the height.
#[unsafe(no_mangle)]
pub extern "C" fn u32_table_fill(
    capacity: usize,
    used: usize,
    keys: &[u64],
    multiplicities: &[u64],
    holds: &[u64],
    table: &mut [u64],
    answers: &mut [u64],
) -> u64
    ensures answers { FillAnswers (lent_list capacity used keys.now multiplicities.now holds.now) table.old answers.old result answers.new }
    ensures table { FillLeaves (lent_list capacity used keys.now multiplicities.now holds.now) table.old answers.old table.new }
{
    let list = LentList::new(Sizes { capacity, used }, keys, multiplicities, holds);
    c_tables::fill(&list, table, answers)
}

// It has no answers besides the number.
#[unsafe(no_mangle)]
pub extern "C" fn u32_table_pad(table: &mut [u64], filled: usize) -> u64
    ensures number { result ≡ (pad_all table.old filled).answer.number }
    ensures table { table.new ≡ (pad_all table.old filled).left }
{
    c_tables::pad(table, filled)
}

// Answers: the three words of the last sum.
#[unsafe(no_mangle)]
pub extern "C" fn u32_table_extend(
    table: &[u64],
    aux: &mut [u64],
    challenges: &[u64],
    answers: &mut [u64],
) -> u64
    ensures answers { ExtendAnswers table.now aux.old challenges.now answers.old result answers.new }
    ensures aux { ExtendLeaves table.now aux.old challenges.now answers.old aux.new }
{
    c_tables::extend(table, aux, challenges, answers)
}

// Answers: 0 where every constraint is zero, and nothing more; else 1, group, row, index and the three words of the value.
#[unsafe(no_mangle)]
pub extern "C" fn u32_table_check(
    table: &[u64],
    aux: &[u64],
    challenges: &[u64],
    answers: &mut [u64],
) -> u64
    ensures answers { CheckAnswers table.now aux.now challenges.now answers.old result answers.new }
    ensures zero_iff { SaysZeroIff table.now aux.now challenges.now answers.old result answers.new }
    ensures sound { SaysZeroSound table.now result answers.new }
    ensures sum { SaysZeroSums table.now aux.now challenges.now result answers.new }
{
    c_tables::check(table, aux, challenges, answers)
}

// Answers: the three words of the client's sum.
#[unsafe(no_mangle)]
pub extern "C" fn u32_table_client_sum(
    requests: &[u64],
    challenges: &[u64],
    answers: &mut [u64],
) -> u64
    ensures { ClientAnswers requests.now challenges.now answers.old result answers.new }
{
    c_tables::client_sum(requests, challenges, answers)
}

// Answers: the number of batches and the padding.
#[unsafe(no_mangle)]
pub extern "C" fn u32_table_batches(
    jobs: &[u64],
    setting: u64,
    results: &mut [u64],
    answers: &mut [u64],
) -> u64
    ensures answers { Exported 2 (batch_all jobs.now setting results.old).answer answers.old result answers.new }
    ensures results { results.new ≡ lent_due 2 answers.old results.old (batch_all jobs.now setting results.old).left }
{
    c_batches::batches(jobs, setting, results, answers)
}

// Answers: the places used afterwards.
#[unsafe(no_mangle)]
pub extern "C" fn u32_table_look_up(
    capacity: usize,
    used: usize,
    keys: &mut [u16],
    multiplicities: &mut [u64],
    byte_multiplicities: &mut [u64],
    limb: u16,
    answers: &mut [u64],
) -> u64
    ensures answers { Exported 1 (looked_up_due (look_up_all (lent_lookups capacity used keys.old multiplicities.old byte_multiplicities.old) limb)) answers.old result answers.new }
    ensures keys { keys.new ≡ lent_due 1 answers.old keys.old (look_up_all (lent_lookups capacity used keys.old multiplicities.old byte_multiplicities.old) limb).left.values.keys }
    ensures multiplicities { multiplicities.new ≡ lent_due 1 answers.old multiplicities.old (look_up_all (lent_lookups capacity used keys.old multiplicities.old byte_multiplicities.old) limb).left.values.multiplicities }
    ensures bytes { byte_multiplicities.new ≡ lent_due 1 answers.old byte_multiplicities.old (look_up_all (lent_lookups capacity used keys.old multiplicities.old byte_multiplicities.old) limb).left.byte_multiplicities }
{
    let mut tables = LentLookupsMut {
        sizes: Sizes { capacity, used },
        keys,
        multiplicities,
        byte_multiplicities,
    };
    c_lookups::look_up(&mut tables, limb, answers)
}

// Answers: the output of the byte.
#[unsafe(no_mangle)]
pub extern "C" fn u32_table_byte_lookup(byte: u8, answers: &mut [u64]) -> u64
    ensures { Exported 1 (byte_output_due byte) answers.old result answers.new }
{
    c_lookups::byte_lookup(byte, answers)
}

// Answers: the output of the 16-bit value.
#[unsafe(no_mangle)]
pub extern "C" fn u32_table_cascade_lookup(value: u16, answers: &mut [u64]) -> u64
    ensures { Exported 1 (cascade_output_due value) answers.old result answers.new }
{
    c_lookups::cascade_lookup(value, answers)
}

// Answers: the three words of the last sum.
#[unsafe(no_mangle)]
pub extern "C" fn u32_table_byte_sum(
    byte_multiplicities: &[u64],
    challenges: &[u64],
    aux: &mut [u64],
    answers: &mut [u64],
) -> u64
    ensures answers { Exported 3 (byte_sum_all byte_multiplicities.now challenges.now aux.old).answer answers.old result answers.new }
    ensures aux { aux.new ≡ lent_due 3 answers.old aux.old (byte_sum_all byte_multiplicities.now challenges.now aux.old).left }
{
    c_lookups::byte_sum(byte_multiplicities, challenges, aux, answers)
}

// Answers: the three words of the last sum.
#[unsafe(no_mangle)]
pub extern "C" fn u32_table_cascade_sum(
    capacity: usize,
    used: usize,
    keys: &[u16],
    multiplicities: &[u64],
    challenges: &[u64],
    aux: &mut [u64],
    answers: &mut [u64],
) -> u64
    ensures answers { Exported 3 (cascade_sum_all (lent_cascade capacity used keys.now multiplicities.now) challenges.now aux.old).answer answers.old result answers.new }
    ensures aux { aux.new ≡ lent_due 3 answers.old aux.old (cascade_sum_all (lent_cascade capacity used keys.now multiplicities.now) challenges.now aux.old).left }
{
    let cascade = LentCascade {
        sizes: Sizes { capacity, used },
        keys,
        multiplicities,
    };
    c_lookups::cascade_sum(&cascade, challenges, aux, answers)
}

// It has no answers besides the number.
#[unsafe(no_mangle)]
pub extern "C" fn u32_table_archive(table: &[u64], aux: &[u64], out: &mut [u8]) -> u64
    ensures number { result ≡ (archive_all table.now aux.now out.old).answer.number }
    ensures bytes { out.new ≡ (archive_all table.now aux.now out.old).left }
{
    c_archive::archive(table, aux, out)
}

// It has no answers besides the number.
#[unsafe(no_mangle)]
pub extern "C" fn u32_table_restore(bytes: &[u8], table: &mut [u64], aux: &mut [u64]) -> u64
    ensures number { result ≡ (restore_all bytes.now table.old aux.old).answer.number }
    ensures table { table.new ≡ (restore_all bytes.now table.old aux.old).left.table }
    ensures aux { aux.new ≡ (restore_all bytes.now table.old aux.old).left.aux }
{
    c_archive::restore(bytes, table, aux)
}
