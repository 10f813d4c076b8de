// The laws of the archive, as calls one after the other: what was archived comes back, an accepted archive is archived again to its own bytes, and
// the check answers alike on a table and on the rows that came back. Where a call refuses, the next is not made.
#![tactic(auto)]

ghost use Rattle.archive.specs.Archives.{table_and_aux};
ghost use Rattle.archive_trips.specs.ArchiveTrips.{IsArchivedThenRestored, IsRestoredThenArchived, IsCheckedRestored};

use check_table::Verdict;
use table::{AuxRow, MainRow};
use words::Refusal;

// Archives a table and its sums, then restores what was archived onto another.
pub fn archive_then_restore(
    table: &[u64],
    aux: &[u64],
    out: &mut [u8],
    to_table: &mut [u64],
    to_aux: &mut [u64],
) -> Result<(), Refusal>
    ensures { IsArchivedThenRestored table.now aux.now out.old to_table.old to_aux.old result out.new (table_and_aux to_table.new to_aux.new) }
{
    archive::archive(table, aux, out)?;
    let rows = table.len() / MainRow::WIDTH;
    let end = archive::archive_length(rows);
    archive::restore(&out[..end], to_table, to_aux)
}

// Restores bytes onto a table and its sums, then archives the rows that came back.
pub fn restore_then_archive(
    bytes: &[u8],
    table: &mut [u64],
    aux: &mut [u64],
    out: &mut [u8],
) -> Result<(), Refusal>
    ensures { IsRestoredThenArchived bytes.now table.old aux.old out.old result (table_and_aux table.new aux.new) out.new }
{
    archive::restore(bytes, table, aux)?;
    let rows = archive::archived_rows(bytes);
    let main_words = MainRow::WIDTH * rows;
    let aux_words = AuxRow::WIDTH * rows;
    archive::archive(&table[..main_words], &aux[..aux_words], out)
}

// Archives a table and its sums, restores them onto another, and checks the rows that came back.
pub fn check_restored(
    table: &[u64],
    aux: &[u64],
    challenges: &[u64],
    out: &mut [u8],
    to_table: &mut [u64],
    to_aux: &mut [u64],
) -> Verdict
    ensures { IsCheckedRestored table.now aux.now challenges.now out.old to_table.old to_aux.old result out.new (table_and_aux to_table.new to_aux.new) }
{
    archive_then_restore(table, aux, out, to_table, to_aux)?;
    let main_words = table.len();
    let aux_words = aux.len();
    check_table::check(&to_table[..main_words], &to_aux[..aux_words], challenges)
}
