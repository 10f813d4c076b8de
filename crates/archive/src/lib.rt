// Columns side by side: a table and its sums as bytes, column by column, and back. What is wrong is refused with its reason, and then nothing lent
// changes. Both ways the destination is written in order, and the source read where the next word stands.
#![tactic(auto)]

ghost use Rattle.std.specs.Prelude.{◌≡◌, ◌&&◌, ◌+◌, ◌*◌, ◌≤◌, ◌<◌, length, MatchResult};
ghost use mathlib.Core.List.{map, flat_map};
ghost use Rattle.std.proofs.lemmas.List.Edits.{sets};
ghost use Rattle.words.specs.Limits.{max_rows};
ghost use Rattle.words.specs.LittleEndian.{le};
ghost use Rattle.words.specs.Outcomes.{Leaves, completed_answer};
ghost use Rattle.words.specs.Refusals.{Fine, Declined};
ghost use Rattle.words.specs.Places.{places};
ghost use Rattle.table.specs.Columns.{table_shape, aux_shape, all_reduced};
ghost use Rattle.archive.specs.Archives.{word_width, archive_length, column, columns, archived_word, archived_rows, archived_words, rows_from};
ghost use Rattle.archive.specs.Archives.{torn, restore_reason, archive_all, restore_all, table_and_aux};

use field::BFieldElement;
use table::{AuxRow, MainRow};
use words::{MAX_ROWS, Refusal};

// The bytes of a word.
const WORD_WIDTH: usize = 8;

// The number of bytes of an archive of so many rows.
pub fn archive_length(rows: usize) -> usize
    requires { rows ≤ max_rows }
    ensures { result ≡ archive_length rows }
{
    WORD_WIDTH * (1 + (MainRow::WIDTH + AuxRow::WIDTH) * rows)
}

// Whole rows and not too many, three aux words a row.
fn have_shapes(table: &[u64], aux: &[u64]) -> bool
    ensures { result ≡ (table_shape table.now && aux_shape table.now aux.now) }
{
    MainRow::has_shape(table) && AuxRow::has_shape(table, aux)
}

// Rows of so many words each, in order: a table, or its sums.
#[derive(Clone, Copy)]
struct Cells<'a> {
    words: &'a [u64],
    width: usize,
    rows: usize,
    ghost whole: { (rows ≤ max_rows) × (width * rows ≤ length words.now) },
}

impl Cells<'_> {
    // Stores column c, top to bottom, at the front of `out`.
    #[tactic(auto, using(crate::proofs::Blocks::in_blocks))]
    fn put_column(&self, c: usize, out: &mut [u8])
        requires { (c < self.now.width) × (word_width * self.now.rows ≤ length out.old) }
        ensures { out.new ≡ sets out.old 0 (flat_map (le word_width) (column self.now.width self.now.words.now self.now.rows c)) }
    {
        for i in 0..self.rows {
            words::put_le(
                out,
                WORD_WIDTH * i,
                WORD_WIDTH,
                self.words[self.width * i + c],
            );
        }
    }

    // Stores the columns one after the other at the front of `out`.
    #[tactic(auto, using(crate::proofs::Blocks::block_end))]
    fn put_columns(&self, out: &mut [u8])
        requires { word_width * self.now.rows * self.now.width ≤ length out.old }
        ensures { out.new ≡ sets out.old 0 (flat_map (le word_width) (columns self.now.width self.now.words.now self.now.rows)) }
    {
        for c in 0..self.width {
            self.put_column(c, &mut out[WORD_WIDTH * self.rows * c..]);
        }
    }
}

// Turns a table and its sums into bytes: the row count, the ten main columns, the three sum columns. It refuses a table or an aux of the wrong
// shape, bytes too few, and a word p or more.
#[tactic(auto, using(crate::proofs::Reasons::shaped, crate::proofs::Columns::put_parts), unfolding(crate::specs::Archives::archive_all, crate::specs::Archives::archive_reason, crate::specs::Archives::shapes))]
pub fn archive(table: &[u64], aux: &[u64], out: &mut [u8]) -> Result<(), Refusal>
    ensures { Leaves (archive_all table.now aux.now out.old) (completed_answer result) out.new }
{
    if !have_shapes(table, aux) {
        return Err(Refusal::Shape);
    }
    let rows = table.len() / MainRow::WIDTH;
    if out.len() < archive_length(rows) {
        return Err(Refusal::Short);
    }
    if !table::are_reduced(table, aux) {
        return Err(Refusal::Unreduced);
    }
    words::put_le(out, 0, WORD_WIDTH, rows as u64);
    let sums_at = WORD_WIDTH + WORD_WIDTH * rows * MainRow::WIDTH;
    let main = Cells {
        words: table,
        width: MainRow::WIDTH,
        rows,
    };
    let sums = Cells {
        words: aux,
        width: AuxRow::WIDTH,
        rows,
    };
    main.put_columns(&mut out[WORD_WIDTH..]);
    sums.put_columns(&mut out[sums_at..]);
    Ok(())
}

// The number of rows that the bytes say they hold.
#[tactic(auto, unfolding(crate::specs::Archives::archived_word))]
pub fn archived_rows(bytes: &[u8]) -> usize
    requires { word_width ≤ length bytes.now }
    ensures { result ≡ archived_rows bytes.now }
{
    words::word_at(bytes, 0) as usize
}

// Rows of so many words each, whose columns stand side by side at the front of the bytes.
#[derive(Clone, Copy)]
struct StoredColumns<'a> {
    bytes: &'a [u8],
    width: usize,
    rows: usize,
    ghost whole: { word_width * (rows * width) ≤ length bytes.now },
}

impl StoredColumns<'_> {
    // Stores row i at the front of `to`.
    #[tactic(auto, using(crate::proofs::Blocks::in_blocks))]
    fn put_row(&self, i: usize, to: &mut [u64])
        requires { (i < self.now.rows) × (self.now.width ≤ length to.old) }
        ensures { to.new ≡ sets to.old 0 (map (λ c. archived_word self.now.bytes.now (self.now.rows * c + i)) (places self.now.width)) }
    {
        for c in 0..self.width {
            to[c] = words::word_at(self.bytes, WORD_WIDTH * (self.rows * c + i));
        }
    }

    // Stores the rows one after the other at the front of `to`.
    #[tactic(auto, using(crate::proofs::Blocks::block_end))]
    fn put_rows(&self, to: &mut [u64])
        requires { self.now.width * self.now.rows ≤ length to.old }
        ensures { to.new ≡ sets to.old 0 (rows_from self.now.bytes.now 0 self.now.width self.now.rows) }
    {
        for i in 0..self.rows {
            self.put_row(i, &mut to[self.width * i..]);
        }
    }
}

// Bytes that are as many as their row count says.
#[derive(Clone, Copy)]
struct Archived<'a> {
    bytes: &'a [u8],
    rows: usize,
    ghost whole: { (rows ≡ archived_rows bytes.now) × (rows ≤ max_rows) × (length bytes.now ≡ archive_length rows) },
}

impl<'a> Archived<'a> {
    // The bytes with their row count. Reason 10: the count is too large, or the bytes are not as many as it says. The count is judged before its
    // length is made: that of a large one would wrap. The first test is apart: with the others it would read the count three times.
    #[tactic(auto, unfolding(crate::specs::Archives::torn))]
    fn judge(bytes: &'a [u8]) -> Result<Archived<'a>, Refusal>
        ensures { MatchResult result (λ archived. (archived.bytes.now ≡ bytes.now) × (torn bytes.now ≡ Fine)) (λ reason. torn bytes.now ≡ Declined reason) }
    {
        if bytes.len() < WORD_WIDTH {
            return Err(Refusal::Torn);
        }
        let rows = archived_rows(bytes);
        if MAX_ROWS < rows || bytes.len() != archive_length(rows) {
            return Err(Refusal::Torn);
        }
        Ok(Archived { bytes, rows })
    }

    // Every word of the columns is below p.
    fn words_reduced(&self) -> bool
        ensures { result ≡ all_reduced (archived_words self.now.bytes.now) }
    {
        let end = 1 + (MainRow::WIDTH + AuxRow::WIDTH) * self.rows;
        (1..end).all(|k| words::word_at(self.bytes, WORD_WIDTH * k) < BFieldElement::P)
    }
}

// What is to be restored onto a table and its sums, or the first reason against it.
#[tactic(auto, unfolding(crate::specs::Archives::restore_reason, crate::specs::Archives::shapes))]
fn judge_restoring<'a>(bytes: &'a [u8], table: &[u64], aux: &[u64]) -> Result<Archived<'a>, Refusal>
    ensures { MatchResult result (λ archived. (archived.bytes.now ≡ bytes.now) × (restore_reason bytes.now table.now aux.now ≡ Fine)) (λ reason. restore_reason bytes.now table.now aux.now ≡ Declined reason) }
{
    if !have_shapes(table, aux) {
        return Err(Refusal::Shape);
    }
    let archived = Archived::judge(bytes)?;
    if table.len() / MainRow::WIDTH < archived.rows {
        return Err(Refusal::Short);
    }
    if !archived.words_reduced() {
        return Err(Refusal::Unreduced);
    }
    Ok(archived)
}

// Gives the table and its sums back. It refuses a destination of the wrong shape, bytes that are no archive, a destination of too few rows, and a word
// p or more.
#[tactic(auto, using(crate::proofs::Reasons::restorable, crate::proofs::Reasons::shaped), unfolding(crate::specs::Archives::restore_all))]
pub fn restore(bytes: &[u8], table: &mut [u64], aux: &mut [u64]) -> Result<(), Refusal>
    ensures { Leaves (restore_all bytes.now table.old aux.old) (completed_answer result) (table_and_aux table.new aux.new) }
{
    let rows = judge_restoring(bytes, table, aux)?.rows;
    let main = StoredColumns {
        bytes: &bytes[WORD_WIDTH..],
        width: MainRow::WIDTH,
        rows,
    };
    let sums = StoredColumns {
        bytes: &bytes[WORD_WIDTH * (1 + rows * MainRow::WIDTH)..],
        width: AuxRow::WIDTH,
        rows,
    };
    main.put_rows(table);
    sums.put_rows(aux);
    Ok(())
}
