// What `u32archive` does between reading and writing: from the text of a table to the archive, and from an archive to the text of its rows; or in
// either case to a line for standard error.
#![tactic(auto)]

ghost use Rattle.std.specs.Prelude.{◌+◌, ◌*◌, ◌≤◌, false, true, ◌≡◌, ◌++◌, length, replicate, Ok, MatchResult};
ghost use Rattle.table.specs.Columns.{row_count};
ghost use Rattle.archive.specs.Archives.{archived_rows};
ghost use Rattle.text.specs.Lines.{row_line};
ghost use Rattle.text.specs.Put.{Put, HasRoom, Adds};
ghost use Rattle.numbers.specs.declared.Fault.TheVariants.{TooMany};
ghost use Rattle.table_text.specs.TableText.{max_words, most_rows, Within};
ghost use Rattle.table_text.specs.Answers.{max_answer};
ghost use Rattle.archive_text.specs.Asking.{Asks};
ghost use Rattle.archive_text.specs.Outputs.{fault_line};
ghost use Rattle.archive_text.specs.declared.Fault.TheVariants.{Taken, Refused};
ghost use Rattle.archive_text.specs.Packing.{pack_table, pack_taken, pack_ended, max_archive, IsArchived, IsPacked};
ghost use Rattle.archive_text.specs.Unpacking.{printed_rows, too_many_rows, unpack_all, max_row_line, IsRestored, IsUnpacked};

use numbers::Reader;
use table::{AuxRow, MainRow};
use table_text::{Lent, MAX_ROWS, TableSheet};
use text::Text;
use words::Refusal;

// The bytes of an archive's row count.
const COUNT_BYTES: usize = 8;

// The words of a row and of its sum.
const ROW_WORDS: usize = MainRow::WIDTH + AuxRow::WIDTH;

// The bytes of an archive of the most rows.
const MAX_BYTES: usize = COUNT_BYTES + 8 * ROW_WORDS * MAX_ROWS as usize;

// The words of a table of the most rows.
pub const TABLE_WORDS: usize = MainRow::WIDTH * MAX_ROWS as usize;

// No line of a row is longer: thirteen numbers, and what follows each.
pub const MAX_ROW_LINE: usize = 21 * ROW_WORDS;

// What the program is asked for.
#[derive(Clone, Copy)]
pub enum Task {
    Pack,
    Unpack,
}

// Why nothing is written to standard output: the text or the archive cannot be taken, or a call refuses.
#[derive(Clone, Copy)]
enum Fault {
    Taken(numbers::Fault),
    Refused(Refusal),
}

impl From<numbers::Fault> for Fault {
    ghost from_gives = { λ reason fault. fault ≡ Taken reason };

    fn from(reason: numbers::Fault) -> Fault
        ensures { result ≡ Taken reason }
    {
        Fault::Taken(reason)
    }
}

impl From<Refusal> for Fault {
    ghost from_gives = { λ reason fault. fault ≡ Refused reason };

    fn from(reason: Refusal) -> Fault
        ensures { result ≡ Refused reason }
    {
        Fault::Refused(reason)
    }
}

impl Fault {
    // Puts its line at the front of `out`; answers the line's length.
    fn put(self, out: &mut [u8]) -> usize
        requires { max_answer ≤ length out.old }
        ensures { Put out.old 0 (fault_line self) out.new result }
    {
        let mut text = Text::new(out);
        self.put_line(&mut text);
        text.len()
    }

    // Puts its line.
    fn put_line(self, text: &mut Text)
        requires { HasRoom text.old max_answer }
        ensures { Adds text.old (fault_line self) text.new }
    {
        match self {
            Fault::Taken(taken) => table_text::put_fault(text, taken),
            Fault::Refused(reason) => text.put_refused(reason),
        }
    }
}

// Room for an archive of the most rows, and a byte more, by which a longer one is told: all 0.
// No array of this length in `main`: with one the check of `u32archive::main` ran out of stack. And a room of ones, or a byte less (edits `room_of_ones`,
// `room_a_byte_less`, in code and clause of four bytes), is refused.
pub fn room() -> [u8; MAX_BYTES + 1]
    ensures { result ≡ replicate 1703945 0 }
{
    [0; MAX_BYTES + 1]
}

// Room for the sums of the most rows: all 0.
// No `[0; N]` in `main`: a room of ones (edit `sums_room_of_ones`) is refused by this clause, and in `main`, which promises nothing, it was not.
pub fn sums_room() -> [u64; AuxRow::WIDTH * MAX_ROWS as usize]
    ensures { result ≡ replicate 49152 0 }
{
    [0; AuxRow::WIDTH * MAX_ROWS as usize]
}

// What an argument asks for, if it is one of the two.
pub fn asked(argument: &[u8]) -> Option<Task>
    ensures { Asks argument.now result }
{
    match argument {
        b"pack" => Some(Task::Pack),
        b"unpack" => Some(Task::Unpack),
        _ => None,
    }
}

// ---- pack
// Extends a table, and archives it with its sums: archiving is not refused then. Answers the archive's length.
fn pack_table(
    challenges: &[u64],
    table: &[u64],
    aux: &mut [u64],
    out: &mut [u8],
) -> Result<usize, Fault>
    requires { (length table.now ≤ 10 * most_rows) × (max_archive ≤ length out.old) }
    ensures { IsArchived (pack_table challenges.now table.now aux.old) out.old out.new result }
{
    extend::extend(table, aux, challenges)?;
    archive::archive(table, aux, out)?;
    Ok(archive::archive_length(table.len() / MainRow::WIDTH))
}

// The archive for a text that has a table of so many rows. `out` stands beside what is lent: it is the caller's afterwards, and the `ensures` say of it
// what it holds. This and `pack_ended` are no methods: `Lent` is `table_text`'s, and a struct's methods stand in its crate.
fn pack_rows(lent: &mut Lent, rows: usize, out: &mut [u8]) -> Result<usize, Fault>
    requires { (max_archive ≤ length out.old) × (rows ≤ most_rows) }
    ensures { IsArchived (pack_taken (Ok rows) lent.old.words.now lent.old.aux.now) out.old out.new result }
{
    let (challenges, table, aux) = table_text::parts(lent.words, lent.aux, rows);
    pack_table(challenges, table, aux, out)
}

// The archive for a text that ended here.
fn pack_ended(
    stage: Result<Reader<TableSheet>, numbers::Fault>,
    lent: &mut Lent,
    out: &mut [u8],
) -> Result<usize, Fault>
    requires { (max_archive ≤ length out.old) × Within stage }
    ensures { IsArchived (pack_ended stage lent.old.words.now lent.old.aux.now) out.old out.new result }
{
    let ended = numbers::end_number(stage, lent.words);
    let rows = table_text::judge_end(ended)?;
    pack_rows(lent, rows, out)
}

// For a text that ended here: the archive at the front of `out`, for standard output, and its length; or the line that says why there is none, for
// standard error, and its length.
// `words` and `aux` are no `Lent` here: `u32archive` lends them out of one struct with `out`, and the borrow checker covers no call that does so with a `Lent`.
pub fn pack(
    stage: Result<Reader<TableSheet>, numbers::Fault>,
    words: &mut [u64],
    aux: &mut [u64],
    out: &mut [u8],
) -> Result<usize, usize>
    requires { (max_words ≤ length words.old) × (3 * most_rows ≤ length aux.old) × (max_archive ≤ length out.old) × Within stage }
    ensures { IsPacked (pack_ended stage words.old aux.old) out.old out.new result }
{
    let mut lent = Lent { words, aux };
    // `map_err` was tried, also with its closure lent as `&mut`, and `returns` stayed open: it says what it gives, but not that `out` is as the closure left
    // it, nor that it is untouched where there is no fault.
    match pack_ended(stage, &mut lent, out) {
        Ok(length) => Ok(length),
        Err(fault) => Err(fault.put(out)),
    }
}

// ---- unpack
// Refuses a row count that an archive may have, above the most that is taken.
#[tactic(auto, unfolding(crate::specs::Unpacking::too_many_rows))]
fn judge_count(bytes: &[u8]) -> Result<(), numbers::Fault>
    ensures { MatchResult result (λ _. too_many_rows bytes.now ≡ false) (λ fault. (too_many_rows bytes.now ≡ true) × (fault ≡ TooMany (archived_rows bytes.now))) }
{
    if bytes.len() < COUNT_BYTES {
        return Ok(());
    }
    let rows = archive::archived_rows(bytes);
    if (MAX_ROWS as usize) < rows && rows <= words::MAX_ROWS {
        return Err(numbers::Fault::TooMany(rows as u64));
    }
    Ok(())
}

// Restores an archive; answers how many rows there are.
fn unpack_all(bytes: &[u8], table: &mut [u64], aux: &mut [u64]) -> Result<usize, Fault>
    ensures { IsRestored (unpack_all bytes.now table.old aux.old) table.new aux.new result }
{
    judge_count(bytes)?;
    archive::restore(bytes, table, aux)?;
    Ok(archive::archived_rows(bytes))
}

// Restores an archive onto the lent rows and sums: so many of them are to be printed, on standard output; or the line at the front of `out` says why
// there are none, for standard error, and its length is answered.
pub fn unpack(
    bytes: &[u8],
    table: &mut [u64],
    aux: &mut [u64],
    out: &mut [u8],
) -> Result<usize, usize>
    requires { max_answer ≤ length out.old }
    ensures { IsUnpacked (unpack_all bytes.now table.old aux.old) table.new aux.new out.old out.new result }
{
    // No `map_err` here either: as in `pack`.
    match unpack_all(bytes, table, aux) {
        Ok(rows) => Ok(rows),
        Err(fault) => Err(fault.put(out)),
    }
}

// Puts the line of a row: its ten words, and the three of its sum.
fn put_row(text: &mut Text, row: &[u64], sum: &[u64])
    requires words { (length row.now ≡ 10) × (length sum.now ≡ 3) }
    requires room { HasRoom text.old (length (row_line (row.now ++ sum.now))) }
    ensures { Adds text.old (row_line (row.now ++ sum.now)) text.new }
{
    let mut words = [0u64; ROW_WORDS];
    words[..MainRow::WIDTH].copy_from_slice(row);
    words[MainRow::WIDTH..].copy_from_slice(sum);
    text.put_row(&words);
}

// Puts the lines of all rows of a table, each with its sum, at the front of `out`; answers their length. Of parts of a table and of its sums they are the
// lines of the rows from one on (`rows_of_parts`), so many as are whole in the part (`rows_of_first`).
pub fn put_rows(table: &[u64], aux: &[u64], out: &mut [u8]) -> usize
    requires { (3 * row_count table.now ≤ length aux.now) × (max_row_line * row_count table.now ≤ length out.old) }
    ensures { Put out.old 0 (printed_rows table.now aux.now 0 (row_count table.now)) out.new result }
{
    let mut text = Text::new(out);
    let words = table.chunks_exact(MainRow::WIDTH);
    let sums = aux.chunks_exact(AuxRow::WIDTH);
    for (row, sum) in words.zip(sums) {
        put_row(&mut text, row, sum);
    }
    text.len()
}
