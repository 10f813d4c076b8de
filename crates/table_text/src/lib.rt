// The text of a table that anyone may have made, read byte by byte as it comes, in parts of any sizes: fifteen challenge words, the number of
// rows, and ten words a row.
#![tactic(auto)]

ghost use Rattle.std.specs.Prelude.{◌*◌, ◌≤◌, ◌≡◌, length, replicate, take, drop, IfOk, Ok};
ghost use Rattle.table_text.specs.TableText.{rows_at, head_numbers, max_words, Fits, Within, start_stage, takes, taken_of};
ghost use Rattle.table_text.specs.Answers.{max_answer, verdict_due, verdict_text, taken_text, fault_line, answer_text};
ghost use Rattle.table_text.specs.TableText.{most_rows};
ghost use Rattle.text.specs.Put.{Put, HasRoom, Adds};

use check_search::Nonzero;
use check_table::Verdict;
use numbers::{Answered, Fault, Reader, Sheet};
use table::{AuxRow, Challenges, MainRow};
use text::Text;

// The place of the number of rows among the numbers.
const ROWS_AT: usize = Challenges::WIDTH;

// Numbers before those of the rows.
const HEAD: usize = ROWS_AT + 1;

// More rows are not taken.
pub const MAX_ROWS: u64 = 16384;

// The numbers of the longest text.
const MAX_WORDS: usize = HEAD + MainRow::WIDTH * MAX_ROWS as usize;

// No answer is longer.
pub const MAX_ANSWER: usize = 256;

// The numbers of a table's text: so many so far, of so many that are due.
#[derive(Clone, Copy)]
pub struct TableSheet {
    pub count: usize,
    pub due: usize,
}

// `Fits`, that the numbers due have places, is no ghost field of the sheet: `judge_end` takes any sheet, and each definition that makes a sheet would
// have a proof in it.
impl Sheet for TableSheet {
    ghost room = { max_words };

    ghost Fits = { Fits };

    ghost takes = { takes };

    // A number more.
    fn take(self, line: u64, value: u64, words: &mut [u64]) -> Result<TableSheet, Fault> {
        let count = self.count;
        let due = self.due;
        if due <= count {
            return Err(Fault::Malformed(line));
        }
        if count == ROWS_AT {
            if MAX_ROWS < value {
                return Err(Fault::TooMany(value));
            }
            words[count] = value;
            return Ok(TableSheet {
                count: HEAD,
                due: HEAD + MainRow::WIDTH * value as usize,
            });
        }
        words[count] = value;
        Ok(TableSheet {
            count: count + 1,
            due,
        })
    }
}

// Before the first byte.
pub fn start() -> Reader<TableSheet>
    ensures { Ok result ≡ start_stage }
{
    Reader::new(TableSheet {
        count: 0,
        due: HEAD,
    })
}

// Room for the numbers of the longest text: all 0.
// No `[0; N]` in a `main`: a room of ones (edit `room_of_ones`, in code and clause of four words) is refused, and in a `main`, which promises nothing, it was not.
pub fn room() -> [u64; MAX_WORDS]
    ensures { result ≡ replicate max_words 0 }
{
    [0; MAX_WORDS]
}

// What a text is that ended so: a table of so many rows, where no number is missing.
pub fn judge_end(ended: Result<Reader<TableSheet>, Fault>) -> Result<usize, Fault>
    ensures taken { result ≡ taken_of ended }
    ensures few { Within ended → IfOk result (λ rows. rows ≤ most_rows) }
{
    let reader = ended?;
    let count = reader.sheet.count;
    let due = reader.sheet.due;
    if count < due || due < HEAD {
        return Err(Fault::Malformed(reader.place.line));
    }
    Ok((due - HEAD) / MainRow::WIDTH)
}

// ---- the answer
// The text of a table that was checked: where a constraint is not zero, its name stands first.
fn put_found(text: &mut Text, found: Option<Nonzero>)
    requires { HasRoom text.old max_answer }
    ensures { Adds text.old (verdict_due (Ok found)) text.new }
{
    match found {
        None => text.put_zero(),
        Some(nonzero) => {
            names::put_name(text, u64::from(nonzero.group), nonzero.index);
            transcript::put_nonzero(text, nonzero);
        }
    }
}

// The text after a check.
fn put_verdict(text: &mut Text, verdict: Verdict)
    requires { HasRoom text.old max_answer }
    ensures { Adds text.old (verdict_due verdict) text.new }
{
    match verdict {
        Err(reason) => text.put_refused(reason),
        Ok(found) => put_found(text, found),
    }
}

// Extends a table, and checks it.
fn judged(challenges: &[u64], table: &[u64], aux: &mut [u64]) -> Verdict
    ensures { verdict_due result ≡ verdict_text challenges.now table.now aux.old }
{
    extend::extend(table, aux, challenges)?;
    check_table::check(table, aux, challenges)
}

// Extends and checks a table, and puts what was found.
pub fn verdict_text(text: &mut Text, challenges: &[u64], table: &[u64], aux: &mut [u64])
    requires { HasRoom text.old max_answer }
    ensures { Adds text.old (verdict_text challenges.now table.now aux.old) text.new }
{
    put_verdict(text, judged(challenges, table, aux))
}

// Puts the line of what speaks against a text.
pub fn put_fault(text: &mut Text, fault: Fault)
    requires { HasRoom text.old max_answer }
    ensures { Adds text.old (fault_line fault) text.new }
{
    match fault {
        Fault::Malformed(line) => text.put_malformed(line),
        Fault::TooMany(rows) => text.put_too_many(rows, MAX_ROWS),
    }
}

// Words lent for the numbers of a text and for the sums of its rows.
#[derive(Drop)]
pub struct Lent<'a> {
    pub words: &'a mut [u64],
    pub aux: &'a mut [u64],
    pub ghost room: { (max_words ≤ length words.now) × (3 * most_rows ≤ length aux.now) },
}

// The challenges and the table of a text that has so many rows, and words for the sums of its rows.
// No method of `Lent`: tried with `&mut self`, and the borrow checker does not cover it; with `self` it covers no function that hands its `Lent` on to it.
pub fn parts<'a>(
    words: &'a [u64],
    aux: &'a mut [u64],
    rows: usize,
) -> (&'a [u64], &'a [u64], &'a mut [u64])
    requires { (max_words ≤ length words.now) × (3 * most_rows ≤ length aux.old) × (rows ≤ most_rows) }
    ensures challenges { result.0.now ≡ take rows_at words.now }
    ensures table { result.1.now ≡ take (10 * rows) (drop head_numbers words.now) }
    ensures sums { result.2.now ≡ take (3 * rows) aux.old }
{
    let to = HEAD + MainRow::WIDTH * rows;
    let sums = AuxRow::WIDTH * rows;
    (&words[..ROWS_AT], &words[HEAD..to], &mut aux[..sums])
}

impl Lent<'_> {
    // The answer for a text that has a table of so many rows.
    fn put_table(&mut self, text: &mut Text, rows: usize)
        requires { HasRoom text.old max_answer × (rows ≤ most_rows) }
        ensures { Adds text.old (taken_text (Ok rows) self.old.words.now self.old.aux.now) text.new }
    {
        let (challenges, table, aux) = parts(self.words, self.aux, rows);
        verdict_text(text, challenges, table, aux)
    }

    // The answer for a text that ended here.
    fn put_ended(&mut self, text: &mut Text, stage: Result<Reader<TableSheet>, Fault>)
        requires { HasRoom text.old max_answer × Within stage }
        ensures { Adds text.old (answer_text stage self.old.words.now self.old.aux.now) text.new }
    {
        let ended = numbers::end_number(stage, self.words);
        match judge_end(ended) {
            Err(fault) => put_fault(text, fault),
            Ok(rows) => self.put_table(text, rows),
        }
    }
}

impl Answered for TableSheet {
    ghost longest = { max_answer };

    ghost answer = { λ stage words. answer_text stage words (replicate (3 * most_rows) 0) };

    // The sums begin as 0. The clauses stand here again: the check can't give this method those of its trait.
    // `words` and `out` are no struct: it would be lent, and the `ensures` would have to say besides that its `out` is still the caller's.
    fn put_answer(
        stage: Result<Reader<TableSheet>, Fault>,
        words: &mut [u64],
        out: &mut [u8],
    ) -> usize
        requires { (max_words ≤ length words.old) × (max_answer ≤ length out.old) × Within stage }
        ensures { Put out.old 0 (answer_text stage words.old (replicate (3 * most_rows) 0)) out.new result }
    {
        let mut aux = [0u64; AuxRow::WIDTH * MAX_ROWS as usize];
        let mut text = Text::new(out);
        let mut lent = Lent {
            words,
            aux: &mut aux,
        };
        lent.put_ended(&mut text, stage);
        text.len()
    }
}
