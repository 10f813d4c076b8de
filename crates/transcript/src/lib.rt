// From the bytes that `u32list` reads to the text that it prints: the calls in a row, and their answers as lines.
#![tactic(auto)]

ghost use Rattle.std.specs.Prelude.{◌+◌, ◌*◌, ◌≤◌, ◌≡◌, length, replicate, Ok};
ghost use Rattle.words.specs.Outcomes.{Leaves};
ghost use Rattle.xfield.specs.XFieldElements.{ext_of};
ghost use Rattle.list.specs.Lent.{held_in};
ghost use Rattle.sums.specs.RunningSum.{element_words};
ghost use Rattle.table.specs.Columns.{main_width};
ghost use Rattle.check_search.specs.Nonzeros.{nonzero_answer};
ghost use Rattle.check_table.specs.Verdicts.{verdict_answer};
ghost use Rattle.text.specs.Lines.{verdict_line};
ghost use Rattle.text.specs.Put.{HasRoom, Adds};
ghost use Rattle.transcript.specs.Transcript.{max_printed_rows, max_input, challenge_bytes, input_challenges, row_lines, opening_text, verdict_text};
ghost use Rattle.transcript.specs.Transcript.{checked_text, extended_text, padded_text, calls_text, height_text, list_text, read_text};
ghost use Rattle.transcript.specs.Transcript.{max_text, Prints, transcript_of, transcribe_all, transcribed_answer, Fits, Printable};

use check_search::Nonzero;
use isa::U32TableEntry;
use list::{LentList, LentListMut, Sizes};
use list_record::{Heights, MAX_PLACES};
use std::array;
use table::{AuxRow, Challenges, MainRow};
use text::{Head, Text};
use words::Refusal;
use xfield::XFieldElement;

// Input bytes before the stored list: the challenges' words.
const CHALLENGE_BYTES: usize = 8 * Challenges::WIDTH;

// The challenges and 2,048 stored entries: more bytes are refused.
pub const MAX_INPUT: usize = 51328;

// A higher padded height is not printed.
const MAX_PRINTED_ROWS: usize = 512;

// No text is longer.
pub const MAX_TEXT: usize = 107804;

// Room for the most input and one byte more, by which a longer input is told: all 0.
// This and `room` are no `[0; N]` in `u32list`: a room of ones, or a byte less (edits `input_room_of_ones` ..; `room_of_ones`, `room_a_byte_less`, in code
// and clause of four bytes), is refused, and in `u32list::run`, which promises nothing of them, it was not.
pub fn input_room() -> [u8; MAX_INPUT + 1]
    ensures { result ≡ replicate (max_input + 1) 0 }
{
    [0; MAX_INPUT + 1]
}

// Room for the longest text: all 0.
pub fn room() -> [u8; MAX_TEXT]
    ensures { result ≡ replicate max_text 0 }
{
    [0; MAX_TEXT]
}

// Puts the lines of the first n rows of a table.
fn put_rows(text: &mut Text, table: &[u64], n: usize)
    requires { (n ≤ max_printed_rows) × (main_width * n ≤ length table.now) × HasRoom text.old (210 * n) }
    ensures { Adds text.old (row_lines table.now n) text.new }
{
    for row in table[..MainRow::WIDTH * n].chunks_exact(MainRow::WIDTH) {
        text.put_row(row);
    }
}

// Puts the first line, the rows and the sum.
// `Printable` stays a clause, here and below: what is put uses room up, so no field can keep it; a struct for the table would keep half of the clause.
fn put_opening(text: &mut Text, head: Head, table: &[u64], sum: XFieldElement)
    requires { Printable text.old table.now head.padded }
    ensures { Adds text.old (opening_text head.entries head.height head.padded table.now (element_words (ext_of sum))) text.new }
{
    text.put_head(head);
    put_rows(text, table, head.padded as usize);
    text.put_sum(sum);
}

// Puts the line of a constraint that is not zero.
// Not by `Nonzero::words`: its 1 at the front would have to be cut off, and the method of `text` would take six words where it has an element now.
pub fn put_nonzero(text: &mut Text, found: Nonzero)
    requires { HasRoom text.old (length (verdict_line (nonzero_answer found).values)) }
    ensures { Adds text.old (verdict_line (nonzero_answer found).values) text.new }
{
    let group = u64::from(found.group);
    text.put_nonzero(group, found.row as u64, found.index as u64, found.value);
}

// Puts the text of a table that was checked: what was found, or that nothing was.
fn put_result(
    text: &mut Text,
    head: Head,
    table: &[u64],
    sum: XFieldElement,
    found: Option<Nonzero>,
)
    requires { Printable text.old table.now head.padded }
    ensures { Adds text.old (verdict_text head.entries head.height head.padded table.now (element_words (ext_of sum)) (verdict_answer (Ok found))) text.new }
{
    put_opening(text, head, table, sum);
    match found {
        None => text.put_zero(),
        Some(nonzero) => put_nonzero(text, nonzero),
    }
}

// Pads, extends and checks a table that was filled, and puts its text.
fn put_filled(
    text: &mut Text,
    head: Head,
    table: &mut [u64],
    aux: &mut [u64],
    challenges: &[u64],
) -> Result<(), Refusal>
    requires { Printable text.old table.old head.padded }
    ensures { Prints text.old (padded_text head.entries head.height head.padded table.old aux.old challenges.now) result text.new }
{
    fill::pad(table, head.height as usize)?;
    let sum = extend::extend(table, aux, challenges)?;
    let found = check_table::check(table, aux, challenges)?;
    put_result(text, head, table, sum, found);
    Ok(())
}

// Fills a lent table with the rows of a list, and puts its text.
fn put_calls(
    text: &mut Text,
    held: &LentList,
    heights: Heights,
    challenges: &[u64],
    table: &mut [u64],
    aux: &mut [u64],
) -> Result<(), Refusal>
    requires { Printable text.old table.old heights.padded }
    ensures { Prints text.old (calls_text (held_in held.now) challenges.now heights.height heights.padded table.old aux.old) result text.new }
{
    fill::fill(held, table)?;
    let head = Head {
        entries: held.list.sizes.used as u64,
        height: heights.height,
        padded: heights.padded,
    };
    put_filled(text, head, table, aux, challenges)
}

// Puts the text of a list of known height: a table of as many rows as the padded height is lent.
fn put_height(
    text: &mut Text,
    list: &LentList,
    heights: Heights,
    challenges: &[u64],
) -> Result<(), Refusal>
    requires { HasRoom text.old max_text }
    ensures { Prints text.old (height_text (held_in list.now) challenges.now heights.height heights.padded) result text.new }
{
    if (MAX_PRINTED_ROWS as u64) < heights.padded {
        return Err(Refusal::Short);
    }
    let rows = heights.padded as usize;
    let mut table = [0u64; MainRow::WIDTH * MAX_PRINTED_ROWS];
    let mut aux = [0u64; AuxRow::WIDTH * MAX_PRINTED_ROWS];
    put_calls(
        text,
        list,
        heights,
        challenges,
        &mut table[..MainRow::WIDTH * rows],
        &mut aux[..AuxRow::WIDTH * rows],
    )
}

// Puts the text of a list.
fn put_list(text: &mut Text, list: &LentList, challenges: &[u64]) -> Result<(), Refusal>
    requires { HasRoom text.old max_text }
    ensures { Prints text.old (list_text (held_in list.now) challenges.now) result text.new }
{
    let heights = list_record::plan(list)?;
    put_height(text, list, heights, challenges)
}

// Puts the text of a stored list, which is read onto 2,048 places.
fn put_stored(text: &mut Text, bytes: &[u8], challenges: &[u64]) -> Result<(), Refusal>
    requires { HasRoom text.old max_text }
    ensures { Prints text.old (read_text bytes.now challenges.now) result text.new }
{
    let mut keys = [0u64; U32TableEntry::WIDTH * MAX_PLACES];
    let mut multiplicities = [0u64; MAX_PLACES];
    let mut holds = [0u64; MAX_PLACES];
    // By its fields, for the reason that the header of u32_table gives.
    let mut list = LentListMut {
        sizes: Sizes {
            capacity: MAX_PLACES,
            used: 0,
        },
        keys: &mut keys,
        multiplicities: &mut multiplicities,
        holds: &mut holds,
    };
    list_stored::read_list(bytes, &mut list)?;
    put_list(text, &list.view(), challenges)
}

// The challenges at the front of the input.
fn challenges_in(input: &[u8]) -> [u64; Challenges::WIDTH]
    requires { challenge_bytes ≤ length input.now }
    ensures { result ≡ input_challenges input.now }
{
    array::from_fn(|i| words::word_at(input, 8 * i))
}

// Puts the text for these input bytes.
fn put_input(text: &mut Text, input: &[u8]) -> Result<(), Refusal>
    requires { HasRoom text.old max_text }
    ensures { Prints text.old (transcript_of input.now) result text.new }
{
    if input.len() < CHALLENGE_BYTES {
        return Err(Refusal::Shape);
    }
    if MAX_INPUT < input.len() {
        return Err(Refusal::Torn);
    }
    let challenges = challenges_in(input);
    put_stored(text, &input[CHALLENGE_BYTES..], &challenges)
}

// Puts the text for these input bytes; where one of the calls refuses, it is the line of the refusal alone.
fn put_transcript(text: &mut Text, input: &[u8])
    requires { HasRoom text.old max_text }
    ensures { Adds text.old (transcript_of input.now) text.new }
{
    if let Err(reason) = put_input(text, input) {
        text.put_refused(reason);
    }
}

// Puts the text for these input bytes at the front of `out`, and answers its length. It refuses an output of fewer than MAX_TEXT bytes; what
// the calls refuse is said in the text.
pub fn transcript(input: &[u8], out: &mut [u8]) -> Result<usize, Refusal>
    ensures due { Leaves (transcribe_all input.now out.old) (transcribed_answer result) out.new }
    ensures fits { Fits input.now }
{
    if out.len() < MAX_TEXT {
        return Err(Refusal::Short);
    }
    let mut text = Text::new(out);
    put_transcript(&mut text, input);
    Ok(text.len())
}
