// The text of a sheet (crate numbers), read from standard input in parts as it comes, for the programs that take one. Which bytes are read no contract
// can say of standard input; of a reader that knows its bytes `streams::read_full` says it. Here the contracts say that the numbers of the text have
// places among the lent words.
#![tactic(auto)]

ghost use Rattle.std.specs.Prelude.{◌≡◌, ◌≤◌, length, true, OnOk};
ghost use Rattle.table_input.specs.Reads.{ReadWithin, AnswerWritten};

use numbers::{Answered, Fault, Reader, Sheet};
use std::io::{Error, ErrorKind, Read, Write};
use streams::{Failure, MOST_CALLS, Streams};

// Reads the whole text. It is over where a part is not full, and the rest does not count after a fault.
// That there are words enough, and places for the numbers, stay clauses: `numbers::feed` and `Fits` say why.
pub fn read_text<S: Sheet, R: Read>(
    start: Reader<S>,
    input: &mut R,
    words: &mut [u64],
) -> Result<Result<Reader<S>, Fault>, Failure>
    requires { (S.room ≤ length words.old) × S.Fits start.sheet }
    ensures { ReadWithin S.Fits result }
{
    let mut part = io::large_buffer();
    let mut stage = Ok(start);
    for _ in 0..MOST_CALLS {
        let length = streams::read_full(input, &mut part)?;
        stage = numbers::feed(stage, &part[..length], words);
        // A `match` with a guard was tried: two ways would join by which the function holds different things, which is not covered.
        if length < part.len() || stage.is_err() {
            return Ok(stage);
        }
    }
    Err(Failure::Input(Error::from(ErrorKind::TimedOut)))
}

// Reads the whole text, and writes the answer for it, which is put into the lent bytes first.
pub fn answer<S: Answered, R: Read, W: Write>(
    start: Reader<S>,
    input: &mut R,
    output: &mut W,
    words: &mut [u64],
    out: &mut [u8],
) -> Result<(), Failure>
    requires { (S.room ≤ length words.old) × (S.longest ≤ length out.old) × S.Fits start.sheet }
    ensures { OnOk result (AnswerWritten S.Fits S.answer (W.contents output.old) (W.contents output.new)) }
{
    let stage = read_text(start, input, words)?;
    let length = S::put_answer(stage, words, out);
    streams::write_all(output, &out[..length])
}

// The same, and where the text can't be read or the answer can't be written, says so on standard error; answers whether the answer is written.
pub fn answer_or_tell<S: Answered, R: Read, W: Write, E: Write>(
    start: Reader<S>,
    streams: &mut Streams<R, W, E>,
    words: &mut [u64],
    out: &mut [u8],
) -> bool
    requires { (S.room ≤ length words.old) × (S.longest ≤ length out.old) × S.Fits start.sheet }
    ensures { result ≡ true → AnswerWritten S.Fits S.answer (W.contents streams.old.output) (W.contents streams.new.output) }
{
    let done = answer(start, &mut streams.input, &mut streams.output, words, out);
    streams::tell_unless_done(&mut streams.errors, done)
}
