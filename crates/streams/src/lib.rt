// Standard input and standard output of a program: a call that is interrupted is made again, and one that fails says so in a line on standard
// error. Lines of a program's own for standard error.
#![tactic(auto)]

ghost use Rattle.std.specs.Prelude.{◌≡◌, true, is_ok, OnOk};
ghost use Rattle.std.specs.Io.KnownBytes.{Appends};
ghost use Rattle.streams.specs.Streams.{FilledIn, TakenFrom};

use std::fmt;
use std::fmt::{Display, Formatter};
use std::io::{Cursor, Error, ErrorKind, Read, Write};

// No program makes so many calls: a loop over them ends.
pub const MOST_CALLS: u64 = 1152921504606846976;

// The three streams of a program, which its `main` alone has.
// Each `main` makes it: a function that did would take the whole host, which no function below a `main` takes.
#[derive(Drop)]
pub struct Streams<R, W, E> {
    pub input: R,
    pub output: W,
    pub errors: E,
}

// Which of the two could not be read or written, and why.
#[derive(Clone, Copy)]
pub enum Failure {
    Input(Error),
    Output(Error),
}

impl Display for Failure {
    // What failed, a colon and the system's text: std appends its number, in parentheses.
    fn fmt<W: fmt::Write>(&self, f: &mut Formatter<W>) -> fmt::Result {
        let (what, error) = match self {
            Failure::Input(error) => ("standard input", error),
            Failure::Output(error) => ("standard output", error),
        };
        let mut text = Cursor::new([0u8; 256]);
        let _ = write!(text, "{error}");
        let length = text.position() as usize;
        let bytes = text.into_inner();
        let whole = bytes
            .get(..length)
            .and_then(|part| std::str::from_utf8(part).ok())
            .unwrap_or("");
        let reason = whole.rsplit_once(" (").map_or(whole, |(reason, _)| reason);
        write!(f, "{what}: {reason}")
    }
}

// Reads until the buffer is full or the input ends.
// A loop of its own: std's `read_exact` does not say how much came before the end and `read_to_end` allocates; `io::read_full` takes a descriptor.
pub fn read_full<R: Read>(input: &mut R, buf: &mut [u8]) -> Result<usize, Failure>
    ensures within { FilledIn result buf.new }
    ensures bytes { TakenFrom (R.remaining input.old) (R.remaining input.new) result buf.new }
{
    let mut done: usize = 0;
    for _ in 0..MOST_CALLS {
        if done == buf.len() {
            return Ok(done);
        }
        match input.read(&mut buf[done..]) {
            Ok(0) => return Ok(done),
            Ok(n) => done += n,
            // std does not make an interrupted call again here.
            Err(error) if error.kind() == ErrorKind::Interrupted => {}
            Err(error) => return Err(Failure::Input(error)),
        }
    }
    Err(Failure::Input(Error::from(ErrorKind::TimedOut)))
}

// Writes all of the bytes. std makes an interrupted call again.
pub fn write_all<W: Write>(output: &mut W, bytes: &[u8]) -> Result<(), Failure>
    ensures { OnOk result (Appends (W.contents output.old) (W.contents output.new) bytes.now) }
{
    output.write_all(bytes).map_err(Failure::Output)
}

// Writes all of the bytes, or says on standard error why not; answers whether they are written.
pub fn write_or_tell<W: Write, E: Write>(output: &mut W, errors: &mut E, bytes: &[u8]) -> bool
    ensures { result ≡ true → Appends (W.contents output.old) (W.contents output.new) bytes.now }
{
    tell_unless_done(errors, write_all(output, bytes))
}

// Says on standard error what failed, where something did; answers whether all is done.
pub fn tell_unless_done<E: Write>(errors: &mut E, done: Result<(), Failure>) -> bool
    ensures { result ≡ is_ok done }
{
    done.inspect_err(|failure| tell(errors, failure)).is_ok()
}

// Says on standard error, in a line, what failed. Where that fails, there is no place left to say so.
pub fn tell<W: Write>(errors: &mut W, failure: &Failure) {
    let _ = writeln!(errors, "{failure}");
}

// Writes a line to standard error. Where that fails, there is no place left to say so.
// std makes an interrupted call again.
pub fn write_error<W: Write>(errors: &mut W, line: &[u8]) {
    let _ = errors.write_all(line);
}
