// Numbers in a text, read byte by byte: decimal digits, with one or more spaces or newlines between the numbers and anywhere around them. And the
// reading of a whole text in parts of any sizes, for every kind of sheet that takes the numbers.
#![tactic(auto)]

ghost use Rattle.std.specs.Prelude.{◌≡◌, ℕ, ◌≤◌, List, length, Ok};
ghost use Rattle.numbers.specs.Numbers.{start_place, line_of_next, gap_step, digit_step, step_of};
ghost use Rattle.numbers.specs.Sheets.{IsFed, Within, start_reader, take_ended, feed_byte, feed_all, end_number};

// How far a text has been read.
#[derive(Clone, Copy)]
pub struct Place {
    // The line of the byte read last, counted from 1, and 1 before the first byte.
    pub line: u64,
    // That byte ended its line.
    pub ended: bool,
    // The number so far, where that byte was a digit.
    pub number: Option<u64>,
}

// What one more byte is, a part of a number or of what stands between numbers.
#[derive(Clone, Copy)]
pub struct Step {
    // The number that it ended.
    pub number: Option<u64>,
    pub place: Place,
}

// A digit, on this line, after those that make a number: the line, where the number is then past 64 bits.
fn digit_step(line: u64, before: u64, digit: u64) -> Result<Step, u64>
    ensures { result ≡ digit_step line before digit }
{
    let tens = before.checked_mul(10).ok_or(line)?;
    let value = tens.checked_add(digit).ok_or(line)?;
    Ok(Step {
        number: None,
        place: Place {
            line,
            ended: false,
            number: Some(value),
        },
    })
}

impl Place {
    // Before the first byte.
    pub fn start() -> Place
        ensures { result ≡ start_place }
    {
        Place {
            line: 1,
            ended: false,
            number: None,
        }
    }

    // The line of the next byte. Lines past the largest word are not counted.
    fn line_of_next(self) -> u64
        ensures { result ≡ line_of_next self }
    {
        if self.ended {
            self.line.saturating_add(1)
        } else {
            self.line
        }
    }

    // A space or a newline, on this line, ends the number before it.
    fn gap_step(self, line: u64, newline: bool) -> Step
        ensures { result ≡ gap_step self line newline }
    {
        Step {
            number: self.number,
            place: Place {
                line,
                ended: newline,
                number: None,
            },
        }
    }

    // A text that was read up to this place, and one byte more: the line, where the byte is no part of a text of numbers.
    pub fn step(self, byte: u8) -> Result<Step, u64>
        ensures { result ≡ step_of self byte }
    {
        let line = self.line_of_next();
        match byte {
            b' ' => Ok(self.gap_step(line, false)),
            b'\n' => Ok(self.gap_step(line, true)),
            b'0'..=b'9' => digit_step(line, self.number.unwrap_or(0), (byte - b'0') as u64),
            _ => Err(line),
        }
    }
}

// What speaks against a text first.
#[derive(Clone, Copy)]
pub enum Fault {
    // No such text goes on so: the line.
    Malformed(u64),
    // More than are taken. Each sheet says which number it tells: a table's the rows that there are, a batch's the most that are taken.
    TooMany(u64),
}

// How far a text of numbers has been read, and the sheet that takes its numbers.
#[derive(Clone, Copy)]
pub struct Reader<S> {
    pub place: Place,
    pub sheet: S,
}

impl<S> Reader<S> {
    // Before the first byte.
    pub fn new(sheet: S) -> Reader<S>
        ensures { result ≡ start_reader sheet }
    {
        Reader {
            place: Place::start(),
            sheet,
        }
    }
}

// What takes the numbers of a text: each has its place among lent words.
pub trait Sheet: Copy {
    ghost use Rattle.numbers.specs.Sheets.{Fed, IsTaken};

    // So many words have places for all numbers.
    ghost room: { ℕ };

    // The numbers that are due have places among them. In a ghost field of the sheet, or of the reader, each definition that makes one would prove it.
    ghost Fits: { Self → Type 0 };

    // What one number more, which ended on this line, leaves.
    ghost takes: { (line : ℕ) → Self → (value : ℕ) → (words : List ℕ) → Fed Self };

    fn take(self, line: u64, value: u64, words: &mut [u64]) -> Result<Self, Fault>
        requires { (room ≤ length words.old) × Fits self }
        ensures { IsTaken Fits (takes line self value words.old) result words.new };
}

// A sheet whose text has an answer.
pub trait Answered: Sheet {
    ghost use Rattle.std.specs.Prelude.{Result};
    ghost use Rattle.text.specs.Put.{Put};
    ghost use Rattle.numbers.specs.Sheets.{Within};
    ghost use Rattle.numbers.specs.declared.Fault.{Fault};
    ghost use Rattle.numbers.specs.declared.Reader.{Reader};

    // No answer is longer.
    ghost longest: { ℕ };

    // The answer for a text that ended here.
    ghost answer: { (stage : Result (Reader Self) Fault) → (words : List ℕ) → List ℕ };

    // Puts it at the front of `out`; answers its length.
    fn put_answer(stage: Result<Reader<Self>, Fault>, words: &mut [u64], out: &mut [u8]) -> usize
        requires { (Self.room ≤ length words.old) × (longest ≤ length out.old) × Within Self.Fits stage }
        ensures { Put out.old 0 (answer stage words.old) out.new result };
}

// ---- a whole text
impl<S: Sheet> Reader<S> {
    // The number that a byte or the text's end ended, if it did, goes to its place; the text is read on from here.
    fn take_ended(mut self, number: Option<u64>, words: &mut [u64]) -> Result<Reader<S>, Fault>
        requires { (S.room ≤ length words.old) × S.Fits self.sheet }
        ensures { IsFed S.Fits (take_ended S.takes self.place number self.sheet words.old) result words.new }
    {
        if let Some(value) = number {
            self.sheet = self.sheet.take(self.place.line, value, words)?;
        }
        Ok(self)
    }

    // A byte more.
    fn read_byte(mut self, byte: u8, words: &mut [u64]) -> Result<Reader<S>, Fault>
        requires { (S.room ≤ length words.old) × S.Fits self.sheet }
        ensures { IsFed S.Fits (feed_byte S.takes (Ok self) byte words.old) result words.new }
    {
        let step = self.place.step(byte).map_err(Fault::Malformed)?;
        self.place = step.place;
        self.take_ended(step.number, words)
    }
}

// Reads a part more of a text that was read so far: its numbers are put into the lent words, each at its place. After a fault nothing is read.
// That there are words enough stays a clause: of a struct that holds them each `ensures` would have to say that they are still the caller's words.
pub fn feed<S: Sheet>(
    stage: Result<Reader<S>, Fault>,
    part: &[u8],
    words: &mut [u64],
) -> Result<Reader<S>, Fault>
    requires { (S.room ≤ length words.old) × Within S.Fits stage }
    ensures { IsFed S.Fits (feed_all S.takes stage part.now words.old) result words.new }
{
    let mut reached = stage?;
    for byte in part {
        reached = reached.read_byte(*byte, words)?;
    }
    Ok(reached)
}

// The end of a text that was read so far, which ends a number too.
pub fn end_number<S: Sheet>(
    stage: Result<Reader<S>, Fault>,
    words: &mut [u64],
) -> Result<Reader<S>, Fault>
    requires { (S.room ≤ length words.old) × Within S.Fits stage }
    ensures { IsFed S.Fits (end_number S.takes stage words.old) result words.new }
{
    let reader = stage?;
    reader.take_ended(reader.place.number, words)
}
