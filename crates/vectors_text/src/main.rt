// Runs stored cases of `transcript`: input bytes, and the text that is due. Standard input has them one after the other (tests/pack-cases).
// Every case is run twice, with an output of the least size that is admitted and with one that is a byte shorter. What is printed is how many
// cases got what answer, and in how many the answer, the text or a byte past it differs. Each text is also compared with the file's bytes a place
// later: each must differ.
#![tactic(auto)]

use std::fmt;
use transcript::MAX_TEXT;
use vectors::{Counts, Input, Numbers, number_of, part, part_mut, same_first};
use words::Refusal;

// What is counted of each case.
#[derive(Clone, Copy)]
enum Kind {
    Text = 1,
    OutputShort,
    TextLater,
}

impl fmt::Display for Kind {
    fn fmt<W: fmt::Write>(&self, f: &mut fmt::Formatter<W>) -> fmt::Result {
        f.write_str(match self {
            Kind::Text => "text",
            Kind::OutputShort => "output a byte short",
            Kind::TextLater => "text a byte later",
        })
    }
}

// What the output holds before a call.
const MARK: u8 = 170;

// Whether bytes hold what they held before the call.
fn untouched(out: &[u8]) -> bool {
    out.iter().all(|b| *b == MARK)
}

// The length of the text that is put into marked output, or why there is none.
fn transcribed(input: &[u8], out: &mut [u8]) -> Result<usize, Refusal> {
    out.fill(MARK);
    transcript::transcript(input, out)
}

// Document 01's number of a text: the one in a refusal's line, and 0 for every other text.
fn answered(text: &[u8]) -> u64 {
    match text {
        [b'r', ..] => Numbers { rest: text }.number(),
        _ => 0,
    }
}

// A case at a file's start: its input, and the file, with the place where the text that is due begins in it, that text's length and the place after
// the case.
#[derive(Clone, Copy)]
struct Case<'a> {
    input: &'a [u8],
    file: &'a [u8],
    begin: usize,
    length: usize,
    end: usize,
}

impl<'a> Case<'a> {
    // The lengths of the input and of the text, a byte, and then both. There is none where the file ends within. Places wrap at 2^64, so
    // that after a size of nearly so many a case may end before its input does.
    fn first(file: &'a [u8]) -> Option<Case<'a>> {
        let mut numbers = Numbers { rest: file };
        let size = numbers.number() as usize;
        let length = numbers.number() as usize;
        let start = (file.len() - numbers.rest.len()).wrapping_add(1);
        let begin = start.wrapping_add(size);
        let end = begin.wrapping_add(length);
        if file.len() < end {
            return None;
        }
        Some(Case {
            input: part(file.get(start..).unwrap_or(&[]), size),
            file,
            begin,
            length,
            end,
        })
    }

    // Whether a text is what the file has from a place on.
    fn is_at(self, text: &[u8], place: usize) -> bool {
        self.file
            .get(place..)
            .is_some_and(|due| same_first(text, due, text.len()))
    }

    // The text that is due is put, and nothing past it.
    fn text_is_due(self, out: &mut [u8], counts: &mut Counts) {
        match transcribed(self.input, out) {
            Ok(n) => {
                let put = part(out, n);
                let number = answered(put);
                let later = self.is_at(put, self.begin.wrapping_add(1));
                counts.tally(Kind::TextLater as usize, number, later);
                let same = n == self.length
                    && self.is_at(put, self.begin)
                    && untouched(&out[put.len()..]);
                counts.tally(Kind::Text as usize, number, same);
            }
            Err(reason) => counts.tally(Kind::Text as usize, u64::from(reason), false),
        }
    }

    // The output is too short, and stays.
    fn output_is_short(self, out: &mut [u8], counts: &mut Counts) {
        let answer = transcribed(self.input, out);
        let same = answer == Err(Refusal::Short) && untouched(out);
        counts.tally(Kind::OutputShort as usize, number_of(&answer), same);
    }

    fn run(self, counts: &mut Counts) {
        let mut out = transcript::room();
        self.text_is_due(&mut out, counts);
        self.output_is_short(part_mut(&mut out, MAX_TEXT - 1), counts);
    }
}

// Runs the first of the cases, where there is one, and answers how many bytes it has.
fn run_first(file: &[u8], counts: &mut Counts) -> Option<usize> {
    let case = Case::first(file)?;
    case.run(counts);
    Some(case.end)
}

// Runs the cases of standard input, one after the other. What is left at the end is nothing, but where a case is not whole, a case is
// longer than the input has room for, or there are more than a thousand cases.
fn main(rt: HostRuntime) {
    let mut input = Input::new(rt.stdin());
    let mut counts = Counts::new();
    for _ in 0..1000 {
        let Some(done) = run_first(&input.bytes, &mut counts) else {
            break;
        };
        input.advance(done);
    }
    for kind in [Kind::Text, Kind::OutputShort, Kind::TextLater] {
        counts.print(&rt, kind, kind as usize);
    }
    let left = input.bytes.len();
    let _ = println!(rt; "bytes not run {left}");
}
