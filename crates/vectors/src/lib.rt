// Reading the numbers of a vector file, and counting what a run of vectors finds. A vector file is decimal numbers with anything
// else between them.
#![tactic(auto)]

ghost use Rattle.std.specs.Prelude.{◌≡◌, ◌-◌, ◌<◌, ◌≤◌, length, min, take, drop, replicate, MatchOption, MatchResult, List, ℕ, nat_eq};
ghost use Rattle.arrayvec.specs.ArrayVec.{array_vec_len};
ghost use Rattle.std.specs.Iterator.{at_most};
ghost use Rattle.io.specs.Counts.{IsPrefixLen};
ghost use Rattle.words.specs.Refusals.{refusal_number};
ghost use Rattle.vectors.specs.Same.{same_first as same_first_of};
ghost use Rattle.vectors.specs.Counts.{row, counted, answered, tallied};

mod lists;

use arrayvec::ArrayVec;
pub use lists::{LentList, LineList};
use std::fmt::Display;
use std::io::Read;
use words::Refusal;

// A number as a length, cut to what there is.
pub fn within(n: u64, length: usize) -> usize
    ensures bound { result ≤ length }
    ensures exact { result ≡ min n length }
{
    n.min(length as u64) as usize
}

// The first n items of a buffer, or all where it has fewer.
pub fn part<T>(items: &[T], n: usize) -> &[T]
    ensures { result.now ≡ take n items.now }
{
    items.get(..n).unwrap_or(items)
}

// The same part, for writing.
pub fn part_mut<T>(items: &mut [T], n: usize) -> &mut [T]
    ensures part { result.now ≡ take n items.old }
{
    let n = n.min(items.len());
    &mut items[..n]
}

// ---- the numbers of a text
// The numbers of a text, one after the other: what is left of the text.
#[derive(Clone, Copy)]
pub struct Numbers<'a> {
    pub rest: &'a [u8],
}

impl Iterator for Numbers<'_> {
    type Item = u64;

    // Where there is none, nothing changes; else there is less left.
    ghost next_gives = { λ s r t. MatchOption r (t.rest.now ≡ s.rest.now) (λ _. length t.rest.now < length s.rest.now) };

    ghost remaining = { λ s. at_most (length s.rest.now) };

    fn next(&mut self) -> Option<u64> {
        let text = self.rest;
        let start = text.iter().position(|b| b.is_ascii_digit())?;
        let mut end = start + 1;
        let mut n = with_digit(0, text[start]);
        // By index: digits that are found first, and folded then, are gone through twice.
        while end < text.len() && text[end].is_ascii_digit() {
            n = with_digit(n, text[end]);
            end += 1;
        }
        self.rest = &text[end..];
        Some(n)
    }
}

impl Numbers<'_> {
    // The next number, or 0 where there is none left: what is no number is passed too then.
    pub fn number(&mut self) -> u64
        ensures bound { length self.new.rest.now ≤ length self.old.rest.now }
        ensures read { 0 < result → length self.new.rest.now < length self.old.rest.now }
    {
        let n = self.next();
        if n.is_none() {
            self.rest = &[];
        }
        n.unwrap_or(0)
    }

    // The next numbers in an array: `count` of them, or as many as it has places for. One that does not fit the items' type is 0.
    pub fn array<T: TryFrom<u64> + Default + Drop, const N: usize>(
        &mut self,
        count: u64,
    ) -> ArrayVec<T, N>
    where
        T::Error: Drop,
        ensures { array_vec_len result ≡ min count N }
    {
        let mut items = ArrayVec::new();
        for _ in 0..within(count, N) {
            let _ = items.try_push(T::try_from(self.number()).unwrap_or_default());
        }
        items
    }

    // The same of bytes: of a number past 255 its lowest eight bits.
    pub fn bytes<const N: usize>(&mut self, count: u64) -> ArrayVec<u8, N>
        ensures { array_vec_len result ≡ min count N }
    {
        let mut bytes = ArrayVec::new();
        let places = within(count, N);
        for _ in 0..places {
            let _ = bytes.try_push((self.number() & 0xff) as u8);
        }
        bytes
    }

    // A count, and then so many numbers, or as many as the array has places for.
    pub fn counted_array<T: TryFrom<u64> + Default + Drop, const N: usize>(
        &mut self,
    ) -> ArrayVec<T, N>
    where
        T::Error: Drop,
    {
        let count = self.number();
        self.array(count)
    }

    // A count, and then so many numbers, put at the first places, or as many as there are places for. Answers how many. Where an array is so large that its
    // copies tell, this is quicker than `counted_array`.
    pub fn counted(&mut self, places: &mut [u64]) -> usize
        ensures { IsPrefixLen result places.new }
    {
        let count = within(self.number(), places.len());
        self.fill(part_mut(places, count));
        count
    }

    // The next numbers, one at each place.
    fn fill(&mut self, places: &mut [u64])
        ensures { length places.new ≡ length places.old }
    {
        for place in places {
            *place = self.number();
        }
    }

    // Whether words are those that come next, which are passed also where they differ. A line has no more than 1,024 in a row, and more than that differ.
    // Room for so many is made whatever is compared: for a few words `array` is quicker.
    pub fn words_are(&mut self, words: &[u64]) -> bool
        ensures { (wanted : List ℕ) × (length wanted ≡ min (length words.now) 1024) × (result ≡ same_first_of nat_eq (length words.now) words.now wanted) }
    {
        let mut room = [0; 1024];
        let wanted = part_mut(&mut room, words.len());
        self.fill(wanted);
        same_first(words, wanted, words.len())
    }

    // Whether an answer is the one that comes next: document 01's number, and the N words of its value, zeros where there is none.
    pub fn answer_is<const N: usize>(&mut self, answer: Result<[u64; N], Refusal>) -> bool {
        let number = self.number();
        let mut wanted = [0; N];
        self.fill(&mut wanted);
        number == number_of(&answer) && same_first(&answer.unwrap_or([0; N]), &wanted, N)
    }
}

// Document 01's number of an answer: 0 where it is a value, and else the reason's.
// Of any answer, as it is lent. `c_answers::number` takes one without a value, and promises the definition that the C functions cite.
// One for both would stand in `words`, and its clause would have to be turned into that of the C functions.
pub fn number_of<T>(answer: &Result<T, Refusal>) -> u64
    ensures { MatchResult answer.now (λ _. result ≡ 0) (λ reason. result ≡ refusal_number reason) }
{
    answer.as_ref().err().map_or(0, |reason| u64::from(*reason))
}

// A number with one digit more; a number whose tenfold passes 2^64 stays what it is.
fn with_digit(n: u64, digit: u8) -> u64 {
    if n <= u64::MAX / 10 {
        (n * 10).wrapping_add(u64::from(digit.wrapping_sub(b'0')))
    } else {
        n
    }
}

// Whether the first `count` items of both are the same; an item past an end differs.
// No bare `==` where runs are compared: that a comparator tells a wrong vector has to be proved, and this contract does.
#[tactic(auto, using(crate::proofs::SameLaws::alike, crate::proofs::SameLaws::first_short, crate::proofs::SameLaws::second_short))]
pub fn same_first<T: PartialEq>(left: &[T], right: &[T], count: usize) -> bool
    ensures { result ≡ same_first_of T.eq count left.now right.now }
{
    count <= left.len() && count <= right.len() && left[..count] == right[..count]
}

// ---- reading standard input in parts
// Reads until the buffer is full, the input ends or a read fails, and answers how many bytes it put at the start of the buffer.
pub fn read_full(reader: &mut impl Read, buf: &mut [u8]) -> usize
    ensures { IsPrefixLen result buf.new }
{
    // A loop of its own: neither std's reads into a slice nor `streams::read_full` say how many bytes came before an error.
    let mut done = 0;
    while done < buf.len() {
        match reader.read(&mut buf[done..]) {
            Ok(n) if 0 < n => done += n,
            _ => break,
        }
    }
    done
}

// An input that is read in parts: its reader, and the bytes that were read and are not done with.
#[derive(Drop)]
pub struct Input<R> {
    reader: R,
    pub bytes: ArrayVec<u8, 65536>,
}

impl<R: Read> Input<R> {
    // An input with its first part.
    pub fn new(reader: R) -> Self {
        let mut input = Input {
            reader,
            bytes: ArrayVec::new(),
        };
        input.advance(0);
        input
    }

    // Drops the first `done` bytes, or all where there are fewer, and reads on until there is no room left or the input ends.
    pub fn advance(&mut self, done: usize)
        ensures { take (length self.old.bytes.items - done) self.new.bytes.items ≡ drop done self.old.bytes.items }
    {
        let filled = self.bytes.len();
        let done = done.min(filled);
        let kept = filled - done;
        self.bytes.as_mut_slice().rotate_left(done);
        self.bytes.truncate(kept);
        let mut more = io::large_buffer();
        let n = read_full(&mut self.reader, part_mut(&mut more, 65536 - kept));
        let _ = self.bytes.try_extend_from_slice(part(&more, n));
    }
}

// ---- the lines of a part
// How many bytes the whole lines of a text have.
fn whole_lines(text: &[u8]) -> usize
    ensures { result ≤ length text.now }
{
    text.iter()
        .rposition(|b| *b == b'\n')
        .map_or(0, |end| end + 1)
}

// A line's last digit becomes another, so that its last number is another: the run of such a line must differ.
fn change_line(line: &mut [u8]) {
    if let Some(digit) = line.last_mut() {
        *digit = match *digit {
            b'0'..=b'8' => *digit + 1,
            b'9' => b'8',
            other => other,
        };
    }
}

// The same of each line of a text; what follows the last line that ends stays.
pub fn change_lines(text: &mut [u8]) {
    let whole = whole_lines(text);
    for line in part_mut(text, whole).split_mut(|b| *b == b'\n') {
        change_line(line);
    }
}

// ---- counts
// Counts of 32 kinds of calls, a row of 32 places each: at place n the calls that answered number n of document 01, and at the last place those
// that differ from what was wanted.
const KINDS: usize = 32;

const PLACES: usize = 32;

const DIFFER: usize = 31;

// A kind is a number. As an enum, by Into<usize>, it was tried: it proves, and takes 24 lines more in four programs and clauses over some number that the
// conversion gives.
#[derive(Clone, Copy)]
pub struct Counts {
    pub places: [[u64; PLACES]; KINDS],
}

impl Counts {
    // No call was counted.
    pub fn new() -> Self
        ensures { result.places ≡ replicate 32 (replicate 32 0) }
    {
        Counts {
            places: [[0; PLACES]; KINDS],
        }
    }

    // Adds one at a place of a kind.
    #[tactic(auto, unfolding(crate::specs::Counts::counted))]
    fn count(&mut self, kind: usize, place: usize)
        ensures { self.new.places ≡ counted self.old.places kind place }
    {
        if kind < KINDS && place < PLACES {
            let count = &mut self.places[kind][place];
            *count = count.wrapping_add(1);
        }
    }

    // Counts the number that a call of a kind answered.
    #[tactic(auto, unfolding(crate::specs::Counts::answered))]
    fn count_answer(&mut self, kind: usize, number: u64)
        ensures { self.new.places ≡ answered self.old.places kind number }
    {
        if number < DIFFER as u64 {
            self.count(kind, number as usize);
        }
    }

    // Notes a call of a kind: the number that it answered, and whether all is as wanted.
    #[tactic(auto, unfolding(crate::specs::Counts::tallied))]
    pub fn tally(&mut self, kind: usize, number: u64, same: bool)
        ensures { self.new.places ≡ tallied self.old.places kind number same }
    {
        self.count_answer(kind, number);
        if !same {
            self.count(kind, DIFFER);
        }
    }

    // The counts of a kind; none past the last kind.
    pub fn of_kind(&self, kind: usize) -> &[u64]
        ensures { result.now ≡ row self.now.places kind }
    {
        self.places.get(kind).map_or(&[], |row| row)
    }

    // Writes a kind's counts: the calls that were done, those refused with each number that was met, and those that differ.
    pub fn print(&self, rt: &impl Print, name: impl Display + Drop, kind: usize) {
        if let [done, refused @ .., differ] = self.of_kind(kind) {
            let _ = print!(rt; "{name} done {done}");
            for (i, count) in refused.iter().enumerate() {
                if 0 < *count {
                    let number = i + 1;
                    let _ = print!(rt; " refused {number}: {count}");
                }
            }
            let _ = println!(rt; " differ {differ}");
        }
    }
}

// ---- runs
// What a run of lines found: counts of the lines as they are and of the changed lines, and how many bytes were not run: none, but where a line
// does not end, a line is longer than a part, or there are more than a thousand parts.
#[derive(Clone, Copy)]
pub struct Run {
    pub counts: Counts,
    pub changed: Counts,
    pub left: usize,
}

// Runs the calls of a text, at most a hundred thousand of them, up to one that is none. A call is a line, but nothing asks for that: its numbers come
// one after the other, on one line or on two.
fn run_calls<F: Fn(&mut Numbers<'_>, &mut Counts) -> bool>(
    text: &[u8],
    counts: &mut Counts,
    run: &F,
)
    requires { F.IsAlwaysCallable run.now }
{
    let mut numbers = Numbers { rest: text };
    for _ in 0..100000 {
        if !run(&mut numbers, counts) {
            break;
        }
    }
}

// Each program prints its lines itself: what stands between the counts and the changed counts, and which are printed, differs from one to the next.
impl Run {
    // Runs the lines of a text as they are, and changed.
    fn lines<F: Fn(&mut Numbers<'_>, &mut Counts) -> bool>(&mut self, text: &mut [u8], run: &F)
        requires { F.IsAlwaysCallable run.now }
    {
        run_calls(text, &mut self.counts, run);
        change_lines(text);
        run_calls(text, &mut self.changed, run);
    }
}

// Runs the lines of an input, a part after the other. The function that is passed runs the call that comes next, and says whether there was one.
pub fn run_input<R: Read + Drop, F: Fn(&mut Numbers<'_>, &mut Counts) -> bool + Drop>(
    reader: R,
    run: F,
) -> Run
    requires { F.IsAlwaysCallable run }
{
    let mut found = Run {
        counts: Counts::new(),
        changed: Counts::new(),
        left: 0,
    };
    let mut input = Input::new(reader);
    for _ in 0..1000 {
        if input.bytes.is_empty() {
            break;
        }
        let whole = whole_lines(input.bytes.as_slice());
        found.lines(part_mut(input.bytes.as_mut_slice(), whole), &run);
        input.advance(whole);
    }
    found.left = input.bytes.len();
    found
}
