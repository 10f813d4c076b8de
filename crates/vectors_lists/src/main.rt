// Runs the stored vectors of lists: record, compare, plan, read and write. Standard input has a call a line (tools/vectors.py) with every
// array before and after it; what is printed is how many calls of each kind answered what, and how many differ. Each line is run again with
// its last wanted number changed: each must differ. Holds are not in the lines: zeros are lent, one a multiplicity, and must be left.
#![tactic(auto)]

use c_answers::order_number;
use isa::{Opcode, U32TableEntry};
use list_record::Heights;
use std::fmt;
use vectors::{Counts, LentList, LineList, Numbers, number_of, same_first};
use words::Refusal;

// The calls; a line begins with the number of its call. The last has no lines.
#[derive(Clone, Copy)]
enum Call {
    Record = 1,
    Compare,
    Plan,
    Read,
    Write,
    RecordMany,
}

impl fmt::Display for Call {
    fn fmt<W: fmt::Write>(&self, f: &mut fmt::Formatter<W>) -> fmt::Result {
        f.write_str(match self {
            Call::Record => "record",
            Call::Compare => "compare",
            Call::Plan => "plan",
            Call::Read => "read",
            Call::Write => "write",
            Call::RecordMany => "record at 2048 and 2049 places",
        })
    }
}

// ---- answers
// The word of a place, or of a number of entries or bytes.
fn word_of(n: usize) -> [u64; 1] {
    [n as u64]
}

// ---- the calls
fn take_entry(numbers: &mut Numbers<'_>) -> U32TableEntry {
    U32TableEntry::new(numbers.number(), numbers.number(), numbers.number())
}

// Lent, called, and the sizes taken back, here and in `read`: a method that does so around a closure would be a line less here, and itself six, with a
// clause over what the closure leaves.
fn record_in<const K: usize, const M: usize>(
    list: &mut LentList<K, M>,
    e: U32TableEntry,
) -> Result<[u64; 1], Refusal> {
    let mut lent = list.lend_mut();
    let answer = list_record::record_u32_table_entry(&mut lent, e);
    list.sizes = lent.sizes;
    answer.map(word_of)
}

fn record(numbers: &mut Numbers<'_>, counts: &mut Counts) {
    let mut list = LineList::take(numbers);
    let answer = record_in(&mut list, take_entry(numbers));
    let is_wanted = numbers.answer_is(answer);
    let same = list.is_next(numbers) && is_wanted;
    counts.tally(Call::Record as usize, number_of(&answer), same);
}

fn compare(numbers: &mut Numbers<'_>, counts: &mut Counts) {
    let left = take_entry(numbers);
    let right = take_entry(numbers);
    let same = order_number(left.compare(right)) == numbers.number();
    counts.tally(Call::Compare as usize, 0, same);
}

fn plan(numbers: &mut Numbers<'_>, counts: &mut Counts) {
    let list = LineList::take(numbers);
    let answer = list_record::plan(&list.lend()).map(Heights::words);
    let same = numbers.answer_is(answer);
    counts.tally(Call::Plan as usize, number_of(&answer), same);
}

fn read(numbers: &mut Numbers<'_>, counts: &mut Counts) {
    let mut list = LineList::take(numbers);
    let count = numbers.number();
    let bytes = numbers.bytes::<512>(count);
    let mut lent = list.lend_mut();
    let answer = list_stored::read_list(&bytes, &mut lent).map(word_of);
    list.sizes = lent.sizes;
    let is_wanted = numbers.answer_is(answer);
    let same = list.is_next(numbers) && is_wanted;
    counts.tally(Call::Read as usize, number_of(&answer), same);
}

fn write(numbers: &mut Numbers<'_>, counts: &mut Counts) {
    let list = LineList::take(numbers);
    let count = numbers.number();
    let mut bytes = numbers.bytes::<512>(count);
    let answer = list_stored::write_list(&list.lend(), &mut bytes).map(word_of);
    let is_wanted = numbers.answer_is(answer);
    let wanted = numbers.bytes::<512>(bytes.len() as u64);
    let same = is_wanted && same_first(&bytes, &wanted, bytes.len());
    counts.tally(Call::Write as usize, number_of(&answer), same);
}

// Runs the call that comes next, and answers whether there is one.
// By number: a `TryFrom<u64>` for `Call` would have five arms with these numbers, and here would be a match with five more.
fn run_call(numbers: &mut Numbers<'_>, counts: &mut Counts) -> bool {
    match numbers.number() {
        1 => record(numbers, counts),
        2 => compare(numbers, counts),
        3 => plan(numbers, counts),
        4 => read(numbers, counts),
        5 => write(numbers, counts),
        _ => return false,
    }
    true
}

// ---- 2,048 places
// An entry of lt.
fn lt(left: u64, right: u64) -> U32TableEntry {
    U32TableEntry::new(Opcode::Lt as u64, left, right)
}

// Notes a recording, and what its answer must be.
fn note(answer: Result<[u64; 1], Refusal>, wanted: Result<[u64; 1], Refusal>, counts: &mut Counts) {
    let call = Call::RecordMany as usize;
    counts.tally(call, number_of(&answer), answer == wanted);
}

// As many different keys as there are places, a key more, and the first key again.
fn places(counts: &mut Counts) {
    let mut list = LentList::<6144, 2048>::empty(2048);
    for i in 0..2048 {
        note(record_in(&mut list, lt(i, 1)), Ok([i]), counts);
    }
    note(
        record_in(&mut list, lt(0, 0)),
        Err(Refusal::ListFull),
        counts,
    );
    note(record_in(&mut list, lt(0, 1)), Ok([0]), counts);
}

// 2,048 places pass, 2,049 are a wrong shape.
fn too_many_places(counts: &mut Counts) {
    let mut list = LentList::<6147, 2049>::empty(2049);
    note(record_in(&mut list, lt(1, 1)), Err(Refusal::Shape), counts);
}

// ---- all lines
fn main(rt: HostRuntime) {
    let mut found = vectors::run_input(rt.stdin(), run_call);
    places(&mut found.counts);
    too_many_places(&mut found.counts);
    let calls = [
        Call::Record,
        Call::Compare,
        Call::Plan,
        Call::Read,
        Call::Write,
    ];
    for call in calls {
        found.counts.print(&rt, call, call as usize);
    }
    let many = Call::RecordMany;
    found.counts.print(&rt, many, many as usize);
    for call in calls {
        let _ = print!(rt; "with the last number changed, ");
        found.changed.print(&rt, call, call as usize);
    }
    let left = found.left;
    let _ = println!(rt; "bytes not run {left}");
}
