// Runs the stored vectors of filling, padding and extension, and of the four calls in a row. Standard input has a call a line (tools/vectors.py) with the arrays before and
// after it; what is printed is how many calls of each kind answered what, and how many differ in an answer or a word. Each line is run again with
// its last wanted number changed: each must differ.
#![tactic(auto)]

use check_table::Verdict;
use std::fmt;
use vectors::{Counts, LineList, Numbers, number_of, part, part_mut};
use xfield::XFieldElement;

// The calls; a line begins with the number of its call.
#[derive(Clone, Copy)]
enum Call {
    Fill = 1,
    Pad,
    Extend,
    Run,
}

impl fmt::Display for Call {
    fn fmt<W: fmt::Write>(&self, f: &mut fmt::Formatter<W>) -> fmt::Result {
        f.write_str(match self {
            Call::Fill => "fill",
            Call::Pad => "pad",
            Call::Extend => "extend",
            Call::Run => "run",
        })
    }
}

// A run's answer as a number: 0 where the check found every constraint zero, 30 where it found one that is not, else the reason's number.
fn ran(verdict: Verdict) -> u64 {
    match verdict {
        Ok(None) => 0,
        Ok(Some(_)) => 30,
        Err(reason) => u64::from(reason),
    }
}

// ---- the calls
// A list, a table; number and height; the table after it.
fn fill(numbers: &mut Numbers<'_>, counts: &mut Counts) {
    let list = LineList::take(numbers);
    let mut table = [0; 1024];
    let rows = numbers.counted(&mut table);
    let answer = fill::fill(&list.lend(), part_mut(&mut table, rows)).map(|height| [height]);
    let is_wanted = numbers.answer_is(answer);
    let same = numbers.words_are(part(&table, rows)) && is_wanted;
    counts.tally(Call::Fill as usize, number_of(&answer), same);
}

// A table, the filled count; number; the table after it.
fn pad(numbers: &mut Numbers<'_>, counts: &mut Counts) {
    let mut table = [0; 1024];
    let rows = numbers.counted(&mut table);
    let filled = numbers.number() as usize;
    let answer = fill::pad(part_mut(&mut table, rows), filled).map(|()| []);
    let is_wanted = numbers.answer_is(answer);
    let same = numbers.words_are(part(&table, rows)) && is_wanted;
    counts.tally(Call::Pad as usize, number_of(&answer), same);
}

// A table, aux, challenges; number and three words; aux after it.
fn extend(numbers: &mut Numbers<'_>, counts: &mut Counts) {
    let mut table = [0; 1024];
    let mut aux = [0; 1024];
    let mut challenges = [0; 32];
    let rows = numbers.counted(&mut table);
    let sums = numbers.counted(&mut aux);
    let weights = numbers.counted(&mut challenges);
    let answer = extend::extend(
        part(&table, rows),
        part_mut(&mut aux, sums),
        part(&challenges, weights),
    )
    .map(XFieldElement::words);
    let is_wanted = numbers.answer_is(answer);
    let same = numbers.words_are(part(&aux, sums)) && is_wanted;
    counts.tally(Call::Extend as usize, number_of(&answer), same);
}

// A list, a table, aux, challenges; number; table and aux after it.
fn run(numbers: &mut Numbers<'_>, counts: &mut Counts) {
    let list = LineList::take(numbers);
    let mut table = [0; 1024];
    let mut aux = [0; 1024];
    let mut challenges = [0; 32];
    let rows = numbers.counted(&mut table);
    let sums = numbers.counted(&mut aux);
    let weights = numbers.counted(&mut challenges);
    let number = ran(four_calls::run(
        &list.lend(),
        part_mut(&mut table, rows),
        part_mut(&mut aux, sums),
        part(&challenges, weights),
    ));
    let is_wanted = numbers.number() == number;
    let is_table = numbers.words_are(part(&table, rows));
    let same = numbers.words_are(part(&aux, sums)) && is_table && is_wanted;
    counts.tally(Call::Run as usize, number, same);
}

// Runs the call that comes next, and answers whether there is one.
// By number: a `TryFrom<u64>` for `Call` would have four arms with these numbers, and here would be a match with four more.
fn run_call(numbers: &mut Numbers<'_>, counts: &mut Counts) -> bool {
    match numbers.number() {
        1 => fill(numbers, counts),
        2 => pad(numbers, counts),
        3 => extend(numbers, counts),
        4 => run(numbers, counts),
        _ => return false,
    }
    true
}

fn main(rt: HostRuntime) {
    let found = vectors::run_input(rt.stdin(), run_call);
    let calls = [Call::Fill, Call::Pad, Call::Extend, Call::Run];
    for call in calls {
        found.counts.print(&rt, call, call as usize);
    }
    for call in calls {
        let _ = print!(rt; "with the last number changed, ");
        found.changed.print(&rt, call, call as usize);
    }
    let left = found.left;
    let _ = println!(rt; "bytes not run {left}");
}
