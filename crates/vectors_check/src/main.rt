// Runs the stored vectors of the check: honest, damaged and foreign tables, and all refusals. Standard input has a call a line
// (tools/vectors.py); what is printed is how many tables were found zero, nonzero or refused, how many answers differ, and how many of the forty
// constraints were the first nonzero one of some table. Each line is run again with its last wanted word changed: each must differ.
#![tactic(auto)]

use check_search::Nonzero;
use check_table::Verdict;
use std::fmt;
use vectors::{Counts, Numbers, number_of, part};

// What a table is found.
#[derive(Clone, Copy)]
enum Found {
    Zero = 1,
    Nonzero,
    Refused,
}

// Of a table that is nonzero the first constraint that is not zero is counted too: one of group g at the kind FIRST_GROUP + g.
const FIRST_GROUP: usize = Found::Refused as usize + 1;

const GROUPS: usize = 4;

impl From<Verdict> for Found {
    fn from(verdict: Verdict) -> Found {
        match verdict {
            Ok(None) => Found::Zero,
            Ok(Some(_)) => Found::Nonzero,
            Err(_) => Found::Refused,
        }
    }
}

impl fmt::Display for Found {
    fn fmt<W: fmt::Write>(&self, f: &mut fmt::Formatter<W>) -> fmt::Result {
        f.write_str(match self {
            Found::Zero => "zero",
            Found::Nonzero => "nonzero",
            Found::Refused => "refused",
        })
    }
}

// What was found as words: 1 where a constraint is not zero, and then group, row, index and three words; else zeros.
fn words_of(found: Option<Nonzero>) -> [u64; 7] {
    found.map_or([0; 7], Nonzero::words)
}

// Runs the call that comes next, and answers whether there is one: table, aux, challenges, and of the verdict that is wanted the number of the answer and
// seven words; it begins with a 1.
fn run_call(numbers: &mut Numbers<'_>, counts: &mut Counts) -> bool {
    if numbers.number() != 1 {
        return false;
    }
    let mut table = [0; 1024];
    let mut aux = [0; 512];
    let mut challenges = [0; 32];
    let rows = numbers.counted(&mut table);
    let sums = numbers.counted(&mut aux);
    let weights = numbers.counted(&mut challenges);
    let verdict = check_table::check(
        part(&table, rows),
        part(&aux, sums),
        part(&challenges, weights),
    );
    let answer = verdict.map(words_of);
    let same = numbers.answer_is(answer);
    counts.tally(Found::from(verdict) as usize, number_of(&answer), same);
    if let Ok(Some(nonzero)) = verdict {
        let kind = FIRST_GROUP + nonzero.group as usize;
        counts.tally(kind, nonzero.index as u64, true);
    }
    true
}

// How many constraints were the first nonzero one of some table.
fn first_constraints(counts: &Counts) -> usize {
    let groups = &counts.places[FIRST_GROUP..FIRST_GROUP + GROUPS];
    groups.iter().flatten().filter(|n| 0 < **n).count()
}

fn main(rt: HostRuntime) {
    let run = vectors::run_input(rt.stdin(), run_call);
    let kinds = [Found::Zero, Found::Nonzero, Found::Refused];
    for kind in kinds {
        run.counts.print(&rt, kind, kind as usize);
    }
    let firsts = first_constraints(&run.counts);
    let _ = println!(rt; "first nonzero constraints {firsts}");
    for kind in kinds {
        let _ = print!(rt; "with the last word changed, ");
        run.changed.print(&rt, kind, kind as usize);
    }
    let left = run.left;
    let _ = println!(rt; "bytes not run {left}");
}
