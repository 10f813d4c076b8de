// Evaluates each of the forty constraints by its index on 640 pseudo-random pairs of rows, and prints a digest of its values and how many
// of them are zero. The original Rust prints the same lines; oracle/src/digests.rs describes the pairs and the digest.
#![tactic(auto)]

use check_pairs::TRANSITION_COUNT;
use check_rows::{CONSISTENCY_COUNT, INITIAL_COUNT, TERMINAL_COUNT};
use check_search::Group;
use field::BFieldElement;
use isa::Opcode;
use std::array;
use table::{AuxRow, Challenges, MainRow, RowPair};
use xfield::XFieldElement;

// ---- words
// Words that are drawn one after the other: the last that was drawn.
#[derive(Drop)]
struct Draws(u64);

impl Draws {
    fn word(&mut self) -> u64 {
        let next = BFieldElement(self.0) * BFieldElement(6364136223846793005)
            + BFieldElement(1442695040888963407);
        self.0 = next.0;
        self.0
    }

    fn words<const N: usize>(&mut self) -> [u64; N] {
        array::from_fn(|_| self.word())
    }

    fn row(&mut self) -> MainRow {
        MainRow::at(&self.words::<{ MainRow::WIDTH }>(), 0)
    }

    fn aux_row(&mut self) -> AuxRow {
        AuxRow::at(&self.words::<{ AuxRow::WIDTH }>(), 0)
    }

    fn challenges(&mut self) -> Challenges {
        Challenges::from_words(&self.words::<{ Challenges::WIDTH }>())
    }
}

// ---- rows
// A row of small words, and more bits.
fn small_row(row: MainRow) -> MainRow {
    let small = MainRow::at(&row.words().map(|word| word % 3), 0);
    MainRow {
        bits: small.bits + BFieldElement(32),
        ..small
    }
}

// An aux row of small words.
fn small_aux(aux: AuxRow) -> AuxRow {
    let words = aux.lookup_server_log_derivative.words();
    AuxRow::at(&words.map(|word| word % 3), 0)
}

// Twice the lower operand, and the upper one's lowest bit.
fn doubled(lower: BFieldElement, upper: BFieldElement) -> BFieldElement {
    BFieldElement(2) * lower + BFieldElement(upper.0 % 2)
}

fn flag(which: u64, word: u64) -> u64 {
    match which {
        0..=2 => which,
        _ => word,
    }
}

// An opcode's number; 22 is that of none.
fn opcode(which: u64, word: u64) -> u64 {
    match which {
        0 => Opcode::Split as u64,
        1 => Opcode::Lt as u64,
        2 => Opcode::Log2Floor as u64,
        3 => Opcode::And as u64,
        4 => Opcode::PopCount as u64,
        5 => Opcode::Pow as u64,
        6 => 22,
        _ => word,
    }
}

// ---- pairs of rows
// A pair of rows, and the challenges.
#[derive(Drop)]
struct Pair {
    rows: RowPair,
    challenges: Challenges,
}

impl Pair {
    // Pair k, drawn where the one before ended: each row and then its aux row, the challenges last.
    fn draw(k: u64, draws: &mut Draws) -> Self {
        let upper = draws.row();
        let aux = draws.aux_row();
        let lower = draws.row();
        let aux_next = draws.aux_row();
        let mut pair = Pair {
            rows: RowPair {
                upper,
                lower,
                aux,
                aux_next,
            },
            challenges: draws.challenges(),
        };
        match k % 3 {
            1 => pair.make_small(),
            2 => pair.make_steps(),
            _ => {}
        }
        pair.set_flags(k);
        pair
    }

    fn make_small(&mut self) {
        self.rows = RowPair {
            upper: small_row(self.rows.upper),
            lower: small_row(self.rows.lower),
            aux: small_aux(self.rows.aux),
            aux_next: small_aux(self.rows.aux_next),
        };
    }

    // Small Results, and upper operands that halve to the lower ones.
    fn make_steps(&mut self) {
        let upper = &mut self.rows.upper;
        let lower = &mut self.rows.lower;
        upper.result.0 %= 3;
        lower.result.0 %= 3;
        upper.lhs = doubled(lower.lhs, upper.lhs);
        upper.rhs = doubled(lower.rhs, upper.rhs);
    }

    // The flags and opcodes of pair k.
    fn set_flags(&mut self, k: u64) {
        let upper = &mut self.rows.upper;
        let lower = &mut self.rows.lower;
        upper.copy_flag.0 = flag(k % 4, upper.copy_flag.0);
        lower.copy_flag.0 = flag(k / 4 % 4, lower.copy_flag.0);
        upper.ci.0 = opcode(k / 16 % 8, upper.ci.0);
        lower.ci.0 = opcode((k / 16 + k / 128) % 8, lower.ci.0);
    }
}

// ---- values
// The digest of a constraint's values so far, and how many of them were zero.
#[derive(Clone, Copy)]
struct Digest {
    fold: BFieldElement,
    zeros: u64,
}

impl Digest {
    fn note(&mut self, value: XFieldElement) {
        for word in [value.0, value.1, value.2] {
            self.fold = self.fold * BFieldElement(31) + word;
        }
        if value.is_zero() {
            self.zeros = self.zeros.wrapping_add(1);
        }
    }
}

// The digests of a group of N constraints.
#[derive(Clone, Copy)]
struct Digests<const N: usize> {
    digests: [Digest; N],
}

impl<const N: usize> Digests<N> {
    fn new() -> Self {
        let none = Digest {
            fold: BFieldElement::ZERO,
            zeros: 0,
        };
        Digests { digests: [none; N] }
    }

    // A value of each constraint.
    fn note(&mut self, values: [XFieldElement; N]) {
        for (digest, value) in self.digests.iter_mut().zip(&values) {
            digest.note(*value);
        }
    }

    // The group's number, the constraint's, its digest and its zeros, a line each.
    fn print(&self, rt: &impl Print, group: Group) {
        let group = u64::from(group);
        for (i, digest) in self.digests.iter().enumerate() {
            let fold = digest.fold.0;
            let zeros = digest.zeros;
            let _ = println!(rt; "{group} {i} {fold} {zeros}");
        }
    }
}

// The four groups of constraints.
#[derive(Clone, Copy)]
struct Groups {
    initial: Digests<INITIAL_COUNT>,
    consistency: Digests<CONSISTENCY_COUNT>,
    transition: Digests<TRANSITION_COUNT>,
    terminal: Digests<TERMINAL_COUNT>,
}

impl Groups {
    fn note(&mut self, pair: &Pair) {
        let rows = pair.rows;
        self.initial.note(check_rows::initial_constraints(pair.challenges, rows.upper, rows.aux));
        self.consistency
            .note(check_rows::consistency_constraints(rows.upper));
        self.transition
            .note(check_pairs::transition_constraints(pair.challenges, rows));
        self.terminal
            .note(check_rows::terminal_constraints(rows.upper));
    }
}

fn main(rt: HostRuntime) {
    let mut groups = Groups {
        initial: Digests::new(),
        consistency: Digests::new(),
        transition: Digests::new(),
        terminal: Digests::new(),
    };
    let mut draws = Draws(1);
    for k in 0..640 {
        groups.note(&Pair::draw(k, &mut draws));
    }
    groups.initial.print(&rt, Group::Initial);
    groups.consistency.print(&rt, Group::Consistency);
    groups.transition.print(&rt, Group::Transition);
    groups.terminal.print(&rt, Group::Terminal);
}
