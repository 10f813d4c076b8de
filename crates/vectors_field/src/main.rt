// Runs the stored vectors of base and extension elements: standard input has a call a line (tools/vectors.py), and what is printed is
// how many calls of each kind were run and how many differ. Each line is run again with its last wanted word changed: each must differ.
#![tactic(auto)]

use field::BFieldElement;
use vectors::{Counts, Numbers, change_lines, part_mut, same_first};
use xfield::XFieldElement;

// The calls of base elements, in the order of their wanted words in a line. A call is counted at its place here.
static BASE: [&str; 9] = [
    "new",
    "value",
    "add",
    "sub",
    "neg",
    "mul",
    "inverse_or_zero",
    "is_zero",
    "equals",
];

// The calls of extension elements, in the same order. They are counted after those of base elements.
static EXTENSION: [&str; 9] = [
    "extension new",
    "extension from_base",
    "extension add",
    "extension sub",
    "extension mul",
    "extension scale",
    "extension inverse_or_zero",
    "extension is_zero",
    "extension equals",
];

// A line of base elements: a b, then new value add sub neg mul inverse is_zero equals.
fn base(numbers: &mut Numbers<'_>, counts: &mut Counts) {
    let a = BFieldElement(numbers.number());
    let b = BFieldElement(numbers.number());
    let got = [
        BFieldElement::new(a.0).0,
        a.value(),
        (a + b).0,
        (a - b).0,
        (-a).0,
        (a * b).0,
        a.inverse_or_zero().0,
        u64::from(a.is_zero()),
        u64::from(a == b),
    ];
    for (call, word) in got.iter().enumerate() {
        counts.tally(call, 0, same_first(&[*word], &[numbers.number()], 1));
    }
}

fn take_element(numbers: &mut Numbers<'_>) -> XFieldElement {
    XFieldElement(
        BFieldElement(numbers.number()),
        BFieldElement(numbers.number()),
        BFieldElement(numbers.number()),
    )
}

// A line of extension elements: a b, then new, from a base element, add sub mul scale inverse is_zero equals.
fn extension(numbers: &mut Numbers<'_>, counts: &mut Counts) {
    let a = take_element(numbers);
    let b = take_element(numbers);
    let got = [
        XFieldElement::new(a.0.0, a.1.0, a.2.0),
        XFieldElement::from(a.0),
        a + b,
        a - b,
        a * b,
        a * b.0,
        a.inverse_or_zero(),
    ];
    for (i, element) in got.iter().enumerate() {
        let wanted = take_element(numbers).words();
        let same = same_first(&element.words(), &wanted, wanted.len());
        counts.tally(BASE.len() + i, 0, same);
    }
    let tests = [a.is_zero(), a == b];
    for (i, test) in tests.iter().enumerate() {
        let same = same_first(&[u64::from(*test)], &[numbers.number()], 1);
        counts.tally(BASE.len() + got.len() + i, 0, same);
    }
}

// Runs the call that comes next, and answers whether there is one. It begins with the number of its kind, 1 or 2. The two numbers stand here alone: an
// enum would name them once more.
fn run_call(numbers: &mut Numbers<'_>, counts: &mut Counts) -> bool {
    match numbers.number() {
        1 => base(numbers, counts),
        2 => extension(numbers, counts),
        _ => return false,
    }
    true
}

// Runs the calls of a text, at most a hundred thousand of them.
fn run(text: &[u8]) -> Counts {
    let mut counts = Counts::new();
    let mut numbers = Numbers { rest: text };
    for _ in 0..100000 {
        if !run_call(&mut numbers, &mut counts) {
            break;
        }
    }
    counts
}

fn main(rt: HostRuntime) {
    // All at once, and not line by line: a last line that does not end is run too. What is past the buffer is not read.
    let mut buffer = [0; 131072];
    let n = vectors::read_full(&mut rt.stdin(), &mut buffer);
    let text = part_mut(&mut buffer, n);
    let counts = run(text);
    change_lines(text);
    let changed = run(text);
    for (call, name) in BASE.iter().chain(&EXTENSION).enumerate() {
        counts.print(&rt, name, call);
    }
    // The last word of a line is that of its last call.
    for (calls, first) in [(&BASE, 0), (&EXTENSION, BASE.len())] {
        let last = calls.len() - 1;
        let _ = print!(rt; "with the last word changed, ");
        changed.print(&rt, calls[last], first + last);
    }
    let x = XFieldElement::new(0, 1, 0);
    let [a, b, c] = (x * x * x).words();
    let _ = println!(rt; "X*X*X {a} {b} {c}");
}
