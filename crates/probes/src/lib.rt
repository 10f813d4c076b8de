// C functions onto the insides of the library, for bench/ and for the comparison with the Rust in oracle/compare: the value of every
// constraint on a pair of rows, and element operations by the array. Each of these answers 0, or 1 where a lent array has not the length that it
// asks for; nothing is written then. `probe_chain` takes numbers alone, and answers a product. That they take words and answer numbers is the C interface.
#![tactic(auto)]

ghost use Rattle.std.specs.Prelude.{◌≡◌, map, ◌+◌, ◌*◌, ◌≤◌, length};
ghost use Rattle.std.proofs.lemmas.List.Edits.{sets};
ghost use Rattle.xfield.specs.Extension.{Ext, add_x, sub_x, mul_x};
ghost use Rattle.xfield.specs.XFieldElements.{ext_of};
ghost use Rattle.table.specs.Layouts.{row_of, sum_of, challenges_in};
ghost use Rattle.probes.specs.ExtensionProbes.{elements_fit, elementwise};
ghost use Rattle.probes.specs.Probes.{answered, written, words_of, constraints_fit, constraints_of, constraint_words};
ghost use Rattle.probes.specs.Probes.{products_fit, products_of, chain_of, inverses_fit, inverses_of, ext_inverses_fit, ExtInversesLeft};

use check_pairs::TRANSITION_COUNT;
use check_rows::{CONSISTENCY_COUNT, INITIAL_COUNT, TERMINAL_COUNT};
use field::BFieldElement;
use table::{AuxRow, Challenges, MainRow, RowPair};
use xfield::XFieldElement;

// ---- the forty constraints on a pair of rows
// Where each group but the first begins, and how many there are.
const CONSISTENCY_FROM: usize = INITIAL_COUNT;

const TRANSITION_FROM: usize = CONSISTENCY_FROM + CONSISTENCY_COUNT;

const TERMINAL_FROM: usize = TRANSITION_FROM + TRANSITION_COUNT;

const VALUES: usize = TERMINAL_FROM + TERMINAL_COUNT;

// Stores extension elements, from element `from` on of an array that holds such.
fn put_elements(words: &mut [u64], from: usize, elements: &[XFieldElement])
    requires { 3 * (from + length elements.now) ≤ length words.old }
    ensures { words.new ≡ sets words.old (3 * from) (words_of (map ext_of elements.now)) }
{
    for (i, element) in elements.iter().enumerate() {
        table::put_element(words, from + i, *element);
    }
}

fn put_all(values: &mut [u64], challenges: Challenges, pair: RowPair)
    requires { length values.old ≡ 120 }
    ensures { values.new ≡ words_of (constraints_of (challenges_in challenges) (row_of pair.upper) (row_of pair.lower) (sum_of pair.aux) (sum_of pair.aux_next)) }
{
    let initial = check_rows::initial_constraints(challenges, pair.upper, pair.aux);
    let consistency = check_rows::consistency_constraints(pair.upper);
    let transition = check_pairs::transition_constraints(challenges, pair);
    let terminal = check_rows::terminal_constraints(pair.upper);
    // Group by group: with one `for` over the four chained, which proves too, the check of this crate takes 3.4 GB, and none is to take more than 1.5.
    put_elements(values, 0, &initial);
    put_elements(values, CONSISTENCY_FROM, &consistency);
    put_elements(values, TRANSITION_FROM, &transition);
    put_elements(values, TERMINAL_FROM, &terminal);
}

// `rows` is an upper and a lower row, `aux` their sums. Three words a constraint: the initial one, fifteen consistency constraints and, at
// the end, two terminal ones on the upper row; before these, twenty-two transition constraints on both.
#[tactic(auto, unfolding(crate::specs::Probes::answered, crate::specs::Probes::written, crate::specs::Probes::constraints_fit))]
#[unsafe(no_mangle)]
pub extern "C" fn probe_constraints(
    rows: &[u64],
    aux: &[u64],
    challenges: &[u64],
    values: &mut [u64],
) -> u64
    ensures answer { result ≡ answered (constraints_fit rows.now aux.now challenges.now values.old) }
    ensures constraints { values.new ≡ written
        (constraints_fit rows.now aux.now challenges.now values.old)
        (constraint_words rows.now aux.now challenges.now) values.old }
{
    if rows.len() != 2 * MainRow::WIDTH
        || aux.len() != 2 * AuxRow::WIDTH
        || challenges.len() != Challenges::WIDTH
        || values.len() != VALUES * XFieldElement::WIDTH
    {
        return 1;
    }
    let pair = RowPair::at(rows, aux, 0);
    put_all(values, Challenges::from_words(challenges), pair);
    0
}

// ---- elements
#[tactic(auto, unfolding(crate::specs::Probes::answered, crate::specs::Probes::written, crate::specs::Probes::products_fit))]
#[unsafe(no_mangle)]
pub extern "C" fn probe_products(left: &[u64], right: &[u64], out: &mut [u64]) -> u64
    ensures answer { result ≡ answered (products_fit left.now right.now out.old) }
    ensures products { out.new ≡ written (products_fit left.now right.now out.old)
        (products_of left.now right.now) out.old }
{
    if left.len() != out.len() || right.len() != out.len() {
        return 1;
    }
    // By index, here and below: with `zip` of `iter_mut`, and with `as_chunks_mut`, which were tried, the goal `returns-clause-products` stays open, for
    // the invariant of such a loop has no name for `out`, and after it nothing is known of what was written.
    for (i, product) in out.iter_mut().enumerate() {
        *product = (BFieldElement(left[i]) * BFieldElement(right[i])).0;
    }
    0
}

// `start`, times `factor` as often as `times` says: each product waits for the one before.
#[tactic(auto, unfolding(crate::specs::Probes::chain_of))]
#[unsafe(no_mangle)]
pub extern "C" fn probe_chain(start: u64, factor: u64, times: u64) -> u64
    ensures { result ≡ chain_of start factor times }
{
    let mut x = BFieldElement(start);
    for _i in 0..times {
        x = x * BFieldElement(factor);
    }
    x.0
}

// The inverse of each word, 0 for 0.
#[tactic(auto, unfolding(crate::specs::Probes::answered, crate::specs::Probes::written, crate::specs::Probes::inverses_fit))]
#[unsafe(no_mangle)]
pub extern "C" fn probe_inverses(words: &[u64], out: &mut [u64]) -> u64
    ensures answer { result ≡ answered (inverses_fit words.now out.old) }
    ensures inverses { out.new ≡ written (inverses_fit words.now out.old)
        (inverses_of words.now) out.old }
{
    if words.len() != out.len() {
        return 1;
    }
    for (i, inverse) in out.iter_mut().enumerate() {
        *inverse = BFieldElement(words[i]).inverse_or_zero().0;
    }
    0
}

// The inverse of each extension element, three words each; zero where there is none.
#[tactic(auto, unfolding(crate::specs::Probes::answered, crate::specs::Probes::ExtInversesLeft, crate::specs::Probes::ext_inverses_fit))]
#[unsafe(no_mangle)]
pub extern "C" fn probe_ext_inverses(words: &[u64], out: &mut [u64]) -> u64
    ensures answer { result ≡ answered (ext_inverses_fit words.now out.old) }
    ensures inverses { ExtInversesLeft (ext_inverses_fit words.now out.old)
        words.now out.old out.new }
{
    if words.len() != out.len() || words.len() % XFieldElement::WIDTH != 0 {
        return 1;
    }
    for i in 0..words.len() / XFieldElement::WIDTH {
        table::put_element(out, i, table::element_at(words, i).inverse_or_zero());
    }
    0
}

// ---- sums, differences and products of extension elements, three words each
// An operation, element by element.
#[tactic(auto, unfolding(crate::specs::Probes::answered, crate::specs::Probes::written, crate::specs::Probes::products_fit, crate::specs::ExtensionProbes::elements_fit))]
fn combine_all<F: Fn(XFieldElement, XFieldElement) -> XFieldElement>(
    combine: F,
    left: &[u64],
    right: &[u64],
    out: &mut [u64],
) -> u64
    ghost operation: { Ext → Ext → Ext }
    requires callable { F.IsAlwaysCallable combine }
    requires combines { (x : XFieldElement) (y : XFieldElement) (r : XFieldElement) → F.post combine x y r
        → ext_of r ≡ operation (ext_of x) (ext_of y) }
    ensures answer { result ≡ answered (elements_fit left.now right.now out.old) }
    ensures elements { out.new ≡ written (elements_fit left.now right.now out.old)
        (elementwise operation left.now right.now) out.old }
{
    if left.len() != out.len()
        || right.len() != out.len()
        || left.len() % XFieldElement::WIDTH != 0
    {
        return 1;
    }
    for i in 0..left.len() / XFieldElement::WIDTH {
        let x = table::element_at(left, i);
        let y = table::element_at(right, i);
        table::put_element(out, i, combine(x, y));
    }
    0
}

#[unsafe(no_mangle)]
pub extern "C" fn probe_ext_sums(left: &[u64], right: &[u64], out: &mut [u64]) -> u64
    ensures answer { result ≡ answered (elements_fit left.now right.now out.old) }
    ensures sums { out.new ≡ written (elements_fit left.now right.now out.old)
        (elementwise add_x left.now right.now) out.old }
{
    combine_all(|x, y| x + y, left, right, out)
}

#[unsafe(no_mangle)]
pub extern "C" fn probe_ext_differences(left: &[u64], right: &[u64], out: &mut [u64]) -> u64
    ensures answer { result ≡ answered (elements_fit left.now right.now out.old) }
    ensures differences { out.new ≡ written (elements_fit left.now right.now out.old)
        (elementwise sub_x left.now right.now) out.old }
{
    combine_all(|x, y| x - y, left, right, out)
}

#[unsafe(no_mangle)]
pub extern "C" fn probe_ext_products(left: &[u64], right: &[u64], out: &mut [u64]) -> u64
    ensures answer { result ≡ answered (elements_fit left.now right.now out.old) }
    ensures products { out.new ≡ written (elements_fit left.now right.now out.old)
        (elementwise mul_x left.now right.now) out.old }
{
    combine_all(|x, y| x * y, left, right, out)
}
