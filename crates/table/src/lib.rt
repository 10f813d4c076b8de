// The rows of the U32 table and its challenges, as types over the flat words that are lent.
#![tactic(auto)]

ghost use Rattle.std.specs.Prelude.{◌≡◌, ◌&&◌, ◌+◌, ◌*◌, ◌≤◌, length};
ghost use Rattle.std.proofs.lemmas.List.Edits.{sets};
ghost use Rattle.xfield.specs.Extension.{words_x};
ghost use Rattle.xfield.specs.XFieldElements.{ext_of};
ghost use Rattle.table.specs.Columns.{main_width, aux_width, row_at, element_at, aux_at, table_shape, aux_shape, all_reduced};
ghost use Rattle.table.specs.Challenges.{challenge_words, challenges_of, challenges_shape, denominator, row_denominator};
ghost use Rattle.table.specs.Layouts.{row_of, sum_of, challenges_in};
ghost use Rattle.table.specs.RowWords.{row_words};

use field::BFieldElement;
use words::MAX_ROWS;
use xfield::XFieldElement;

// Every word is below p: ten at a time, up to the first ten with a word that is not, or to the last ten; then the few that are left. What stands behind
// such a ten is not read.
pub fn all_reduced(words: &[u64]) -> bool
    ensures { result ≡ all_reduced words.now }
{
    let mut tens = words.chunks_exact(MainRow::WIDTH);
    let rest = tens.remainder();
    tens.all(|ten| are_ten_reduced(ten)) && are_ten_reduced(rest)
}

// Every word of ten, or of fewer, is below p. `fold` with `&` takes half the time of `all`, which may leave at each word.
fn are_ten_reduced(ten: &[u64]) -> bool
    ensures { result ≡ all_reduced ten.now }
{
    ten.iter()
        .fold(true, |all, word| all & (*word < BFieldElement::P))
}

// A row of the main table: its ten columns.
#[derive(Clone, Copy)]
pub struct MainRow {
    pub copy_flag: BFieldElement,
    pub bits: BFieldElement,
    pub bits_minus_33_inv: BFieldElement,
    pub ci: BFieldElement,
    pub lhs: BFieldElement,
    pub lhs_inv: BFieldElement,
    pub rhs: BFieldElement,
    pub rhs_inv: BFieldElement,
    pub result: BFieldElement,
    pub lookup_multiplicity: BFieldElement,
}

impl MainRow {
    pub const WIDTH: usize = 10;

    // A table of whole rows, and not too many.
    #[tactic(auto, unfolding(crate::specs::Columns::table_shape))]
    pub fn has_shape(table: &[u64]) -> bool
        ensures { result ≡ table_shape table.now }
    {
        table.len() % Self::WIDTH == 0 && table.len() / Self::WIDTH <= MAX_ROWS
    }

    // Row i of a table's words.
    #[tactic(auto, unfolding(crate::specs::Columns::row_at, crate::specs::Layouts::row_of))]
    pub fn at(table: &[u64], i: usize) -> Self
        requires { main_width * i + main_width ≤ length table.now }
        ensures { row_of result ≡ row_at table.now i }
    {
        let [
            copy_flag,
            bits,
            bits_minus_33_inv,
            ci,
            lhs,
            lhs_inv,
            rhs,
            rhs_inv,
            result,
            lookup_multiplicity,
        ]: [BFieldElement; Self::WIDTH] = words::record_at(table, i).map(BFieldElement);
        MainRow {
            copy_flag,
            bits,
            bits_minus_33_inv,
            ci,
            lhs,
            lhs_inv,
            rhs,
            rhs_inv,
            result,
            lookup_multiplicity,
        }
    }

    // The row's words, in the order of the columns.
    #[tactic(auto, unfolding(crate::specs::Layouts::row_of))]
    pub fn words(self) -> [u64; MainRow::WIDTH]
        ensures { result ≡ row_words (row_of self) }
    {
        [
            self.copy_flag.0,
            self.bits.0,
            self.bits_minus_33_inv.0,
            self.ci.0,
            self.lhs.0,
            self.lhs_inv.0,
            self.rhs.0,
            self.rhs_inv.0,
            self.result.0,
            self.lookup_multiplicity.0,
        ]
    }

    // Stores the row as row i of a table's words.
    pub fn put(self, table: &mut [u64], i: usize)
        requires { main_width * i + main_width ≤ length table.old }
        ensures { table.new ≡ sets table.old (main_width * i) (row_words (row_of self)) }
    {
        words::put_record(table, i, self.words());
    }
}

// Element i of words that hold extension elements.
#[tactic(auto, unfolding(crate::specs::Columns::element_at))]
pub fn element_at(words: &[u64], i: usize) -> XFieldElement
    requires { 3 * i + 3 ≤ length words.now }
    ensures { ext_of result ≡ element_at words.now i }
{
    let [a, b, c]: [u64; XFieldElement::WIDTH] = words::record_at(words, i);
    XFieldElement(BFieldElement(a), BFieldElement(b), BFieldElement(c))
}

// Stores an extension element as element i of such words.
pub fn put_element(words: &mut [u64], i: usize, element: XFieldElement)
    requires { 3 * i + 3 ≤ length words.old }
    ensures { words.new ≡ sets words.old (3 * i) (words_x (ext_of element)) }
{
    words::put_record(words, i, element.words());
}

// A row of the aux table: the sum so far, in one column of an extension element.
#[derive(Clone, Copy)]
pub struct AuxRow {
    pub lookup_server_log_derivative: XFieldElement,
}

impl AuxRow {
    pub const WIDTH: usize = XFieldElement::WIDTH;

    // As many rows as the table has.
    #[tactic(auto, unfolding(crate::specs::Columns::aux_shape))]
    pub fn has_shape(table: &[u64], aux: &[u64]) -> bool
        ensures { result ≡ aux_shape table.now aux.now }
    {
        aux.len() == Self::WIDTH * (table.len() / MainRow::WIDTH)
    }

    // Row i of the aux words.
    pub fn at(aux: &[u64], i: usize) -> Self
        requires { aux_width * i + aux_width ≤ length aux.now }
        ensures { sum_of result ≡ aux_at aux.now i }
    {
        AuxRow {
            lookup_server_log_derivative: element_at(aux, i),
        }
    }
}

// A row and the row below it, with the aux rows of both.
#[derive(Clone, Copy)]
pub struct RowPair {
    pub upper: MainRow,
    pub lower: MainRow,
    pub aux: AuxRow,
    pub aux_next: AuxRow,
}

impl RowPair {
    // Rows i and i + 1 of a table's words and of its aux words.
    pub fn at(table: &[u64], aux: &[u64], i: usize) -> Self
        requires rows { main_width * (i + 1) + main_width ≤ length table.now }
        requires sums { aux_width * (i + 1) + aux_width ≤ length aux.now }
        ensures upper { row_of result.upper ≡ row_at table.now i }
        ensures lower { row_of result.lower ≡ row_at table.now (i + 1) }
        ensures sum { sum_of result.aux ≡ aux_at aux.now i }
        ensures sum_next { sum_of result.aux_next ≡ aux_at aux.now (i + 1) }
    {
        RowPair {
            upper: MainRow::at(table, i),
            lower: MainRow::at(table, i + 1),
            aux: AuxRow::at(aux, i),
            aux_next: AuxRow::at(aux, i + 1),
        }
    }
}

// The challenges of the U32 table: five extension elements.
#[derive(Clone, Copy)]
pub struct Challenges {
    pub u32_indeterminate: XFieldElement,
    pub u32_lhs_weight: XFieldElement,
    pub u32_rhs_weight: XFieldElement,
    pub u32_ci_weight: XFieldElement,
    pub u32_result_weight: XFieldElement,
}

impl Challenges {
    pub const WIDTH: usize = 5 * XFieldElement::WIDTH;

    #[tactic(auto, unfolding(crate::specs::Challenges::challenges_shape))]
    pub fn has_shape(words: &[u64]) -> bool
        ensures { result ≡ challenges_shape words.now }
    {
        words.len() == Self::WIDTH
    }

    // No `From`, which cannot require that there are enough words, and no `TryFrom`, which could fail.
    #[tactic(auto, unfolding(crate::specs::Challenges::challenges_of))]
    pub fn from_words(words: &[u64]) -> Self
        requires { challenge_words ≤ length words.now }
        ensures { challenges_in result ≡ challenges_of words.now }
    {
        Challenges {
            u32_indeterminate: element_at(words, 0),
            u32_lhs_weight: element_at(words, 1),
            u32_rhs_weight: element_at(words, 2),
            u32_ci_weight: element_at(words, 3),
            u32_result_weight: element_at(words, 4),
        }
    }

    // U32Indeterminate minus the compressed row of four words.
    #[tactic(auto, unfolding(crate::specs::Challenges::denominator, crate::specs::Challenges::compressed_row))]
    pub fn denominator(
        self,
        lhs: BFieldElement,
        rhs: BFieldElement,
        ci: BFieldElement,
        res: BFieldElement,
    ) -> XFieldElement
        ensures { ext_of result ≡ denominator (challenges_in self) lhs.0 rhs.0 ci.0 res.0 }
    {
        let compressed_row = self.u32_lhs_weight * lhs
            + self.u32_rhs_weight * rhs
            + self.u32_ci_weight * ci
            + self.u32_result_weight * res;
        self.u32_indeterminate - compressed_row
    }

    // The denominator of a row. Inlined: out of line, `check` and `extend` would store each row before they call it.
    #[inline(always)]
    #[tactic(auto, unfolding(crate::specs::Layouts::row_of))]
    pub fn row_denominator(self, row: MainRow) -> XFieldElement
        ensures { ext_of result ≡ row_denominator (challenges_in self) (row_of row) }
    {
        self.denominator(row.lhs, row.rhs, row.ci, row.result)
    }
}

// Whole rows and not too many, three aux words a row, fifteen challenge words. Lent one by one, since `extend` writes aux and the check none of
// the three: a struct would be made for this test alone.
pub fn have_shapes(table: &[u64], aux: &[u64], challenges: &[u64]) -> bool
    ensures { result ≡ (table_shape table.now && (aux_shape table.now aux.now && challenges_shape challenges.now)) }
{
    MainRow::has_shape(table)
        && (AuxRow::has_shape(table, aux) && Challenges::has_shape(challenges))
}

// Every word of two arrays is below p.
pub fn are_reduced(first: &[u64], second: &[u64]) -> bool
    ensures { result ≡ (all_reduced first.now && all_reduced second.now) }
{
    all_reduced(first) && all_reduced(second)
}
