// Filling the section of one entry. A row's Result is known only after the row below it, so the section's end is reached first.
#![tactic(auto)]

ghost use Rattle.std.specs.Prelude.{◌≡◌, [], ◌+◌, ◌*◌, ◌≤◌, ◌<◌, get_or, length};
ghost use Rattle.std.proofs.lemmas.List.Edits.{sets};
ghost use Rattle.isa.specs.Entries.{height};
ghost use Rattle.table.specs.Columns.{main_width};
ghost use Rattle.table.specs.Layouts.{row_of};
ghost use Rattle.fill_sections.specs.Sections.{bits_minus33_inverse, bits_minus33_inverses, section_row, next_pending, top_result, section, section_words};
ghost use Rattle.fill_sections.specs.PendingRows.{pending_of, rows_left, section_of};

mod operand;

use field::BFieldElement;
use fill_results::ResultRow;
use isa::{Opcode, U32TableEntry};
use operand::Operand;
use table::MainRow;

// The inverses of Bits − 33 for Bits from 0 to 32.
static BITS_MINUS_33_INVERSES: [u64; 33] = [
    15651782846776010939,
    576460752169205760,
    7140675123644355221,
    614891468980486144,
    8269230100082399868,
    8564559746513914149,
    4782489203181558898,
    3547450782579727754,
    4427218576659500237,
    768614336225607680,
    7218291157597011256,
    14254302235456724248,
    11419412995351885532,
    922337203470729216,
    7767050134490351293,
    7173733804772338347,
    1085102592318504960,
    1152921504338411520,
    1229782937960972288,
    17129119493027828298,
    7094901565159455508,
    1537228672451215360,
    10061860401498864175,
    1844674406941458432,
    14347467609544676694,
    2305843008676823040,
    15811494916641072275,
    3074457344902430720,
    3689348813882916864,
    4611686017353646080,
    6148914689804861440,
    9223372034707292160,
    18446744069414584320,
];

// The inverse of Bits − 33, looked up: the number at this place of the table of the definition, which is the inverse.
pub fn bits_minus_33_inverse(bits: u64) -> BFieldElement
    requires { bits < 33 }
    ensures stored { result.0 ≡ get_or bits_minus33_inverses bits 0 }
    ensures inverse { result.0 ≡ bits_minus33_inverse bits }
{
    BFieldElement(BITS_MINUS_33_INVERSES[bits as usize])
}

// A row whose Result is not known yet.
#[derive(Clone, Copy)]
struct PendingRow {
    copy_flag: u64,
    bits: u64,
    ci: u64,
    lhs: Operand,
    rhs: Operand,
    multiplicity: u64,
}

impl PendingRow {
    // The row below: the operands are halved, but LHS of pow.
    fn next(self) -> Self
        requires { self.bits < 33 }
        ensures { pending_of result ≡ next_pending (pending_of self) }
    {
        let lhs = if self.ci == Opcode::Pow as u64 {
            self.lhs
        } else {
            self.lhs.half()
        };
        PendingRow {
            copy_flag: 0,
            bits: self.bits + 1,
            lhs,
            rhs: self.rhs.half(),
            multiplicity: 0,
            ..self
        }
    }

    // The row, once its Result is known.
    #[tactic(auto, unfolding(table::specs::Layouts::row_of))]
    fn row(self, res: u64) -> MainRow
        requires { self.bits < 33 }
        ensures { row_of result ≡ section_row (pending_of self) res }
    {
        MainRow {
            copy_flag: BFieldElement(self.copy_flag),
            bits: BFieldElement(self.bits),
            bits_minus_33_inv: bits_minus_33_inverse(self.bits),
            ci: BFieldElement(self.ci),
            lhs: BFieldElement(self.lhs.value),
            lhs_inv: self.lhs.inverse,
            rhs: BFieldElement(self.rhs.value),
            rhs_inv: self.rhs.inverse,
            result: BFieldElement(res),
            lookup_multiplicity: BFieldElement(self.multiplicity),
        }
    }

    // Fills a section's rows from `row`, which is this one, to its end, the end row first, and answers the Result of the first of them: each Result
    // is carried up from the row below. The rows that are left, and so the bits of the operands, get fewer.
    #[tactic(auto, using(crate::proofs::PendingRows::left_at_least))]
    fn fill_section(self, table: &mut [u64], row: usize) -> Option<u64>
        requires pending_in_bounds { main_width * (row + rows_left self) ≤ length table.old }
        requires pending_bound { self.bits + rows_left self ≤ 33 }
        ensures value { result ≡ top_result (section_of self) }
        ensures table_after { table.new ≡ sets table.old (main_width * row) (section_words (section_of self)) }
    {
        let words = ResultRow {
            copy_flag: self.copy_flag,
            bits: self.bits,
            ci: self.ci,
            lhs: self.lhs.value,
            rhs: self.rhs.value,
        };
        if fill_results::is_end(words.ci, words.lhs, words.rhs) {
            let res = words.ending()?;
            self.row(res).put(table, row);
            return Some(res);
        }
        let below = self.next().fill_section(table, row + 1)?;
        let res = words.carry(below)?;
        self.row(res).put(table, row);
        Some(res)
    }
}

// Fills the section of an entry, from `row` on.
#[tactic(auto, using(crate::proofs::Sections::section_height))]
pub fn fill_entry(table: &mut [u64], row: usize, e: U32TableEntry, multiplicity: u64) -> Option<u64>
    requires e_in_bounds { main_width * (row + height e) ≤ length table.old }
    requires e_bound { height e ≤ 33 }
    ensures value { result ≡ top_result (section e multiplicity) }
    ensures table_after { table.new ≡ sets table.old (main_width * row) (section_words (section e multiplicity)) }
{
    let first = PendingRow {
        copy_flag: 1,
        bits: 0,
        ci: e.opcode,
        lhs: Operand::new(e.left_operand),
        rhs: Operand::new(e.right_operand),
        multiplicity,
    };
    first.fill_section(table, row)
}
