// Filling and padding the U32 table.
#![tactic(auto)]

ghost use Rattle.std.specs.Prelude.{◌≡◌, ◌*◌, ◌≤◌, length};
ghost use Rattle.words.specs.Outcomes.{Leaves, completed_answer};
ghost use Rattle.words.specs.Refusals.{Fine};
ghost use Rattle.list.specs.Lists.{judge_list};
ghost use Rattle.list.specs.Heights.{list_height};
ghost use Rattle.list.specs.Lent.{counts_in, held_in};
ghost use Rattle.table.specs.Columns.{main_width};
ghost use Rattle.table.specs.Layouts.{row_of};
ghost use Rattle.fill.specs.Filling.{filled, fill_all, filled_answer};
ghost use Rattle.fill.specs.Padding.{last_filled, padding_row, pad_all};

use field::BFieldElement;
use isa::Opcode;
use list::{Copied, LentList, UsedPlaces};
use table::MainRow;
use words::Refusal;

// Fills the sections of a list that is judged fine, one after the other from row 0 on. Every entry was admitted, so each has a section.
fn fill_sections(places: &UsedPlaces, table: &mut [u64])
    requires fine { judge_list (counts_in places.now.list) ≡ Fine }
    requires room { main_width * list_height (counts_in places.now.list) ≤ length table.old }
    ensures { table.new ≡ filled (counts_in places.now.list) table.old }
{
    let list = places.list;
    let mut row: usize = 0;
    // By place, and not by chunks of the keys: a chunk would be cut and then be read at its place 0.
    for place in 0..list.sizes.used {
        let entry = list::entry_at(list.keys, place);
        fill_sections::fill_entry(table, row, entry, list.multiplicities[place]);
        row += entry.table_height_contribution() as usize;
    }
}

// Fills the sections of the list's counted keys, in list order, from row 0 on. The answer is the height; later rows keep their words. A key whose
// multiplicity is 0 has no section and is not examined. It refuses a table or list of the wrong shape, a hold that is open at any used place, a
// counted key that is not admitted or counted too often, and a table with fewer rows than the height.
#[tactic(auto, using(crate::proofs::Fillings::refused_steps))]
pub fn fill(list: &LentList, table: &mut [u64]) -> Result<u64, Refusal>
    ensures { Leaves (fill_all (held_in list.now) table.old) (filled_answer result) table.new }
{
    if !MainRow::has_shape(table) {
        return Err(Refusal::Shape);
    }
    // Before the copy is made: what they refuse needs none.
    list.closed()?;
    let mut counted = Copied::none();
    let height = list.judge_and_gather(&mut counted)?;
    if ((table.len() / MainRow::WIDTH) as u64) < height {
        return Err(Refusal::Short);
    }
    fill_sections(&counted.lent(), table);
    Ok(height)
}

// What counts as the last filled row where none is filled: zeros, with CI split.
const NO_ROW: MainRow = MainRow {
    copy_flag: BFieldElement::ZERO,
    bits: BFieldElement::ZERO,
    bits_minus_33_inv: BFieldElement::ZERO,
    ci: BFieldElement(Opcode::Split as u64),
    lhs: BFieldElement::ZERO,
    lhs_inv: BFieldElement::ZERO,
    rhs: BFieldElement::ZERO,
    rhs_inv: BFieldElement::ZERO,
    result: BFieldElement::ZERO,
    lookup_multiplicity: BFieldElement::ZERO,
};

// The last filled row; with none filled, `NO_ROW`.
#[tactic(auto, using(crate::proofs::Paddings::last_row), unfolding(table::specs::Layouts::row_of))]
fn last_filled(table: &[u64], filled: usize) -> MainRow
    requires { main_width * filled ≤ length table.now }
    ensures { row_of result ≡ last_filled table.now filled }
{
    match filled.checked_sub(1) {
        Some(last) => MainRow::at(table, last),
        None => NO_ROW,
    }
}

// The padding row after a last filled row: CI, LHS, LhsInv and Result are kept, but Result is 2 after lt.
#[tactic(auto, unfolding(table::specs::Layouts::row_of, crate::specs::Padding::padding_row))]
fn padding_row(last: MainRow) -> MainRow
    ensures { row_of result ≡ padding_row (row_of last) }
{
    let result = if last.ci.0 == Opcode::Lt as u64 {
        BFieldElement(2)
    } else {
        last.result
    };
    MainRow {
        bits_minus_33_inv: fill_sections::bits_minus_33_inverse(0),
        ci: last.ci,
        lhs: last.lhs,
        lhs_inv: last.lhs_inv,
        result,
        ..NO_ROW
    }
}

// Every row from `filled` on becomes the padding row. It refuses a table of the wrong shape, a filled count above the rows, and a last
// filled row with a word p or more.
#[tactic(auto, using(crate::proofs::Paddings::pad_steps))]
pub fn pad(table: &mut [u64], filled: usize) -> Result<(), Refusal>
    ensures { Leaves (pad_all table.old filled) (completed_answer result) table.new }
{
    if !MainRow::has_shape(table) {
        return Err(Refusal::Shape);
    }
    let rows = table.len() / MainRow::WIDTH;
    if rows < filled {
        return Err(Refusal::Short);
    }
    let last = last_filled(table, filled);
    let padding = padding_row(last);
    if !table::all_reduced(&last.words()) {
        return Err(Refusal::Unreduced);
    }
    for row in filled..rows {
        padding.put(table, row);
    }
    Ok(())
}
