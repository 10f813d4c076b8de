// Extension: the sum over a table's CopyFlag 1 rows, so far at each row, stored in the aux words. All is judged before the first aux word is
// written.
#![tactic(auto)]

ghost use Rattle.std.specs.Prelude.{◌≡◌, true, ◌*◌, ◌≤◌, length};
ghost use Rattle.words.specs.Outcomes.{Leaves};
ghost use Rattle.table.specs.Columns.{main_width, row_at, row_count, all_reduced};
ghost use Rattle.table.specs.Challenges.{challenge_words, challenges_of};
ghost use Rattle.table.specs.Layouts.{challenges_in};
ghost use Rattle.sums.specs.RunningSum.{denominators_ok};
ghost use Rattle.sums.specs.LookupSum.{summand_of, summand_at};
ghost use Rattle.fill.specs.Extending.{extend_all};
ghost use Rattle.extend.specs.Extensions.{summands_in, Judged, extended_answer};

use sums::{Share, Summands};
use table::{Challenges, MainRow};
use words::Refusal;
use xfield::XFieldElement;

// The rows of a table, as summands: those with CopyFlag 1 count.
#[derive(Clone, Copy)]
struct Rows<'a> {
    table: &'a [u64],
    challenges: Challenges,
}

impl<'a> Rows<'a> {
    fn new(table: &'a [u64], challenges: &[u64]) -> Self
        requires { challenge_words ≤ length challenges.now }
        ensures table { result.table.now ≡ table.now }
        ensures challenges { challenges_in result.challenges ≡ challenges_of challenges.now }
    {
        Rows {
            table,
            challenges: Challenges::from_words(challenges),
        }
    }

    // Reasons 1, 8 and 9, in this order; no word is read where the shapes are wrong, and old aux words never. Where one pass finds nothing against
    // the rows, there is none; else each reason is asked for. To ask for each alone takes 5 to 9 percent longer on a table without a reason, since it
    // is then read twice (docs/DECISIONS.md). The rows come back, where there is no reason.
    #[tactic(auto, using(crate::proofs::Reasons::judge_steps))]
    fn judge(table: &'a [u64], aux: &[u64], challenges: &[u64]) -> Result<Rows<'a>, Refusal>
        ensures { Judged table.now aux.now challenges.now result }
    {
        if !table::have_shapes(table, aux, challenges) {
            return Err(Refusal::Shape);
        }
        let rows = Rows::new(table, challenges);
        if table::all_reduced(challenges) && rows.are_fine() {
            return Ok(rows);
        }
        if !table::are_reduced(table, challenges) {
            return Err(Refusal::Unreduced);
        }
        if !sums::denominators_ok(&rows) {
            return Err(Refusal::Flat);
        }
        Ok(rows)
    }
}

impl Summands for Rows<'_> {
    ghost count = { λ rows. row_count rows.table.now };

    ghost summand = { summands_in };

    fn count(&self) -> usize {
        self.table.len() / MainRow::WIDTH
    }

    // Of a row that does not count only CopyFlag is read.
    #[tactic(auto, unfolding(table::specs::Layouts::row_of, table::specs::Columns::row_at))]
    fn share(&self, i: usize) -> Option<Share> {
        if self.table[MainRow::WIDTH * i] != 1 {
            return None;
        }
        let row = MainRow::at(self.table, i);
        Some(Share {
            multiplicity: row.lookup_multiplicity,
            denominator: self.challenges.row_denominator(row),
        })
    }
}

impl Rows<'_> {
    // Yes: every word of the table is below p, and nothing is against the denominator of any row. One pass over the rows for both.
    fn are_fine(&self) -> bool
        requires { length self.now.table.now ≡ main_width * row_count self.now.table.now }
        ensures { result ≡ true → (all_reduced self.now.table.now ≡ true) × (denominators_ok (summands_in self.now) (row_count self.now.table.now) ≡ true) }
    {
        // By number, as `Summands` gives a row's share: with the rows as chunks, each would be cut and read by number both.
        (0..self.count()).all(|row| {
            table::all_reduced(&self.table[MainRow::WIDTH * row..MainRow::WIDTH * (row + 1)])
                && sums::denominator_ok(self, row)
        })
    }
}

// Each row's aux words become the sum so far, and the answer is the last sum, zero for no rows. It refuses wrong shapes, a word p or more in
// the table or the challenges, and a denominator of zero in a CopyFlag 1 row.
pub fn extend(table: &[u64], aux: &mut [u64], challenges: &[u64]) -> Result<XFieldElement, Refusal>
    ensures { Leaves (extend_all table.now aux.old challenges.now) (extended_answer result) aux.new }
{
    let rows = Rows::judge(table, aux, challenges)?;
    Ok(sums::write_sums(&rows, aux))
}
