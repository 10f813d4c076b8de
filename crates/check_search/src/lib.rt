// The searches of the four groups of constraints, each for the first value that is not zero. Consistency asks nothing of the table, initial and
// terminal that it has a row (`Rows`), transition also for its sums and the challenges (`JudgedTable`). A contract says what is answered
// before any answer `next` that another search would give: what was found, or `next` where nothing was.
#![tactic(auto)]

ghost use Rattle.std.specs.Prelude.{◌≡◌, ◌∷◌, ◌*◌, ◌-◌, ◌≤◌, ◌<◌, length, map};
ghost use Rattle.words.specs.Answers.{Answer};
ghost use Rattle.xfield.specs.XFieldElements.{ext_of};
ghost use Rattle.table.specs.Columns.{aux_width, row_at, row_count};
ghost use Rattle.table.specs.Challenges.{challenge_words};
ghost use Rattle.table.specs.Layouts.{row_of, sum_of, challenges_in};
ghost use Rattle.air.specs.Constraints.{initial_constraints, consistency_constraints, transition_constraints};
ghost use Rattle.air.specs.Check.{consistency_at, transition_at, terminal_at, first_in, first_in_rows};
ghost use Rattle.check_search.specs.Nonzeros.{group_number, nonzero_answer};
ghost use Rattle.check_search.specs.Finds.{followed_by};

use table::{AuxRow, Challenges, MainRow, RowPair};
use xfield::XFieldElement;

// The groups of constraints, in the order in which they are searched: 0 to 3.
#[derive(Clone, Copy, PartialEq, Eq, Debug)]
pub enum Group {
    Initial,
    Consistency,
    Transition,
    Terminal,
}

// The number that texts and the C functions give.
impl From<Group> for u64 {
    ghost from_gives = { λ group n. n ≡ group_number group };

    fn from(group: Group) -> u64
        ensures { result ≡ group_number group }
    {
        group as u64
    }
}

// A constraint that is not zero: its group, its (upper) row, its index in the group, from 0, and its value there.
#[derive(Clone, Copy)]
pub struct Nonzero {
    pub group: Group,
    pub row: usize,
    pub index: usize,
    pub value: XFieldElement,
}

impl Nonzero {
    // As words: 1, which says that there is one, and then group, row, index and the three words of the value.
    pub fn words(self) -> [u64; 4 + XFieldElement::WIDTH]
        ensures { result ≡ 1 ∷ (nonzero_answer self).values }
    {
        let [a, b, c] = self.value.words();
        let group = u64::from(self.group);
        [1, group, self.row as u64, self.index as u64, a, b, c]
    }
}

// The first of a group's values at a row that is not zero.
fn first_nonzero(group: Group, row: usize, values: &[XFieldElement]) -> Option<Nonzero>
    ensures { (next : Answer) → followed_by result next ≡ first_in (group_number group) row 0 (map ext_of values.now) next }
{
    let index = values.iter().position(|value| !value.is_zero())?;
    Some(Nonzero {
        group,
        row,
        index,
        value: values[index],
    })
}

// Consistency, row by row. A row that gets a yes from the test is passed; any other is evaluated.
pub fn consistency(table: &[u64]) -> Option<Nonzero>
    ensures { (next : Answer) → followed_by result next ≡ first_in_rows (consistency_at table.now) 1 0 (row_count table.now) next }
{
    'found: {
        'rows: for row in 0..table.len() / MainRow::WIDTH {
            let current = MainRow::at(table, row);
            if check_plain::is_plain_row(current) {
                continue 'rows;
            }
            let values = check_rows::consistency_constraints(current);
            for (index, value) in values.iter().enumerate() {
                if !value.is_zero() {
                    break 'found Some(Nonzero {
                        group: Group::Consistency,
                        row,
                        index,
                        value: *value,
                    });
                }
            }
        }
        None
    }
}

// A table that has a row.
#[derive(Clone, Copy)]
pub struct Rows<'a> {
    pub table: &'a [u64],
    ghost some_row: { 0 < row_count table.now },
}

impl Rows<'_> {
    // Initial, on row 0, with the sum of row 0.
    pub fn initial(&self, weights: Challenges, sum: AuxRow) -> Option<Nonzero>
        ensures { (next : Answer) → followed_by result next ≡ first_in 0 0 0 (initial_constraints (challenges_in weights) (row_at self.now.table.now 0) (sum_of sum)) next }
    {
        let values = check_rows::initial_constraints(weights, MainRow::at(self.table, 0), sum);
        first_nonzero(Group::Initial, 0, &values)
    }

    // Terminal, on the last row.
    pub fn terminal(&self) -> Option<Nonzero>
        ensures { (next : Answer) → followed_by result next ≡ first_in_rows (terminal_at self.now.table.now) 3 (row_count self.now.table.now - 1) 1 next }
    {
        let last = self.table.len() / MainRow::WIDTH - 1;
        let values = check_rows::terminal_constraints(MainRow::at(self.table, last));
        first_nonzero(Group::Terminal, last, &values)
    }
}

// Such a table with the sum of each row, and the challenges. Apart from `Rows`, so that no search asks for arrays that it does not read. The
// challenges are words, as the definitions of the search have them (`transition_at`, `first_nonzero`): with `Challenges` each clause would also
// have to say which words they are made of.
#[derive(Clone, Copy)]
pub struct JudgedTable<'a> {
    pub rows: Rows<'a>,
    pub aux: &'a [u64],
    pub challenges: &'a [u64],
    ghost aux_long: { aux_width * row_count rows.table.now ≤ length aux.now },
    ghost challenges_long: { challenge_words ≤ length challenges.now },
}

impl JudgedTable<'_> {
    // Transition, pair by pair. A pair is passed or evaluated as a row is.
    pub fn transition(&self) -> Option<Nonzero>
        ensures { (next : Answer) → followed_by result next ≡ first_in_rows (transition_at self.now.rows.table.now self.now.aux.now self.now.challenges.now) 2 0 (row_count self.now.rows.table.now - 1) next }
    {
        let table = self.rows.table;
        let aux = self.aux;
        let weights = Challenges::from_words(self.challenges);
        let pairs = table.len() / MainRow::WIDTH - 1;
        'found: {
            'pairs: for upper in 0..pairs {
                let pair = RowPair::at(table, aux, upper);
                if check_plain::is_plain_pair(weights, pair) {
                    continue 'pairs;
                }
                let values = check_pairs::transition_constraints(weights, pair);
                for (index, value) in values.iter().enumerate() {
                    if !value.is_zero() {
                        break 'found Some(Nonzero {
                            group: Group::Transition,
                            row: upper,
                            index,
                            value: *value,
                        });
                    }
                }
            }
            None
        }
    }
}
