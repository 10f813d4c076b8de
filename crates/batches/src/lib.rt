// Jobs, each so many rows, are gathered in order into batches of at most a number of rows, the setting.
#![tactic(auto)]

ghost use Rattle.std.specs.Prelude.{◌≡◌, ◌+◌, ◌*◌, ◌-◌, ◌^◌, ◌≤◌, length, drop, Ok, IfOk};
ghost use Rattle.std.specs.Iterator.{YieldsFirst, item_count};
ghost use mathlib.Core.List.{◌∷◌, flat_map};
ghost use Rattle.std.proofs.lemmas.List.Edits.{sets};
ghost use Rattle.words.specs.Outcomes.{Leaves};
ghost use Rattle.words.specs.Refusals.{Fine};
ghost use Rattle.list_record.specs.Plan.{padded_height};
ghost use Rattle.batches.specs.Batches.{batch, batches_from, batches_of, some_above, batch_words};
ghost use Rattle.batches.specs.Batches.{setting_reason, batch_all, batched_answer, trial_all, trial_answer};
ghost use Rattle.batches.specs.Splitting.{total, Lawful};

use words::{MAX_JOBS, MAX_ROWS, Refusal};

// The words of a batch among the results: its jobs, its rows and its padded height.
pub const BATCH_WIDTH: usize = 3;

// A batch: how many jobs it takes, and their rows.
#[derive(Clone, Copy)]
pub struct Batch {
    pub jobs: usize,
    pub rows: u64,
}

impl Batch {
    // The batch that a job of so many rows opens, with those of the later jobs that join it.
    fn open(rows: u64, later: &[u64], setting: u64) -> Self
        requires { rows ≤ setting }
        ensures taken { result.jobs ≤ length later.now + 1 }
        ensures batches { batches_from setting (batch 1 rows) later.now ≡ result ∷ batches_of setting (drop (result.jobs - 1) later.now) }
        ensures not_empty { 1 ≤ result.jobs }
    {
        let mut batch = Batch { jobs: 1, rows };
        for height in later {
            if setting - batch.rows < *height {
                return batch;
            }
            batch.jobs += 1;
            batch.rows += *height;
        }
        batch
    }

    // What it lacks to its padded height.
    fn padding(self) -> u64
        requires { self.rows ≤ 2 ^ 62 }
        ensures { result ≡ padded_height self.rows - self.rows }
    {
        list_record::padded_height(self.rows) - self.rows
    }

    // Its words among the results.
    fn words(self) -> [u64; BATCH_WIDTH]
        requires { self.rows ≤ 2 ^ 62 }
        ensures { result ≡ batch_words self }
    {
        [
            self.jobs as u64,
            self.rows,
            list_record::padded_height(self.rows),
        ]
    }
}

// What a setting gives: the number of batches, all their rows, and what they lack to their padded heights.
#[derive(Clone, Copy)]
pub struct Totals {
    pub count: u64,
    pub rows: u64,
    pub padding: u64,
}

// The batches of the jobs that are left, one after the other. Nothing speaks against these jobs and the setting, so that no sum of rows passes a word.
// `batches` walks over a copy before it walks over the batches themselves.
#[derive(Clone, Copy)]
struct EachBatch<'a> {
    jobs: &'a [u64],
    setting: u64,
    ghost fine: { setting_reason jobs.now setting ≡ Fine },
}

impl Iterator for EachBatch<'_> {
    ghost use Rattle.batches.specs.Left.{batches_left};

    type Item = Batch;

    ghost next_gives = { YieldsFirst batches_left };

    ghost remaining = { item_count batches_left };

    fn next(&mut self) -> Option<Batch> {
        let (rows, later) = self.jobs.split_first()?;
        let batch = Batch::open(*rows, later, self.setting);
        self.jobs = &later[batch.jobs - 1..];
        Some(batch)
    }
}

// Whether a job is above the setting.
fn some_above(jobs: &[u64], setting: u64) -> bool
    ensures { result ≡ some_above setting jobs.now }
{
    jobs.iter().any(|height| setting < *height)
}

impl<'a> EachBatch<'a> {
    ghost use Rattle.batches.specs.Left.{Judged};

    // The batches of these jobs, or what speaks against the jobs or the setting.
    #[tactic(auto, unfolding(crate::specs::Batches::setting_reason))]
    fn new(jobs: &'a [u64], setting: u64) -> Result<Self, Refusal>
        ensures { Judged jobs.now setting result }
    {
        if setting == 0 || (MAX_ROWS as u64) < setting || MAX_JOBS < jobs.len() {
            return Err(Refusal::Shape);
        }
        if some_above(jobs, setting) {
            return Err(Refusal::JobAbove);
        }
        Ok(EachBatch { jobs, setting })
    }

    // The totals of the batches, none of which is written.
    fn tally(self) -> Totals
        ensures { trial_answer (Ok result) ≡ trial_all self.entry.jobs.now self.entry.setting }
    {
        let mut totals = Totals {
            count: 0,
            rows: 0,
            padding: 0,
        };
        for batch in self {
            totals.count += 1;
            totals.rows += batch.rows;
            totals.padding += batch.padding();
        }
        totals
    }

    // Writes all batches, which have places.
    fn write(self, results: &mut [u64])
        requires { 3 * length (batches_of self.setting self.jobs.now) ≤ length results.old }
        ensures { results.new ≡ sets results.old 0 (flat_map batch_words (batches_of self.entry.setting self.entry.jobs.now)) }
    {
        for (place, batch) in self.enumerate() {
            words::put_record(results, place, batch.words());
        }
    }
}

// What a setting gives for these jobs.
pub fn try_setting(jobs: &[u64], setting: u64) -> Result<Totals, Refusal>
    ensures { trial_answer result ≡ trial_all jobs.now setting }
{
    Ok(EachBatch::new(jobs, setting)?.tally())
}

// Gathers the jobs into batches and lists them in `results`, three words each; words after the last one stay.
pub fn batches(jobs: &[u64], setting: u64, results: &mut [u64]) -> Result<Totals, Refusal>
    ensures exact { Leaves (batch_all jobs.now setting results.old) (batched_answer result) results.new }
    ensures law { Lawful jobs.now setting result results.new }
    ensures rows { IfOk result (λ totals. totals.rows ≡ total jobs.now) }
{
    if results.len() % BATCH_WIDTH != 0 {
        return Err(Refusal::Shape);
    }
    let each = EachBatch::new(jobs, setting)?;
    let totals = each.tally();
    if ((results.len() / BATCH_WIDTH) as u64) < totals.count {
        return Err(Refusal::Short);
    }
    each.write(results);
    Ok(totals)
}
