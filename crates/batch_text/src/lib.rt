// The text of settings and of jobs' heights, read byte by byte as it comes, in parts of any sizes; and the table of what each setting gives.
#![tactic(auto)]

ghost use Rattle.std.specs.Prelude.{◌≤◌, ◌≡◌, length, take, drop, Ok};
ghost use Rattle.text.specs.Put.{Put, HasRoom, Adds};
ghost use Rattle.batches.specs.Batches.{trial_all};
ghost use Rattle.words.specs.Refusals.{refusal_number};
ghost use Rattle.batch_text.specs.Sheet.{most_settings, most_jobs, max_words, Fits, Within, start_stage, takes};
ghost use Rattle.batch_text.specs.Table.{share_of, share_text, totals_line, refusal_line, setting_line, head_text, table_text, sheet_text, taken_text};
ghost use Rattle.batch_text.specs.Table.{too_many_text, fault_text, answer_text, max_line, max_answer};

use batches::Totals;
use numbers::{Answered, Fault, Reader, Sheet};
use text::Text;
use words::Refusal;

// More settings are not taken.
pub const MAX_SETTINGS: usize = 16;

// More jobs are not taken.
pub const MAX_JOBS: usize = 65536;

// No answer is longer.
pub const MAX_ANSWER: usize = 8192;

// The width of a column of the table.
const WIDTH: usize = 11;

// The numbers of a text of settings and jobs: so many settings and so many jobs.
#[derive(Clone, Copy)]
pub struct BatchSheet {
    pub settings: usize,
    pub jobs: usize,
}

// ---- the text
impl Sheet for BatchSheet {
    ghost room = { max_words };

    ghost Fits = { Fits };

    ghost takes = { takes };

    // A number more: a setting in the first line, else a job.
    fn take(self, line: u64, value: u64, words: &mut [u64]) -> Result<BatchSheet, Fault> {
        let settings = self.settings;
        let jobs = self.jobs;
        if line == 1 {
            if MAX_SETTINGS <= settings {
                return Err(Fault::TooMany(MAX_SETTINGS as u64));
            }
            words[settings] = value;
            return Ok(BatchSheet {
                settings: settings + 1,
                jobs,
            });
        }
        if MAX_JOBS <= jobs {
            return Err(Fault::TooMany(MAX_JOBS as u64));
        }
        words[MAX_SETTINGS + jobs] = value;
        Ok(BatchSheet {
            settings,
            jobs: jobs + 1,
        })
    }
}

// Before the first byte.
pub fn start() -> Reader<BatchSheet>
    ensures { Ok result ≡ start_stage }
{
    Reader::new(BatchSheet {
        settings: 0,
        jobs: 0,
    })
}

// ---- the table
// How many thousandths of all padded rows are padding.
#[tactic(auto, unfolding(crate::specs::Table::share_of))]
fn share(totals: Totals) -> u64
    requires { (totals.rows ≤ 137438953472) × (totals.padding ≤ 137438953472) }
    ensures { result ≡ share_of totals.rows totals.padding }
{
    let padded = totals.rows + totals.padding;
    (1000 * totals.padding).checked_div(padded).unwrap_or(0)
}

// Puts thousandths as a percentage, and ends the line.
fn put_share(text: &mut Text, thousandths: u64)
    requires { HasRoom text.old 64 }
    ensures { Adds text.old (share_text thousandths) text.new }
{
    text.put_column(5, thousandths / 10);
    text.put_str(".");
    text.put_column(1, thousandths % 10);
    text.put_str("%\n");
}

// Puts the line of a setting that is taken.
fn put_totals(text: &mut Text, setting: u64, totals: Totals)
    requires { HasRoom text.old max_line × ((totals.rows ≤ 137438953472) × (totals.padding ≤ 137438953472)) }
    ensures { Adds text.old (totals_line setting totals.count totals.rows totals.padding) text.new }
{
    text.put_column(WIDTH, setting);
    text.put_column(WIDTH, totals.count);
    text.put_column(WIDTH, totals.rows);
    text.put_column(WIDTH, totals.padding);
    put_share(text, share(totals));
}

// Puts the line of a setting that is refused, with the reason in words.
fn put_refusal(text: &mut Text, setting: u64, reason: Refusal)
    requires { HasRoom text.old max_line }
    ensures { Adds text.old (refusal_line setting (refusal_number reason)) text.new }
{
    text.put_column(WIDTH, setting);
    text.put_str("  refused ");
    text.put_column(1, u64::from(reason));
    match reason {
        Refusal::Shape => text.put_str(": a setting is a number of rows from 1 to 131072\n"),
        _ => text.put_str(": a job has more rows than the setting\n"),
    }
}

// Tries a setting, and puts its line.
fn put_setting(text: &mut Text, jobs: &[u64], setting: u64)
    requires { HasRoom text.old max_line }
    ensures { Adds text.old (setting_line setting (trial_all jobs.now setting)) text.new }
{
    match batches::try_setting(jobs, setting) {
        Ok(totals) => put_totals(text, setting, totals),
        Err(reason) => put_refusal(text, setting, reason),
    }
}

// Puts the number of jobs, and the names of the columns.
fn put_head(text: &mut Text, jobs: u64)
    requires { HasRoom text.old max_line }
    ensures { Adds text.old (head_text jobs) text.new }
{
    text.put_str("jobs ");
    text.put_column(1, jobs);
    text.put_str("\n    setting    batches       rows    padding   share\n");
}

// Tries each setting, and puts the table.
pub fn put_table(text: &mut Text, settings: &[u64], jobs: &[u64])
    requires { HasRoom text.old max_answer × (length settings.now ≤ most_settings) }
    ensures { Adds text.old (table_text settings.now jobs.now) text.new }
{
    put_head(text, jobs.len() as u64);
    for setting in settings {
        put_setting(text, jobs, *setting);
    }
}

impl BatchSheet {
    // The table, where there is a setting to try.
    fn put(self, text: &mut Text, words: &[u64])
        requires { (max_words ≤ length words.now) × (Fits self × HasRoom text.old max_answer) }
        ensures { Adds text.old (sheet_text (take self.settings words.now) (take self.jobs (drop most_settings words.now))) text.new }
    {
        if self.settings == 0 {
            return text.put_str("no setting in the first line\n");
        }
        let to = MAX_SETTINGS + self.jobs;
        put_table(text, &words[..self.settings], &words[MAX_SETTINGS..to])
    }
}

// The line of a text with more numbers than are taken.
// The most tells which they are, and the text is defined by it: for an enum in its place `Fault` would need a parameter, and each `Sheet` a type more.
fn put_too_many(text: &mut Text, most: u64)
    requires { HasRoom text.old max_answer }
    ensures { Adds text.old (too_many_text most) text.new }
{
    if most == MAX_SETTINGS as u64 {
        return text.put_str("too many settings: at most 16\n");
    }
    text.put_str("too many jobs: at most 65536\n");
}

// The line of what speaks against a text.
fn put_fault(text: &mut Text, fault: Fault)
    requires { HasRoom text.old max_answer }
    ensures { Adds text.old (fault_text fault) text.new }
{
    match fault {
        Fault::Malformed(line) => text.put_malformed(line),
        Fault::TooMany(most) => put_too_many(text, most),
    }
}

// What a text leads to that ended so.
// That there are words for all numbers is said here, in `BatchSheet::put` and in `put_answer`: a struct that keeps it would be longer than two of these clauses.
fn put_ended(text: &mut Text, ended: Result<Reader<BatchSheet>, Fault>, words: &[u64])
    requires { (max_words ≤ length words.now) × (HasRoom text.old max_answer × Within ended) }
    ensures { Adds text.old (taken_text ended words.now) text.new }
{
    match ended {
        Err(fault) => put_fault(text, fault),
        Ok(reader) => reader.sheet.put(text, words),
    }
}

impl Answered for BatchSheet {
    ghost longest = { max_answer };

    ghost answer = { answer_text };

    // The clauses stand here again: the check can't give this method those of its trait.
    fn put_answer(
        stage: Result<Reader<BatchSheet>, Fault>,
        words: &mut [u64],
        out: &mut [u8],
    ) -> usize
        requires { (max_words ≤ length words.old) × (max_answer ≤ length out.old) × Within stage }
        ensures { Put out.old 0 (answer_text stage words.old) out.new result }
    {
        let ended = numbers::end_number(stage, words);
        let mut text = Text::new(out);
        put_ended(&mut text, ended, words);
        text.len()
    }
}
