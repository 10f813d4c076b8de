// The call `batches` as the C function makes it: the number of the documents is returned, and further answers go into `answers`.
// That refusals are numbers and answers words of a lent array is the C interface.
#![tactic(auto)]

ghost use Rattle.std.specs.Prelude.{◌≡◌};
ghost use Rattle.batches.specs.Batches.{batch_all};
ghost use Rattle.c_answers.specs.Exports.{lent_due, Exported};

// Answers: the number of batches and the padding.
#[tactic(auto, unfolding(c_answers::specs::Exports::lent_due))]
pub fn batches(jobs: &[u64], setting: u64, results: &mut [u64], answers: &mut [u64]) -> u64
    ensures answers { Exported 2 (batch_all jobs.now setting results.old).answer answers.old result answers.new }
    ensures results { results.new ≡ lent_due 2 answers.old results.old (batch_all jobs.now setting results.old).left }
{
    c_answers::answered(
        answers,
        &mut || {
            let batched = batches::batches(jobs, setting, results)?;
            Ok([batched.count, batched.padding])
        },
    )
}
