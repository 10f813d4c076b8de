// u32batch: reads settings and jobs' heights from standard input, tries each setting, and writes a table of what it gives. `batch_text` does all of it
// but the reading and the writing; where one of those fails, a line on standard error says so (`streams`).
#![tactic(auto)]

use batch_text::{MAX_ANSWER, MAX_JOBS, MAX_SETTINGS};
use streams::Streams;

// 16 settings and 65,536 jobs.
fn main(rt: HostRuntime) {
    let mut words = [0u64; MAX_SETTINGS + MAX_JOBS];
    let mut out = [0u8; MAX_ANSWER];
    let mut streams = Streams {
        input: rt.stdin(),
        output: rt.stdout(),
        errors: rt.stderr(),
    };
    table_input::answer_or_tell(batch_text::start(), &mut streams, &mut words, &mut out);
}
