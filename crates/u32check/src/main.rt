// u32check: reads the text of a table that anyone may have made from standard input, sums and checks the table, and writes the check's answer.
// `table_text` does all of it but the reading and the writing; where one of those fails, a line on standard error says so (`streams`).
#![tactic(auto)]

use streams::Streams;
use table_text::MAX_ANSWER;

fn main(rt: HostRuntime) {
    let mut words = table_text::room();
    let mut out = [0u8; MAX_ANSWER];
    let mut streams = Streams {
        input: rt.stdin(),
        output: rt.stdout(),
        errors: rt.stderr(),
    };
    table_input::answer_or_tell(table_text::start(), &mut streams, &mut words, &mut out);
}
