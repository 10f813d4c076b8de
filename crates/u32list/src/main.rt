// u32list: reads fifteen challenges and a stored list from standard input, and writes the padded table, the last sum and the check's answer.
// `transcript` does all of it but the reading and the writing; where one of those fails, a line on standard error says so (`streams`).
#![tactic(auto)]

use std::io::{Read, Write};
use streams::Failure;

// Reads the input to its end, or to one byte more than is admitted, and writes the text.
fn run<R: Read, W: Write>(input: &mut R, output: &mut W) -> Result<(), Failure> {
    let mut bytes = transcript::input_room();
    let mut out = transcript::room();
    let n = streams::read_full(input, &mut bytes)?;
    if let Ok(length) = transcript::transcript(&bytes[..n], &mut out) {
        streams::write_all(output, &out[..length])?;
    }
    Ok(())
}

fn main(rt: HostRuntime) {
    let done = run(&mut rt.stdin(), &mut rt.stdout());
    streams::tell_unless_done(&mut rt.stderr(), done);
}
