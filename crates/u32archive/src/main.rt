// u32archive: `u32archive pack` reads the text of a table from standard input and writes its archive; `u32archive unpack` reads an archive and prints
// its rows, each with its sum. What is refused is said on standard error, and then nothing is written to standard output. `archive_text` does all of it
// but the reading and the writing; where one of those fails, a line on standard error says so (`streams`).
#![tactic(auto)]

ghost use Rattle.std.specs.Prelude.{◌*◌, ◌≤◌, length};
ghost use Rattle.table.specs.Columns.{row_count};
ghost use Rattle.table_text.specs.TableText.{max_words, most_rows};
ghost use Rattle.archive_text.specs.Packing.{max_archive};

use archive_text::{MAX_ROW_LINE, TABLE_WORDS, Task};
use std::env::{Env, FillError};
use std::io::{Read, Write};
use streams::{Failure, Streams};
use table::{AuxRow, MainRow};
use table_text::MAX_ANSWER;

// So many rows are printed at a time: their lines fit a buffer of 65,536 bytes.
const PART_ROWS: usize = 65536 / MAX_ROW_LINE;

// Room for the words of a text or of a table, for the sums of its rows, and for the bytes of its archive.
// A `Lent` in it was tried: the borrow checker does not cover a call that lends it beside `bytes`, nor one that lends a part of its words beside its sums.
#[derive(Drop)]
struct Room<'a> {
    words: &'a mut [u64],
    aux: &'a mut [u64],
    bytes: &'a mut [u8],
    ghost enough: { (max_words ≤ length words.now) × (3 * most_rows ≤ length aux.now) × (max_archive ≤ length bytes.now) },
}

// Reads the text of a table and writes the archive.
fn pack<R: Read, W: Write, E: Write>(
    streams: &mut Streams<R, W, E>,
    room: &mut Room,
) -> Result<(), Failure> {
    let stage = table_input::read_text(table_text::start(), &mut streams.input, room.words)?;
    match archive_text::pack(stage, room.words, room.aux, room.bytes) {
        Err(n) => streams::write_error(&mut streams.errors, &room.bytes[..n]),
        Ok(n) => streams::write_all(&mut streams.output, &room.bytes[..n])?,
    }
    Ok(())
}

// Prints rows, each with its sum.
// No `?`: after a part that could not be written the next is tried, as the program always did: a failure that passes costs no more than its part.
fn print_rows<R, W: Write, E: Write>(streams: &mut Streams<R, W, E>, table: &[u64], aux: &[u64])
    requires { 3 * row_count table.now ≤ length aux.now }
{
    let mut out = io::large_buffer();
    let parts = table.chunks(MainRow::WIDTH * PART_ROWS);
    let sums = aux.chunks(AuxRow::WIDTH * PART_ROWS);
    for (part, sums) in parts.zip(sums) {
        let n = archive_text::put_rows(part, sums, &mut out);
        streams::write_or_tell(&mut streams.output, &mut streams.errors, &out[..n]);
    }
}

// Restores an archive and prints its rows.
fn unpack_bytes<R, W: Write, E: Write>(
    streams: &mut Streams<R, W, E>,
    bytes: &[u8],
    table: &mut [u64],
    aux: &mut [u64],
)
    requires { (10 * most_rows ≤ length table.old) × (3 * most_rows ≤ length aux.old) }
{
    let mut line = [0u8; MAX_ANSWER];
    match archive_text::unpack(bytes, table, aux, &mut line) {
        Err(n) => streams::write_error(&mut streams.errors, &line[..n]),
        Ok(rows) => print_rows(
            streams,
            &table[..MainRow::WIDTH * rows],
            &aux[..AuxRow::WIDTH * rows],
        ),
    }
}

// Reads an archive and prints its rows.
fn unpack<R: Read, W: Write, E: Write>(
    streams: &mut Streams<R, W, E>,
    room: &mut Room,
) -> Result<(), Failure> {
    let n = streams::read_full(&mut streams.input, room.bytes)?;
    unpack_bytes(
        streams,
        &room.bytes[..n],
        &mut room.words[..TABLE_WORDS],
        room.aux,
    );
    Ok(())
}

// What the arguments ask for: there is one.
fn asked<V: Env>(environment: &V) -> Option<Task> {
    let mut argument = [0u8; 8];
    let Err(FillError::NotPresent) = environment.arg(2, &mut argument) else {
        return None;
    };
    let n = environment.arg(1, &mut argument).ok()?;
    archive_text::asked(&argument[..n])
}

fn run<R: Read, W: Write, E: Write>(
    task: Option<Task>,
    streams: &mut Streams<R, W, E>,
    room: &mut Room,
) -> Result<(), Failure> {
    match task {
        Some(Task::Pack) => pack(streams, room),
        Some(Task::Unpack) => unpack(streams, room),
        None => {
            streams::write_error(
                &mut streams.errors,
                b"usage: u32archive pack < TABLE > ARCHIVE\n       u32archive unpack < ARCHIVE > ROWS\n",
            );
            Ok(())
        }
    }
}

// Words for 16 numbers and ten for each of 16,384 rows, for their sums, and the bytes of their archive.
fn main(rt: HostRuntime) {
    let mut words = table_text::room();
    let mut aux = archive_text::sums_room();
    let mut bytes = archive_text::room();
    let mut streams = Streams {
        input: rt.stdin(),
        output: rt.stdout(),
        errors: rt.stderr(),
    };
    let mut room = Room {
        words: &mut words,
        aux: &mut aux,
        bytes: &mut bytes,
    };
    let done = run(asked(&rt), &mut streams, &mut room);
    streams::tell_unless_done(&mut streams.errors, done);
}
