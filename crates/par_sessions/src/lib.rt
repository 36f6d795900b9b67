// A session of the program `par`: an exercise and its queries in one input, with each answer line printed as soon as it
// is known.
#![tactic(auto)]

ghost use Rattle.std.specs.Prelude.{◌≡◌, ◌+◌, ◌<◌, ◌≤◌, pos, length, take, drop, Some, OnOk};
ghost use Rattle.std.specs.Io.KnownBytes.{Appends, Consumes, IsAtEnd};
ghost use Rattle.blocks.specs.Validity.{Valid};
ghost use Rattle.preparing.specs.Prepared.{Prepared};
ghost use Rattle.search.specs.OnWords.{Rates};
ghost use Rattle.records.specs.Records.{Written};
ghost use Rattle.refusals.specs.Refusals.{refusal_number};
ghost use Rattle.par_openings.specs.Openings.{FilledFront};
ghost use Rattle.par_queries.specs.QueryLines.{filled_estimate, line_room, refusal_line};
ghost use Rattle.par_outputs.specs.Output.{par_output, answers_from, output_room};
ghost use Rattle.par_outputs.specs.Promises.{Means};

use blocks::layout::BLOCK_ROOM;
use blocks::validity::{Entries, MOST_STATES};
use inputs::read_full;
use par_openings::LONGEST_INPUT;
use par_queries::LINE_ROOM;
use preparing::prepare;
use refusals::Refusal;
use std::io;
use std::io::{Read, Write};
use std::os::fd::AsRawFd;
use words::changes::{CHANGES, Changes};
use words::code::{CODE, Code};

// One byte more than an input may have, so that a longer one is seen.
pub const INPUT_ROOM: usize = LONGEST_INPUT + 1;

// Room for every output, which is at most eight times as long as the longest input, and behind it for one more line, so
// that a line can be written in place wherever it begins.
pub const OUTPUT_ROOM: usize = 8 * LONGEST_INPUT + LINE_ROOM;

// The buffers of an input and of an output.
pub type InputBuffer = [u8; INPUT_ROOM];

pub type OutputBuffer = [u8; OUTPUT_ROOM];

// How many bytes of input a session read, how many it printed, and the first error of its reads and writes, if there
// was one: a session goes on all the same.
#[derive(Drop)]
pub struct Session {
    pub read: usize,
    pub printed: usize,
    pub outcome: io::Result<()>,
}

// The place in the output up to which lines are printed, and the first error of their writes, if there was one.
#[derive(Drop)]
struct Printed {
    to: usize,
    outcome: io::Result<()>,
}

// Prints the next `count` bytes of the output, from `from` on, and gives the place behind them. Nothing else writes.
// Descriptor 1 is standard output.
fn print_part<W: Write + AsRawFd>(
    writer: &mut W,
    output: &[u8],
    from: usize,
    count: usize,
) -> Printed
    requires standard_output { (w : W) → W.raw_fd w ≡ Some (pos 1) }
    requires within { from + count ≤ length output.now }
    ensures behind { result.to ≡ from + count }
    ensures printed { OnOk result.outcome
        (Appends (W.contents writer.old) (W.contents writer.new)
        (take count (drop from output.now))) }
{
    let to = from + count;
    let outcome = writer.write_all(&output[from..to]);
    Printed { to, outcome }
}

// Prints the line of a refusal, and gives its length.
fn answer_refusal<W: Write + AsRawFd>(
    writer: &mut W,
    refusal: Refusal,
    output: &mut [u8],
) -> Printed
    requires standard_output { (w : W) → W.raw_fd w ≡ Some (pos 1) }
    requires room { line_room ≤ length output.old }
    ensures written { Written (refusal_line (refusal_number refusal)) output.old result.to
        output.new }
    ensures printed { OnOk result.outcome
        (Appends (W.contents writer.old) (W.contents writer.new)
        (refusal_line (refusal_number refusal))) }
{
    let bytes = par_queries::refuse(refusal, output);
    print_part(writer, output, 0, bytes)
}

// Prints the answer lines of the query lines from `from` on, and gives their length, by arrays that are prepared from
// the block.
fn answer_lines<W: Write + AsRawFd>(
    writer: &mut W,
    block: &[u8],
    code: &Code,
    changes: &Changes,
    entries: &Entries,
    input: &[u8],
    from: usize,
    output: &mut [u8],
) -> Printed
    requires standard_output { (w : W) → W.raw_fd w ≡ Some (pos 1) }
    requires prepared { Prepared block.now code.now changes.now ×
        Rates block.now changes.now entries.now (filled_estimate block.now) ×
        (length (answers_from block.now input.now from) + line_room ≤ length output.old) }
    ensures written { Written (answers_from block.now input.now from)
        output.old result.to output.new }
    ensures printed { OnOk result.outcome
        (Appends (W.contents writer.old) (W.contents writer.new)
        (answers_from block.now input.now from)) }
{
    let mut at = from;
    let mut to: usize = 0;
    let mut outcome = Ok(());
    // No line is known before the one in front of it is answered, which tells where the next begins.
    while at < input.len() {
        let answered = par_queries::answer_line(
            block,
            code,
            changes,
            entries,
            input,
            at,
            &mut output[to..],
        );
        let line = print_part(writer, output, to, answered.bytes);
        to = line.to;
        outcome = outcome.and(line.outcome);
        at = answered.next;
    }
    Printed { to, outcome }
}

// The same for a block with its filled table: it is prepared once, for all query lines.
fn answer_queries<W: Write + AsRawFd>(
    writer: &mut W,
    block: &[u8],
    input: &[u8],
    from: usize,
    table: &Entries,
    output: &mut [u8],
) -> Printed
    requires standard_output { (w : W) → W.raw_fd w ≡ Some (pos 1) }
    requires filled { Valid block.now × FilledFront block.now table.now ×
        (length (answers_from block.now input.now from) + line_room ≤ length output.old) }
    ensures written { Written (answers_from block.now input.now from)
        output.old result.to output.new }
    ensures printed { OnOk result.outcome
        (Appends (W.contents writer.old) (W.contents writer.new)
        (answers_from block.now input.now from)) }
{
    let mut code = [0u64; CODE];
    let mut changes = [0u64; CHANGES];
    prepare(block, &block[..0], &mut code, &mut changes);
    answer_lines(writer, block, &code, &changes, table, input, from, output)
}

// Prints what `par` prints for an input, and gives its length.
fn answer_input<W: Write + AsRawFd>(writer: &mut W, input: &[u8], output: &mut [u8]) -> Printed
    requires standard_output { (w : W) → W.raw_fd w ≡ Some (pos 1) }
    requires room { output_room ≤ length output.old }
    ensures written { Written (par_output input.now) output.old result.to output.new }
    ensures printed { OnOk result.outcome
        (Appends (W.contents writer.old) (W.contents writer.new) (par_output input.now)) }
{
    let mut block = [0u8; BLOCK_ROOM];
    let mut table = [0u32; MOST_STATES];
    match par_openings::open(input, &mut block, &mut table) {
        Ok(opened) => answer_queries(
            writer,
            &block[..opened.bytes],
            input,
            opened.queries_at,
            &table,
            output,
        ),
        Err(refusal) => answer_refusal(writer, refusal, output),
    }
}

// Runs a session in a buffer that holds every output. Where no read and no write fails, the buffer was filled or the
// whole input was read, and what the writer got is what `par` prints for it.
fn run_within<R: Read, W: Write + AsRawFd>(
    reader: &mut R,
    writer: &mut W,
    input: &mut [u8],
    output: &mut [u8],
) -> Session
    requires standard_output { (w : W) → W.raw_fd w ≡ Some (pos 1) }
    requires room { output_room ≤ length output.old }
    ensures written { Written (par_output (take result.read input.new)) output.old result.printed
        output.new }
    ensures consumed { Consumes (R.remaining reader.old) (R.remaining reader.new)
        (take result.read input.new) }
    ensures whole { OnOk result.outcome
        (result.read < length input.new → IsAtEnd (R.remaining reader.new)) }
    ensures printed { OnOk result.outcome
        (Appends (W.contents writer.old) (W.contents writer.new)
        (par_output (take result.read input.new))) }
{
    let received = read_full(reader, input);
    let read = received.read;
    let printed = answer_input(writer, &input[..read], output);
    let outcome = received.outcome.and(printed.outcome);
    Session {
        read,
        printed: printed.to,
        outcome,
    }
}

// Reads an input from standard input, and prints what `par` prints for it to standard output. Both stay at the fronts
// of their buffers.
pub fn run_session(rt: &HostRuntime, input: &mut InputBuffer, output: &mut OutputBuffer) -> Session
    ensures written { Written (par_output (take result.read input.new)) output.old result.printed
        output.new }
    ensures means { Means (take result.read input.new) (take result.printed output.new) }
{
    run_within(&mut rt.stdin(), &mut rt.stdout(), input, output)
}
