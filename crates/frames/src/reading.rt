// Reading an exercise from its text: its head line first, then the whole of it.
ghost use Rattle.std.specs.Prelude.{◌≡◌, true, ◌≤◌, length, drop};
ghost use Rattle.basics.specs.Lists.{at_front};
ghost use Rattle.refusals.specs.Answers.{verdict, answered, outcome};
ghost use Rattle.refusals.specs.Refusals.{answer_of};
ghost use Rattle.blocks.specs.Validity.{Headed};
ghost use Rattle.frames.specs.Lines.{lines_of};
ghost use Rattle.frames.specs.Reading.{head_of, block_of, lines_ok, head_line_ok, lines_fit, HeadRead};
ghost use Rattle.frames.specs.Reading.{head_conditions, frame_conditions, read_exercise};

use super::lines::{decode_line, line_end};
use super::reader::{Reader, read_line};
use blocks::layout;
use blocks::layout::{BLOCK_ROOM, HEAD_LENGTH, Head};
use refusals::Refusal;

// The head line of a text: whether it is pairs of digits with a line feed, and the place behind it; the head, or what
// turns it back, which is told of a line of other characters too.
#[derive(Clone, Copy)]
pub struct Heading {
    pub ok: bool,
    pub next: usize,
    pub head: Result<Head, Refusal>,
}

// Whether each line of a text is pairs of digits with a line feed.
fn lines_ok(text: &[u8]) -> bool
    ensures { result ≡ lines_ok (lines_of text.now) }
{
    for line in (Reader { text, at: 0 }) {
        if !line.ok {
            return false;
        }
    }
    true
}

// Whether the lines from `from` on are as many as the head demands, each of its frame's length. Digits are not tested
// again: two characters make a byte, whatever they are.
fn lines_fit(head: &[u8], text: &[u8], from: usize) -> bool
    requires { Headed head.now }
    ensures { result ≡ lines_fit head.now 0 (lines_of (drop from text.now)) }
{
    let mut at = from;
    for i in 0..layout::frame_count(head) {
        if text.len() <= at {
            return false;
        }
        let next = line_end(text, at);
        if (next - at) / 2 != layout::frame_length(head, i) {
            return false;
        }
        at = next;
    }
    text.len() <= at
}

// The bytes of the head line.
fn decode_head(text: &[u8]) -> Head
    requires { head_line_ok (lines_of text.now) ≡ true }
    ensures { result ≡ head_of (lines_of text.now) }
{
    let mut head = [0u8; HEAD_LENGTH];
    let end = line_end(text, 0);
    decode_line(&text[..end], &mut head);
    head
}

// The head of a text whose head line makes so many bytes: refused with 2 or 3.
fn check_head(text: &[u8], bytes: usize) -> Result<Head, Refusal>
    requires { bytes ≡ length (head_of (lines_of text.now)) }
    ensures { answer_of result ≡
        answered (verdict (head_conditions (lines_of text.now))) (head_of (lines_of text.now)) }
{
    if bytes != HEAD_LENGTH {
        return Err(Refusal::Line);
    }
    let head = decode_head(text);
    if !blocks::validity::head_ok(&head) {
        return Err(Refusal::Head);
    }
    Ok(head)
}

// The head line of a text.
pub fn read_head(text: &[u8]) -> Heading
    ensures { HeadRead (lines_of text.now) result }
{
    let line = read_line(text, 0);
    Heading {
        ok: line.ok,
        next: line.next,
        head: check_head(text, line.bytes),
    }
}

// The lines of a text, whose head line has been read, and the room for its block: 1, what turns the head back, 2 for
// the other lines, 11.
fn check_lines(text: &[u8], heading: Heading, room: usize) -> Result<(), Refusal>
    requires { HeadRead (lines_of text.now) heading }
    ensures { answer_of result ≡ verdict (frame_conditions (lines_of text.now) room) }
{
    if !lines_ok(text) {
        return Err(Refusal::Character);
    }
    let head = heading.head?;
    if !lines_fit(&head, text, heading.next) {
        return Err(Refusal::Line);
    }
    if room < layout::block_length(&head) {
        return Err(Refusal::Buffer);
    }
    Ok(())
}

// Writes the bytes of all lines of a text at the front of `out`, and gives their number.
fn decode_lines(text: &[u8], out: &mut [u8]) -> usize
    requires { length (block_of (lines_of text.now)) ≤ length out.old }
    ensures { (result ≡ length (block_of (lines_of text.now)))
        × (out.new ≡ at_front (block_of (lines_of text.now)) out.old) }
{
    let mut to: usize = 0;
    for line in text.split_inclusive(|c| *c == b'\n') {
        to += decode_line(line, &mut out[to..]);
    }
    to
}

// Reads an exercise from its text, whose head line has been read: its block is written at the front of `out`, and its
// length is told.
pub fn read_text(text: &[u8], heading: Heading, out: &mut [u8]) -> Result<usize, Refusal>
    requires { HeadRead (lines_of text.now) heading }
    ensures { outcome (answer_of result) out.new ≡ read_exercise text.now out.old }
{
    check_lines(text, heading, out.len())?;
    let mut block = [0u8; BLOCK_ROOM];
    let length = decode_lines(text, &mut block);
    blocks::validity::check_content(&block[..length])?;
    out[..length].copy_from_slice(&block[..length]);
    Ok(length)
}
