// Lines of a text: where they end, whether they are pairs of digits with a line feed, and their bytes.
ghost use Rattle.std.specs.Prelude.{◌≡◌, ◌+◌, ◌*◌, ◌≤◌, eqb, length};
ghost use Rattle.std.specs.List.{list_all, position};
ghost use Rattle.basics.specs.Lists.{at_front};
ghost use Rattle.frames.specs.Lines.{line_feed, is_digit, digit_value, line_ok, line_bytes, line_of};
ghost use Rattle.frames.specs.Places.{line_from, line_at};

use super::digits::{digit, digit_of};

// The character that ends a line.
const LINE_FEED: u8 = b'\n';

// What stands at a place of a text: whether the line there is pairs of digits with a line feed, how many bytes its
// pairs make, and the place behind it. The number is told of a wrong line too, whose length is refused behind it.
#[derive(Drop)]
pub struct Line {
    pub ok: bool,
    pub bytes: usize,
    pub next: usize,
}

// Where the first line feed of a text stands.
fn feed_at(text: &[u8]) -> Option<usize>
    ensures { result ≡ position (λ c. eqb c line_feed) text.now }
{
    text.iter().position(|c| *c == LINE_FEED)
}

// The place behind the line at `at`: behind its line feed, or the end of the text.
pub fn line_end(text: &[u8], at: usize) -> usize
    ensures { result ≡ at + length (line_from text.now at) }
{
    let rest = &text[at.min(text.len())..];
    match feed_at(rest) {
        Some(i) => at + i + 1,
        None => at + rest.len(),
    }
}

// Whether all characters are digits.
fn all_digits(characters: &[u8]) -> bool
    ensures { result ≡ list_all is_digit characters.now }
{
    characters.iter().all(|c| digit(*c).is_some())
}

// Whether a line is pairs of digits with a line feed.
fn line_ok(line: &[u8]) -> bool
    ensures { result ≡ line_ok line.now }
{
    match line.split_last() {
        Some((last, digits)) => {
            *last == LINE_FEED && digits.len() % 2 == 0 && all_digits(digits)
        }
        None => false,
    }
}

// The line at `at`.
pub fn line_at(text: &[u8], at: usize) -> Line
    ensures { result ≡ line_at text.now at }
{
    if text.len() <= at {
        return Line {
            ok: false,
            bytes: 0,
            next: at,
        };
    }
    let next = line_end(text, at);
    let ok = line_ok(&text[at..next]);
    Line {
        ok,
        bytes: (next - at) / 2,
        next,
    }
}

// The byte that two characters make, the higher digit first. A character that is no digit counts as 0.
fn pair_byte(high: u8, low: u8) -> u8
    ensures { result ≡ 16 * digit_value high + digit_value low }
{
    16 * digit(high).unwrap_or(0) + digit(low).unwrap_or(0)
}

// Writes the bytes of a line at the front of `out`, and gives their number.
pub fn decode_line(line: &[u8], out: &mut [u8]) -> usize
    requires { length (line_bytes line.now) ≤ length out.old }
    ensures { (result ≡ length (line_bytes line.now))
        × (out.new ≡ at_front (line_bytes line.now) out.old) }
{
    let (pairs, _) = line.as_chunks::<2>();
    for (i, [high, low]) in pairs.iter().enumerate() {
        out[i] = pair_byte(*high, *low);
    }
    pairs.len()
}

// Writes bytes as a line at the front of `out`, and gives its length.
pub fn encode_line(bytes: &[u8], out: &mut [u8]) -> usize
    requires { length (line_of bytes.now) ≤ length out.old }
    ensures { (result ≡ length (line_of bytes.now))
        × (out.new ≡ at_front (line_of bytes.now) out.old) }
{
    for (i, byte) in bytes.iter().enumerate() {
        out[2 * i] = digit_of(byte / 16);
        out[2 * i + 1] = digit_of(byte % 16);
    }
    let end = 2 * bytes.len();
    out[end] = LINE_FEED;
    end + 1
}
