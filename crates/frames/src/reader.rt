// The reader: a text and how far it has been read, one line at a time.
ghost use Rattle.std.specs.Prelude.{◌≡◌, ◌-◌, ◌<◌, ◌≤◌, length, MatchOption};
ghost use Rattle.std.specs.Iterator.{at_most};
ghost use Rattle.frames.specs.Places.{line_at};

use super::lines::{Line, line_at};

// A text, and the place up to which it has been read.
#[derive(Drop)]
pub struct Reader<'a> {
    pub text: &'a [u8],
    pub at: usize,
}

impl<'a> Reader<'a> {
    // Takes the line at the reader's place: the reader then stands behind it, over the same text.
    pub fn next_line(&mut self) -> Line
        ensures { (result ≡ line_at self.old.text.now self.old.at)
            × (self.new.text ≡ self.old.text) × (self.new.at ≡ result.next) }
    {
        let line = line_at(self.text, self.at);
        self.at = line.next;
        line
    }
}

// The lines that a reader has not taken yet.
impl<'a> Iterator for Reader<'a> {
    type Item = Line;

    ghost next_gives = { λ s r t. MatchOption r (length s.text.now ≤ s.at)
        (λ line. (s.at < length s.text.now) × (line ≡ line_at s.text.now s.at)
        × (t.text ≡ s.text) × (t.at ≡ line.next)) };

    ghost remaining = { λ s. at_most (length s.text.now - s.at) };

    fn next(&mut self) -> Option<Line> {
        if self.at < self.text.len() {
            Some(self.next_line())
        } else {
            None
        }
    }
}

// The line that a reader takes once it has read a text up to `at`.
pub fn read_line(text: &[u8], at: usize) -> Line
    ensures { result ≡ line_at text.now at }
{
    Reader { text, at }.next_line()
}
