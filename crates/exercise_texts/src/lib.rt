// The exercises of an input, for programs that try many of them: texts with an empty line behind each.
#![tactic(auto)]

ghost use Rattle.std.specs.Prelude.{◌≡◌, ◌+◌, length, take, drop, MatchOption};
ghost use Rattle.std.specs.Iterator.{at_most};

// The texts of an input that are still to come.
#[derive(Drop)]
pub struct Texts<'a> {
    pub rest: &'a [u8],
}

impl<'a> Iterator for Texts<'a> {
    type Item = &'a [u8];

    ghost next_gives = { λ s r t. MatchOption r (length s.rest.now ≡ 0)
        (λ text. (text.now ≡ take (length text.now) s.rest.now)
        × (t.rest.now ≡ drop (length text.now + 1) s.rest.now)) };

    ghost remaining = { λ s. at_most (length s.rest.now) };

    // A text ends behind the first of two line feeds in a row, or where the input ends.
    fn next(&mut self) -> Option<&'a [u8]> {
        if self.rest.is_empty() {
            return None;
        }
        let rest = self.rest;
        let end = match rest.windows(2).position(|pair| pair == b"\n\n".as_slice()) {
            Some(i) => i + 1,
            None => rest.len(),
        };
        self.rest = rest.get(end + 1..).unwrap_or(&[]);
        Some(&rest[..end])
    }
}
