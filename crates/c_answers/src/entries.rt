// The call that looks an entry up.
ghost use Rattle.std.specs.Prelude.{◌≡◌};
ghost use Rattle.refusals.specs.Refusals.{answer_of};
ghost use Rattle.c_answers.specs.Numbers.{entry_of};

use super::verdicts::wide_number;
use refusals::Refusal;

// An entry of a table; 'no path' is one.
#[repr(C)]
#[derive(Drop)]
pub struct Entry {
    pub refusal: u32,
    pub entry: u32,
}

// What a look-up answers.
impl From<Result<u32, Refusal>> for Entry {
    ghost from_gives = { λ answer entry. entry ≡ entry_of (answer_of answer) };

    fn from(answer: Result<u32, Refusal>) -> Entry {
        match answer {
            Ok(entry) => Entry { refusal: 0, entry },
            Err(refusal) => Entry {
                refusal: wide_number(refusal),
                entry: 0,
            },
        }
    }
}
