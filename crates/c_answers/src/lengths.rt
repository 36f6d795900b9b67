// Calls that write a block or answer records, and answer their length.
ghost use Rattle.std.specs.Prelude.{◌≡◌};
ghost use Rattle.refusals.specs.Refusals.{answer_of};
ghost use Rattle.c_answers.specs.Numbers.{length_of};

use super::verdicts::wide_number;
use refusals::Refusal;

// How many bytes were written.
#[repr(C)]
#[derive(Drop)]
pub struct Length {
    pub refusal: u32,
    pub bytes: usize,
}

// What reading an exercise, relabelling a block and searching from many starts answer.
impl From<Result<usize, Refusal>> for Length {
    ghost from_gives = { λ answer length. length ≡ length_of (answer_of answer) };

    fn from(answer: Result<usize, Refusal>) -> Length {
        match answer {
            Ok(bytes) => Length { refusal: 0, bytes },
            Err(refusal) => Length {
                refusal: wide_number(refusal),
                bytes: 0,
            },
        }
    }
}
