// Calls whose answer is one number: 0 where all went well, or that of the refusal.
ghost use Rattle.std.specs.Prelude.{◌≡◌};
ghost use Rattle.refusals.specs.Refusals.{refusal_number, answer_of};
ghost use Rattle.c_answers.specs.Numbers.{refusal_of};

use refusals::Refusal;

// The number of a refusal, as wide as the members of the answers.
pub fn wide_number(refusal: Refusal) -> u32
    ensures { result ≡ refusal_number refusal }
{
    u32::from(u8::from(refusal))
}

// What checking a block and filling a table answer, as one number. No `From`: u32 and `Result` are not this crate's.
pub fn refusal_of(answer: Result<(), Refusal>) -> u32
    ensures { result ≡ refusal_of (answer_of answer) }
{
    match answer {
        Ok(()) => 0,
        Err(refusal) => wide_number(refusal),
    }
}
