// The line of a refusal.
ghost use Rattle.std.specs.Prelude.{◌≤◌, length};
ghost use Rattle.refusals.specs.Refusals.{refusal_number};
ghost use Rattle.records.specs.Records.{Written};
ghost use Rattle.par_queries.specs.QueryLines.{line_room, refusal_line};

use frames::lines::encode_line;
use records::{RECORD_ROOM, put_refusal};
use refusals::Refusal;

// Writes FF and the number of a refusal as a line at the front of `line`, and gives its length.
pub fn refuse(refusal: Refusal, line: &mut [u8]) -> usize
    requires { line_room ≤ length line.old }
    ensures { Written (refusal_line (refusal_number refusal)) line.old result line.new }
{
    let mut bytes = [0u8; RECORD_ROOM];
    let count = put_refusal(refusal, &mut bytes);
    encode_line(&bytes[..count], line)
}
