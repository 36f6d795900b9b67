// Reading an input into a buffer, in as many reads as it takes.
#![tactic(auto)]

ghost use Rattle.std.specs.Prelude.{◌≤◌, ◌<◌, length, take, OnOk};
ghost use Rattle.std.specs.Io.KnownBytes.{Consumes, IsAtEnd};

use std::io;
use std::io::Read;

// How many bytes were read, and the error that ended the reading, if one did.
#[derive(Drop)]
pub struct Received {
    pub read: usize,
    pub outcome: io::Result<()>,
}

// Reads until the buffer is full, the input ends or a read fails. What was read stands at the front of the buffer.
pub fn read_full<R: Read>(reader: &mut R, buffer: &mut [u8]) -> Received
    ensures within { result.read ≤ length buffer.new }
    ensures bytes { Consumes (R.remaining reader.old) (R.remaining reader.new)
        (take result.read buffer.new) }
    ensures end { OnOk result.outcome
        (result.read < length buffer.new → IsAtEnd (R.remaining reader.new)) }
{
    let mut read = 0;
    // Each read tells how far it went: there is nothing to count, and no iterator to ask.
    while read < buffer.len() {
        match reader.read(&mut buffer[read..]) {
            Ok(0) => break,
            Ok(count) => read += count,
            Err(error) => {
                let outcome = Err(error);
                return Received { read, outcome };
            }
        }
    }
    Received {
        read,
        outcome: Ok(()),
    }
}
