// Works out par: reads an exercise and queries from standard input, and prints the answer line of each query as soon as
// it is known.
#![tactic(auto)]

use par_sessions::{INPUT_ROOM, OUTPUT_ROOM};
use std::io;

fn main(rt: HostRuntime) -> io::Result<()> {
    let mut input = [0u8; INPUT_ROOM];
    let mut output = [0u8; OUTPUT_ROOM];
    let session = par_sessions::run_session(&rt, &mut input, &mut output);
    session.outcome
}
