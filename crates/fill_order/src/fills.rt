// The fast pass of the fill, and whether it leaves something to the sweeps.
ghost use Rattle.blocks.specs.Validity.{Valid};

use blocks::layout::BLOCK_ROOM;
use blocks::validity::{Entries, MOST_STATES};
use std::io;

// Fills a table by the fast pass alone, and tells whether it passes the lower-bound test: then no sweep lowers an
// entry.
fn in_order(block: &[u8], table: &mut Entries) -> bool
    requires { Valid block.now }
{
    filling::fast_pass(block, table);
    tables::lower_bound::passes(block, table)
}

// Reads an exercise, fills its table, and prints whether the entries were found in order, or that there was nothing to
// fill.
pub fn print_fill(rt: &impl Print, text: &[u8]) -> io::Result<()> {
    let mut block = [0u8; BLOCK_ROOM];
    match text_calls::read_exercise(text, &mut block) {
        Ok(length) => {
            let mut table = [0u32; MOST_STATES];
            if in_order(&block[..length], &mut table) {
                rt.write_all(b"in order\n")
            } else {
                rt.write_all(b"late\n")
            }
        }
        Err(_) => rt.write_all(b"refused\n"),
    }
}
