// A queue of states by their entry modulo 256: 256 lists, linked both ways. Nothing is proved of the queue but that
// indices are in range: the fill is right whatever the queue does.
ghost use Rattle.std.specs.Prelude.{◌≤◌, ◌<◌, length};

use blocks::validity::MOST_STATES;
use edge_ranks::{Lists, ROOM};

// No state. It is no Option: links of two bytes are half as long.
pub const END: u16 = u16::MAX;

// A state as a link.
fn link_to(u: usize) -> u16
    requires { u < 16384 }
{
    u as u16
}

// The list of an entry.
fn list_of(entry: u32) -> u8 {
    (entry % 256) as u8
}

// The first state of each list.
pub type Firsts = [u16; LISTS];

pub const LISTS: usize = 256;

// The next and the previous state of each state, the first state of each list, and the list that the last state was
// taken out of. With the first states in an array among the fields, the fast pass takes up to 0.7 % more instructions.
#[derive(Drop)]
pub struct Queue<'a> {
    next: &'a mut [u16; ROOM],
    previous: &'a mut [u16; ROOM],
    first: &'a mut Firsts,
    list: u8,
}

impl<'a> Queue<'a> {
    // An empty queue. Its links stand in two lists of the lower-bound test, which has them back when the queue is done.
    pub fn new(lists: &'a mut Lists, first: &'a mut Firsts) -> Self {
        Queue {
            next: &mut lists.sources,
            previous: &mut lists.targets,
            first,
            list: 0,
        }
    }

    // Puts the state u at the front of its entry's list.
    pub fn put_in(&mut self, entry: u32, u: usize)
        requires { u < 16384 }
    {
        let list = usize::from(list_of(entry));
        let head = self.first[list];
        let after = usize::from(head);
        self.next[u] = head;
        self.previous[u] = END;
        if after < MOST_STATES {
            self.previous[after] = link_to(u);
        }
        self.first[list] = link_to(u);
    }

    // Takes the state u out of a list.
    fn unlink(&mut self, list: u8, u: usize)
        requires { u < 16384 }
    {
        let before = self.previous[u];
        let after = self.next[u];
        if usize::from(before) < MOST_STATES {
            self.next[usize::from(before)] = after;
        } else {
            self.first[usize::from(list)] = after;
        }
        if usize::from(after) < MOST_STATES {
            self.previous[usize::from(after)] = before;
        }
    }

    // Takes the state u out of its entry's list.
    pub fn take_out(&mut self, entry: u32, u: usize)
        requires { u < 16384 }
    {
        self.unlink(list_of(entry), u);
    }

    // Takes out the first state of the first list that has one, from the last one on and round the end.
    pub fn take_least(&mut self) -> Option<usize> {
        for _ in 0..LISTS {
            let u = usize::from(self.first[usize::from(self.list)]);
            if u < MOST_STATES {
                self.unlink(self.list, u);
                return Some(u);
            }
            self.list = self.list.wrapping_add(1);
        }
        None
    }

    // Puts in the states whose entry is 0.
    pub fn put_goals(&mut self, table: &[u32])
        requires { length table.now ≤ 16384 }
    {
        for (u, entry) in table.iter().enumerate() {
            if *entry == 0 {
                self.put_in(0, u);
            }
        }
    }
}
