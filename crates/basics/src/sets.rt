// Sets of numbers below 64 as words of 64 bits: whether a number is in a set, and the numbers of a set in rising order.
ghost use Rattle.std.specs.Prelude.{◌≡◌, ◌<◌};
ghost use Rattle.basics.specs.Sets.{member, lowest, without_lowest};

// Whether r is in a set.
pub fn has(set: u64, r: usize) -> bool
    requires { r < 64 }
    ensures { result ≡ member set r }
{
    (set >> r) % 2 == 1
}

// The lowest number of a set that is not empty.
pub fn lowest_of(set: u64) -> usize
    requires { 0 < set }
    ensures { (result ≡ lowest set) × (result < 64) }
{
    set.trailing_zeros() as usize
}

// A set without its lowest number.
pub fn without_lowest(set: u64) -> u64
    requires { 0 < set }
    ensures { (result ≡ without_lowest set) × (result < set) }
{
    set & (set - 1)
}
