// What every layer uses: powers that are capped, bytes that are looked for, and sets of small numbers as words.
#![tactic(auto)]

ghost use Rattle.std.specs.Prelude.{◌≡◌, ◌+◌, ◌^◌, ◌≤◌, min, eqb, length, get_or, take, ◌==◌};
ghost use Rattle.std.specs.List.{position};
ghost use Rattle.basics.specs.Bounded.{find};
ghost use Rattle.basics.specs.Lists.{at_front};

pub mod sets;

// k to the power n, or one more than `most` where it is above that.
pub fn power_within(k: usize, n: usize, most: usize) -> usize
    requires { (1 ≤ k) × (k ≤ 255) × (most ≤ 65535) }
    ensures { result ≡ min (k ^ n) (most + 1) }
{
    let mut power: usize = 1;
    for i in 0..n {
        power *= k;
        if most < power {
            return most + 1;
        }
    }
    power
}

// Writes the first n bytes of `from` at the front of `to`. It is no copy_from_slice, which is a call of memmove where
// the compiler does not see that the two lie apart: the library calls memcpy and memset alone.
pub fn copy(from: &[u8], n: usize, to: &mut [u8])
    requires { (n ≤ length from.now) × (n ≤ length to.old) }
    ensures { to.new ≡ at_front (take n from.now) to.old }
{
    for i in 0..n {
        to[i] = from[i];
    }
}

// The first place that holds the byte v, if one does.
fn place_of(bytes: &[u8], v: u8) -> Option<usize>
    ensures { result ≡ position (λ byte. byte == v) bytes.now }
{
    bytes.iter().position(|byte| *byte == v)
}

// The first of the n places from `at` on that holds the byte v, if one does.
pub fn first_of(bytes: &[u8], at: usize, n: usize, v: u8) -> Option<usize>
    requires { at + n ≤ length bytes.now }
    ensures { result ≡ find n (λ j. eqb (get_or bytes.now (at + j) 0) v) }
{
    place_of(&bytes[at..at + n], v)
}
