// A window that slides along the bytes: its number one byte further, from the number before and the two bytes that change.
ghost use Rattle.std.specs.Prelude.{◌≡◌, ◌+◌, ◌%◌, ◌<◌, length, get_or};
ghost use Rattle.spread.specs.Spreading.{spread_of};
ghost use Rattle.partition.specs.Sliding.{leaving_of, slid, Modulus};

use super::block::{BASE, Block, PRIME};

// How often a byte that a window of w bytes leaves is added, modulo 65,521. The widths that document 01 allows have their numbers here, so
// that a step takes one look-up and no loop.
fn leaving(w: usize) -> u32
    ensures { result ≡ leaving_of w % 65521 }
{
    match w {
        2 => 64993,
        3 => 60867,
        4 => 48821,
        5 => 32486,
        6 => 27735,
        7 => 51627,
        8 => 32897,
        9 => 2320,
        10 => 6551,
        11 => 45582,
        12 => 51836,
        _ => leaving_of_any(w),
    }
}

// The same for any width, worked out.
fn leaving_of_any(w: usize) -> u32
    ensures { result ≡ leaving_of w % 65521 }
{
    let mut x: u32 = PRIME - 1;
    for _place in 0..w {
        x = x * BASE % PRIME;
    }
    x
}

// A modulus that is not 0 and leaves of every window's number, which is below 65,521, the same remainder as s.
pub fn modulus(s: u64) -> u32
    ensures { Modulus s result }
{
    if s == 0 || u64::from(PRIME) < s {
        PRIME
    } else {
        s as u32
    }
}

// One step of a window of w bytes with the number x: the digit `old` leaves and the digit `new` enters. It sees nothing else. What leaves is
// reduced by itself, since it does not wait for x: a step then takes no longer than the way from one number to the next.
fn slide(w: usize, x: u32, old: u32, new: u32) -> u32
    requires x_bound { x < 65521 }
    requires bound { old < 65521 }
    requires bound_2 { new < 65521 }
    ensures { result ≡ slid w x old new }
{
    let often = leaving(w);
    let left = old * often % PRIME;
    (x * BASE + new + left) % PRIME
}

impl Block<'_> {
    // The running value x of the window at j, one step on.
    pub fn next(&self, x: u32, j: usize) -> u32
        requires w_in_bounds { j + self.now.width < length self.now.bytes.now }
        requires x_bound { x < 65521 }
        ensures { result ≡ slid self.now.width x (spread_of (get_or self.now.bytes.now j 0))
            (spread_of (get_or self.now.bytes.now (j + self.now.width) 0)) }
    {
        let entering = j + self.width;
        let old = self.digit(j);
        let new = self.digit(entering);
        slide(self.width, x, old, new)
    }
}
