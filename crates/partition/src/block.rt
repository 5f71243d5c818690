// A block whose cuts are sought, and the windows of bytes in it.
ghost use Rattle.std.specs.Prelude.{◌≡◌, ◌+◌, ◌-◌, ◌^◌, ◌≤◌, ◌<◌, max, length, get_or};
ghost use Rattle.spread.specs.Spreading.{spread_of, Spreads};
ghost use Rattle.partition.specs.Cuts.{window_at};
ghost use Rattle.partition.specs.Sliding.{Sized};

use super::sliding;

// The base that a window's digits are read in, and the prime that its number is taken modulo.
pub const BASE: u32 = 257;

pub const PRIME: u32 = 65521;

// The bytes, the table that each is replaced by, and how they are cut: a window has `width` bytes, its value is its number modulo `modulus`,
// values bar others up to `distance` away, and cuts lie before `end`.
#[derive(Clone, Copy)]
pub struct Block<'a> {
    pub bytes: &'a [u8],
    pub table: &'a [u16; 256],
    pub width: usize,
    pub modulus: u32,
    pub distance: usize,
    pub end: usize,
    ghost spreads: { Spreads table.now },
    ghost reduces: { 1 ≤ modulus },
    ghost ends: { end ≡ length bytes.now + 1 - (width + distance) },
}

// One past the last position of n bytes where a cut may lie, or 0 if there is none.
pub fn range_end(n: usize, w: usize, h: usize) -> usize
    requires { n + 1 < 2 ^ 64 }
    ensures { result ≡ n + 1 - (w + h) }
{
    (n + 1).saturating_sub(w).saturating_sub(h)
}

impl<'a> Block<'a> {
    // A block that is cut by windows of w bytes, their values modulo s, and at a distance of h.
    pub fn new(bytes: &'a [u8], table: &'a [u16; 256], w: usize, h: usize, s: u64) -> Self
        requires { Spreads table.now }
        ensures bytes { result.bytes.now ≡ bytes.now }
        ensures sized { Sized w s result.width result.modulus }
        ensures distance { result.distance ≡ h }
    {
        Block {
            bytes,
            table,
            width: w,
            modulus: sliding::modulus(s),
            distance: h,
            end: range_end(bytes.len(), w, h),
        }
    }
}

impl Block<'_> {
    // How far after a cut the next may follow: the distance, and at least 1.
    pub fn step(&self) -> usize
        ensures { result ≡ max self.now.distance 1 }
    {
        self.distance.max(1)
    }

    // The digit that byte j is in a window's number: its entry of the table.
    #[tactic(auto, unfolding(spread::specs::Spreading::spread_of))]
    pub fn digit(&self, j: usize) -> u32
        requires { j < length self.now.bytes.now }
        ensures value { result ≡ spread_of (get_or self.now.bytes.now j 0) }
        ensures small { result < 65521 }
    {
        u32::from(self.table[self.bytes[j] as usize])
    }

    // The number of the window at a position, read afresh.
    pub fn number(&self, at: usize) -> u32
        requires { at + self.now.width ≤ length self.now.bytes.now }
        ensures { result ≡ window_at self.now.width self.now.bytes.now at }
    {
        let mut x: u32 = 0;
        for j in at..at + self.width {
            x = (x * BASE + self.digit(j)) % PRIME;
        }
        x
    }
}
