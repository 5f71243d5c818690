// How wide a sketch is.
ghost use Rattle.std.specs.Prelude.{◌≡◌, ◌*◌, ◌≤◌, ◌&&◌, false, nat_le, MatchOption};

// A width of 1 to 64: a sketch has three times as many cells.
#[derive(Clone, Copy)]
pub struct Width {
    pub q: u64,
    ghost some: { 1 ≤ q },
    ghost few: { q ≤ 64 },
}

impl Width {
    // The width q, if it is one.
    pub fn new(q: u64) -> Option<Self>
        ensures { MatchOption result ((nat_le 1 q && nat_le q 64) ≡ false) (λ width. width.q ≡ q) }
    {
        if 1 <= q && q <= 64 {
            Some(Width { q })
        } else {
            None
        }
    }

    // How many cells it has.
    pub fn cells(self) -> usize
        ensures { result ≡ self.q * 3 }
    {
        self.q as usize * 3
    }

    // How many bytes its cells take: five rows each.
    pub fn bytes(self) -> usize
        ensures { result ≡ self.q * 120 }
    {
        self.q as usize * 120
    }
}
