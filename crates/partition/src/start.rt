// Where a scan starts. A start that is moved on keeps its window's running value, so that a short move reads no window afresh.
ghost use Rattle.std.specs.Prelude.{◌≡◌, ◌+◌, ◌≤◌, ◌<◌, length};
ghost use Rattle.partition.specs.Cuts.{window_at};
ghost use Rattle.partition.specs.Places.{StandsIn};

use super::block::Block;

// A position, the number of the window there, and the value of the window just before.
#[derive(Clone, Copy)]
pub struct Start {
    pub at: usize,
    pub number: u32,
    pub before: u32,
}

impl Block<'_> {
    // The number of the window at `to`, from x, that of the window at j. The window slides, or is read afresh where it has fewer bytes than the
    // way has steps.
    fn carried(&self, x: u32, j: usize, to: usize) -> u32
        requires j_le_to { j ≤ to }
        requires w_in_bounds { to + self.now.width ≤ length self.now.bytes.now }
        requires x_value { x ≡ window_at self.now.width self.now.bytes.now j }
        ensures { result ≡ window_at self.now.width self.now.bytes.now to }
    {
        if self.width < to - j {
            return self.number(to);
        }
        let mut number = x;
        for i in j..to {
            number = self.next(number, i);
        }
        number
    }

    // The start at a position, read from the window before it. At 0, where there is none, it is the window's own.
    pub fn start_at(&self, at: usize) -> Start
        requires { at + self.now.width ≤ length self.now.bytes.now }
        ensures at_value { result.at ≡ at }
        ensures stands { StandsIn self.now result }
    {
        let last = at.saturating_sub(1);
        let x = self.number(last);
        let number = self.carried(x, last, at);
        Start {
            at,
            number,
            before: x % self.modulus,
        }
    }

    // A start further on.
    pub fn moved(&self, start: Start, to: usize) -> Start
        requires at_lt_to { start.at < to }
        requires width_in_bounds { to + self.now.width ≤ length self.now.bytes.now }
        requires stands { StandsIn self.now start }
        ensures at_value { result.at ≡ to }
        ensures stands_2 { StandsIn self.now result }
    {
        let last = to - 1;
        let x = self.carried(start.number, start.at, last);
        let number = self.carried(x, last, to);
        Start {
            at: to,
            number,
            before: x % self.modulus,
        }
    }
}
