// Scans over window values, and the next candidate found by them.
ghost use Rattle.std.specs.Prelude.{◌≡◌, ◌+◌, ◌-◌, ◌≤◌, ◌<◌, max, length};
ghost use Rattle.partition.specs.Places.{values, StandsIn, LastLow, FirstLowIn, Next};
ghost use Rattle.partition.specs.Scans.{Floor};

use super::block::Block;
use super::start::Start;

// How many positions before a start are looked at first: some more than the steps that reading a window takes.
const FIRST_STRETCH: usize = 16;

// A position and the value there.
#[derive(Clone, Copy)]
pub struct Place {
    pub at: usize,
    pub value: u32,
}

// The position so far before `to`, but not before `from`.
fn back_by(stretch: usize, from: usize, to: usize) -> usize
    ensures { result ≡ max from (to - stretch) }
{
    from.max(to.saturating_sub(stretch))
}

impl Block<'_> {
    // The last of the positions from `from` up to `to` with a value of at most m.
    fn last_low(&self, m: u32, from: usize, to: usize) -> Option<usize>
        requires from_le_to { from ≤ to }
        requires width_in_bounds { to + self.now.width ≤ length self.now.bytes.now }
        ensures { LastLow (values self.now) m from to result }
    {
        let mut x = self.number(from);
        let mut last = None;
        for j in from..to {
            let value = x % self.modulus;
            x = self.next(x, j);
            if value <= m {
                last = Some(j);
            }
        }
        last
    }

    // The last of the positions from `from` up to the start with a value of at most m. It mostly is near: the value just before the start is
    // known, and then stretches are looked at further and further back, each longer than all after it.
    fn last_before(&self, start: Start, m: u32, from: usize) -> Option<usize>
        requires width_in_bounds { start.at + self.now.width ≤ length self.now.bytes.now }
        requires stands { StandsIn self.now start }
        ensures { LastLow (values self.now) m from start.at result }
    {
        if from < start.at && start.before <= m {
            return Some(start.at - 1);
        }
        let mut to = start.at;
        // A while: each stretch is longer than the last.
        while from < to {
            let stretch = start.at - to + FIRST_STRETCH;
            let back = back_by(stretch, from, to);
            if let Some(last) = self.last_low(m, back, to) {
                return Some(last);
            }
            to = back;
        }
        None
    }

    // The first position before the block's end that no value from the start on bars: its own is below all from the start up to it and not above
    // any of those after it that are within the distance. A smaller value bars the positions before itself that are within the distance.
    fn first_low(&self, start: Start) -> Option<Place>
        requires stands { StandsIn self.now start }
        requires at_lt_end { start.at < self.now.end }
        ensures { FirstLowIn self.now start.at result }
    {
        let mut x = start.number;
        let mut at = start.at;
        let mut value = x % self.modulus;
        let mut until = at + self.distance;
        let mut j = at;
        // A while: each smaller value moves its end.
        while j < until {
            // No value is below 0.
            if value == 0 {
                return Some(Place { at, value });
            }
            x = self.next(x, j);
            let next = x % self.modulus;
            j += 1;
            if next < value {
                if self.end <= j {
                    return None;
                }
                at = j;
                value = next;
                until = j + self.distance;
            }
        }
        Some(Place { at, value })
    }

    // The first candidate from `from` on and its value. No value of the positions before `from` that are within the distance is below `floor`. A
    // position that no value from the start on bars is a candidate unless one before the start that is not greater does. The last such value
    // bars the positions after itself that are within the distance, and the search starts again after these, past the run of equal bytes that
    // it may be in.
    pub fn next_candidate(&self, floor: u32, from: usize) -> Option<Place>
        requires floor { Floor (values self.now) self.now.distance floor from }
        requires distance_le_from { self.now.distance ≤ from }
        ensures { Next self.now from result }
    {
        if self.end <= from {
            return None;
        }
        let mut start = self.past_run(self.start_at(from));
        let mut known = floor;
        // A while: each start is worked out from the last.
        while start.at < self.end {
            let low = self.first_low(start)?;
            if low.value < known {
                return Some(low);
            }
            let Some(last) = self.last_before(start, low.value, low.at - self.distance) else {
                return Some(low);
            };
            known = low.value;
            start = self.past_run(self.moved(start, last + 1 + self.distance));
        }
        None
    }
}
