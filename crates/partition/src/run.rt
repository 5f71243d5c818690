// A run of equal bytes, which is passed over: its windows have one value, and a candidate's is smaller than the one before it.
ghost use Rattle.std.specs.Prelude.{◌≤◌, ◌<◌, length};
ghost use Rattle.partition.specs.Places.{values, StandsIn};
ghost use Rattle.partition.specs.Runs.{EqualBytes, Level};

use super::block::Block;
use super::start::Start;

// How far the byte at `from` is repeated, at most up to `to`.
fn equal_until(bytes: &[u8], from: usize, to: usize) -> usize
    requires from_lt_to { from < to }
    requires to_in_bounds { to ≤ length bytes.now }
    ensures upper_bound { result ≤ to }
    ensures equal_bytes { EqualBytes bytes.now from result }
{
    let byte = bytes[from];
    for i in from..to {
        if bytes[i] != byte {
            return i;
        }
    }
    to
}

impl Block<'_> {
    // The start past the run of equal bytes that it may be in, but not past the block's end. Where the distance is 0, equal values bar nothing.
    pub fn past_run(&self, start: Start) -> Start
        requires stands { StandsIn self.now start }
        requires distance_le_at { self.now.distance ≤ start.at }
        ensures level { Level self.now.distance (values self.now) start.at result.at }
        ensures stands_2 { StandsIn self.now result }
    {
        if self.distance == 0 || self.end <= start.at {
            return start;
        }
        let last = start.at - 1;
        let until = equal_until(self.bytes, last, self.end - 1 + self.width);
        if until <= last + self.width {
            return start;
        }
        self.moved(start, until - self.width + 1)
    }
}
