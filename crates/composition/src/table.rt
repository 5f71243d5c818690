// The multiset of pairs that a composition's references give, as the rows of a table.
ghost use Rattle.std.specs.Prelude.{◌≡◌, ◌≤◌, length};
ghost use Rattle.shingle.specs.Table.{shingles_in};
ghost use Rattle.composition.specs.Composition.{refs_in};
ghost use Rattle.composition.specs.Table.{ref, Named, Filled};

use message::reader::reference_at;
use shingle::{Shingle, shingle_at};
use trail::Pairs;

// The shingle that a reference names in a table that lists `size` shingles, if it is of that level and counts as often at least.
fn look_up(shingles: &[u8], size: usize, level: u64, index: u64, count: u64) -> Option<Shingle>
    requires { size ≡ length (shingles_in shingles.now) }
    ensures { Named (shingles_in shingles.now) level (ref index count) result }
{
    let at = index as usize;
    if size <= at {
        return None;
    }
    let s = shingle_at(shingles, at);
    if s.level != level {
        return None;
    }
    if s.count < count {
        return None;
    }
    Some(s)
}

// The pairs of the first `count` references of a message from word `at` on, if each names a shingle of that level.
pub fn fill(shingles: &[u8], message: &[u8], at: usize, level: u64, count: usize) -> Option<Pairs>
    requires { count ≤ 32 }
    ensures { Filled (shingles_in shingles.now) level (refs_in message.now at count) result }
{
    let size = shingle::size(shingles);
    let mut previous = [0u64; 32];
    let mut own = [0u64; 32];
    let mut counts = [0u64; 32];
    for k in 0..count {
        let reference = reference_at(message, at, k);
        let s = look_up(shingles, size, level, reference.index, reference.count)?;
        previous[k] = s.previous;
        own[k] = s.own;
        counts[k] = reference.count;
    }
    Some(Pairs {
        previous,
        own,
        count: counts,
    })
}
