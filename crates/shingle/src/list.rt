// Scans of a shingle table up to its first count 0.
ghost use Rattle.std.specs.Prelude.{◌≡◌, length};
ghost use Rattle.shingle.specs.Table.{shingles_in, holds};

use super::{ENTRY, LEVEL, Shingle, shingle_at};

// How many shingles the table lists.
pub fn size(shingles: &[u8]) -> usize
    ensures { result ≡ length (shingles_in shingles.now) }
{
    let n = shingles.len() / ENTRY;
    for k in 0..n {
        let e = entries::get(shingles, k);
        if e.tail % LEVEL == 0 {
            return k;
        }
    }
    n
}

// Whether the shingle is in the table's list.
pub fn contains(shingles: &[u8], s: Shingle) -> bool
    ensures { result ≡ holds s (shingles_in shingles.now) }
{
    let n = shingles.len() / ENTRY;
    for place in 0..n {
        let listed = shingle_at(shingles, place);
        if listed.count == 0 {
            return false;
        }
        if s == listed {
            return true;
        }
    }
    false
}
