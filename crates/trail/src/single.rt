// Whether a multiset has one trail and no other.
ghost use Rattle.std.specs.Prelude.{◌≡◌, ◌<◌, ◌≤◌, length};
ghost use Rattle.trail.specs.Trails.{total, trails_over, only_over};

use crate::links::Table;
use crate::walk::find;

// Whether the k pairs, over which there is a trail, have no other: a search that skips one finds none.
pub fn only(table: &Table, counts: &[u64; 32], k: usize) -> bool
    requires size { total counts.now ≡ k }
    requires few { k ≤ 32 }
    requires there { 0 < length (trails_over table.now.previous table.now.own counts.now) }
    ensures { result ≡ only_over table.now.previous table.now.own counts.now }
{
    let second = find(table, counts, k, 1);
    second.is_err()
}
