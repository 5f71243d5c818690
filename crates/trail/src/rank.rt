// The number of an order: step by step, the trails that start with a smaller id.
ghost use Rattle.std.specs.Prelude.{◌≡◌, ◌≤◌, length};
ghost use Rattle.trail.specs.Trails.{trail_number};
ghost use Rattle.trail.specs.Search.{Chained, Numberable};

use crate::links::{Table, leaving};
use crate::table::narrow;
use crate::walk::search;
use crate::{CAP, Pairs};

// The pairs of an order, starting from 0, in their order.
pub fn chain(ids: &[u64]) -> Pairs
    requires { length ids.now ≤ 32 }
    ensures { Chained ids.now result.previous result.own result.count }
{
    let mut previous = [0; 32];
    let mut own = [0; 32];
    let mut count = [0; 32];
    let mut last = 0;
    for (i, id) in ids.iter().enumerate() {
        previous[i] = last;
        own[i] = *id;
        count[i] = 1;
        last = *id;
    }
    Pairs {
        previous,
        own,
        count,
    }
}

// How many trails over the pairs of these ids come before them, at most 4,096. `skip` is how many more would make it that.
pub fn rank(table: &Table, counts: &[u64; 32], ids: &[u64]) -> u64
    requires { Numberable ids.now table.now.previous table.now.own counts.now }
    ensures { result ≡ trail_number ids.now }
{
    let mut unused = narrow(counts);
    let mut last = 0;
    let mut skip = CAP;
    for (i, id) in ids.iter().enumerate() {
        let from = leaving(&table.previous, last, 0);
        match search(
            table,
            unused,
            last,
            from,
            *id - 1,
            ids.len() - i,
            skip,
            false,
        ) {
            Ok(_) => return CAP,
            Err(left) => skip = left,
        }
        unused[i] = 0;
        last = *id;
    }
    CAP - skip
}
