// The search over the trails of a multiset, in their order: it skips completed trails until the numbered one.
// It finds the trail, as the rows of its pairs in the last places, or says how many trails are still to be skipped.
ghost use Rattle.std.specs.Prelude.{◌≡◌, List, [], ◌∷◌, ◌++◌, ℕ, ◌≤◌, ◌+◌, ◌-◌, get_or, drop, replicate};
ghost use Rattle.trail.specs.Trails.{pairs_of, rising, total, trails_over};
ghost use Rattle.trail.specs.Search.{Least, Answer, Following, led, trails_up_to};

use crate::links::{Table, leaving};
use crate::reach::lost;
use crate::table::narrow;

// Of the unused rows that leave v for an id from low to top, one with the least id.
// `from` is the first row that leaves v.
fn least(table: &Table, counts: &[u8; 32], v: u64, from: usize, low: u64, top: u64) -> Option<usize>
    requires { Following table.now.previous v 0 from }
    ensures { Least table.now.previous table.now.own counts.now v low top 32 result }
{
    let mut best = None;
    let mut limit = top;

    // A while: the rows are followed, not counted.
    let mut row = from;
    while row < 32 {
        let at = row;
        row = table.after[at];
        // A row that is used up is passed over before its id is read: most are, deep in a search.
        if counts[at] == 0 {
            continue;
        }
        let id = table.own[at];
        if low <= id && id <= limit {
            best = Some(at);
            limit = id;
        }
    }
    best
}

// The same for the ids above x.
fn above(table: &Table, counts: &[u8; 32], v: u64, from: usize, x: u64, top: u64) -> Option<usize>
    requires { Following table.now.previous v 0 from }
    ensures { Least table.now.previous table.now.own counts.now v (x + 1) top 32 result }
{
    if top <= x {
        return None;
    }
    least(table, counts, v, from, x + 1, top)
}

// No pair is left, so a trail is complete: the numbered one, or one that is skipped.
fn complete(skip: u64) -> Result<[u8; 32], u64>
    ensures { (owns : List ℕ) → Answer ([] ∷ []) 0 skip owns result }
{
    if skip == 0 {
        return Ok([0; 32]);
    }
    Err(skip - 1)
}

// The search goes on from v, k pairs being unused, over trails whose first id is at most top.
// Where v was one of several ids to go on to (`fork`), it turns back if an unused pair is out of reach. Over pairs in balance,
// as those of `find` and of an order are, a trail then goes on from v. From the only id to go on to it does so anyway: a
// test there would find nothing. So no branch is walked in vain. Where top is not the greatest id, an id above it is another
// to go on to: the order's own.
pub fn search(
    table: &Table,
    counts: [u8; 32],
    v: u64,
    from: usize,
    top: u64,
    k: usize,
    skip: u64,
    fork: bool,
) -> Result<[u8; 32], u64>
    requires size { total counts ≡ k }
    requires few { k ≤ 32 }
    requires leaves { Following table.now.previous v 0 from }
    ensures { Answer (trails_up_to top k (rising table.now.own) v (pairs_of table.now.previous table.now.own counts)) k skip table.now.own result }
{
    if k == 0 {
        return complete(skip);
    }
    if fork && lost(table, &counts, v, from) {
        return Err(skip);
    }
    let mut left = skip;
    let mut many = top < u64::MAX;
    let mut next = least(table, &counts, v, from, 0, top);
    while let Some(i) = next {
        let x = table.own[i];
        let then = above(table, &counts, v, from, x, top);
        many |= then.is_some();
        let mut fewer = counts;
        fewer[i] -= 1;
        match search(table, fewer, x, table.first[i], u64::MAX, k - 1, left, many) {
            Ok(mut trail) => {
                trail[32 - k] = i as u8;
                return Ok(trail);
            }
            Err(rest) => left = rest,
        }
        next = then;
    }
    Err(left)
}

// The trail that `skip` trails over the k pairs come before.
pub fn find(table: &Table, counts: &[u64; 32], k: usize, skip: u64) -> Result<[u8; 32], u64>
    requires size { total counts.now ≡ k }
    requires few { k ≤ 32 }
    ensures { Answer (trails_over table.now.previous table.now.own counts.now) k skip table.now.own result }
{
    let from = leaving(&table.previous, 0, 0);
    search(table, narrow(counts), 0, from, u64::MAX, k, skip, true)
}

// The id that a row leads to; 0 if there is no such row.
fn id(own: &[u64; 32], row: u8) -> u64
    ensures { result ≡ get_or own.now row 0 }
{
    own.get(usize::from(row)).copied().unwrap_or(0)
}

// The ids that the last k rows lead to, at the front.
pub fn front(own: &[u64; 32], rows: &[u8; 32], k: usize) -> [u64; 32]
    requires { k ≤ 32 }
    ensures { result ≡ drop (32 - k) (led own.now rows.now) ++ replicate (32 - k) 0 }
{
    let mut ids = [0; 32];
    let last = &rows[32 - k..];
    for (i, row) in last.iter().enumerate() {
        ids[i] = id(own, *row);
    }
    ids
}
