// Rows that leave the same id, linked: the search looks at those that leave its id and passes over all others.
ghost use Rattle.std.specs.Prelude.{◌≡◌, ℕ, ◌^◌, ◌<◌, ◌≤◌, slice_index};
ghost use Rattle.trail.specs.Search.{Following, Linked};

use crate::reach::rows_where;

// The columns of a multiset of pairs, and which rows can follow which.
#[derive(Drop)]
pub struct Table {
    pub previous: [u64; 32],
    pub own: [u64; 32],

    // For each row, the rows that can follow it, a bit for each.
    pub next: [u64; 32],

    // For each row, the first one that can follow it; 32 if there is none.
    pub first: [usize; 32],

    // For each row, the next one that leaves the same id; 32 if there is none.
    pub after: [usize; 32],
    ghost linked: { Linked previous own first after },

    // What the type says of each id, for the proof of the search, which goes over all of them.
    ghost bounded: { (row : ℕ) → slice_index own row < 2 ^ 64 },
}

// The first row from `from` on that leaves the id; 32 if there is none.
pub fn leaving(previous: &[u64; 32], id: u64, from: usize) -> usize
    requires { from ≤ 32 }
    ensures { Following previous.now id from result }
{
    for row in from..32 {
        if previous[row] == id {
            return row;
        }
    }
    32
}

// The rows of these columns, linked.
pub fn link(previous: &[u64; 32], own: &[u64; 32]) -> Table
    ensures { (result.previous ≡ previous.now) × (result.own ≡ own.now) }
{
    let mut next = [0; 32];
    let mut first = [32; 32];
    let mut after = [32; 32];
    for row in 0..32 {
        let id = own[row];
        next[row] = rows_where(previous, |other| *other == id);
        first[row] = leaving(previous, id, 0);
        after[row] = leaving(previous, previous[row], row + 1);
    }
    Table {
        previous: *previous,
        own: *own,
        next,
        first,
        after,
    }
}
