// Trails: a node's children travel as an unordered multiset of pairs and, where these have several orders, one number; from
// that their order is had again.
// `number` says which of the multiset's trails an order is, and `order` gives the trail of a number; both say whether it is
// the only one.
#![tactic(auto)]

mod links;
mod rank;
mod reach;
mod single;
mod table;
mod walk;

ghost use Rattle.std.specs.Prelude.{◌≡◌};
ghost use Rattle.trail.specs.Calls.{numbered, ordered, number_answer, order_answer};

use links::link;
use rank::{chain, rank};
use refusal::Refusal;
use single::only;
use table::{balanced, size};
use walk::{find, front};

// Numbering answers this for every greater number.
const CAP: u64 = 4096;

// A multiset of pairs (previous id, own id) with counts, in rows: in any order, and rows of the same pair add up.
// A row of count 0 holds nothing.
#[derive(Clone, Copy)]
pub struct Pairs {
    pub previous: [u64; 32],
    pub own: [u64; 32],
    pub count: [u64; 32],
}

// An order's number: its place among the trails over its pairs; and whether no other order has the same pairs.
#[derive(Clone, Copy)]
pub struct Numbered {
    pub place: u64,
    pub only: bool,
}

// A trail: its k ids, zeros after them, and whether it is the only one over its pairs.
#[derive(Clone, Copy)]
pub struct Trail {
    pub k: usize,
    pub ids: [u64; 32],
    pub only: bool,
}

// The number of an order: how many trails over its pairs come before it, 4,096 for every number above 4,095. Refused unless there are 1
// to 32 ids, none of them 0.
pub fn number(ids: &[u64]) -> Result<Numbered, Refusal>
    ensures { numbered result ≡ number_answer ids.now }
{
    if ids.len() == 0 || 32 < ids.len() || ids.contains(&0) {
        return Err(Refusal::Order);
    }
    let pairs = chain(ids);
    let table = link(&pairs.previous, &pairs.own);
    let place = rank(&table, &pairs.count, ids);
    let only = only(&table, &pairs.count, ids.len());
    Ok(Numbered { place, only })
}

// The order of a number: the trail over these pairs that so many come before. Refused unless there are 1 to 32 pairs, the
// number is at most 4,095 and the trail exists.
pub fn order(pairs: Pairs, number: u64) -> Result<Trail, Refusal>
    ensures { ordered result ≡ order_answer pairs number }
{
    let sum = size(&pairs.count);
    if sum == 0 || 32 < sum || CAP <= number {
        return Err(Refusal::Order);
    }
    // Nothing is linked where some id is left too often.
    if !balanced(&pairs.previous, &pairs.own, &pairs.count) {
        return Err(Refusal::Order);
    }
    let k = sum as usize;
    let table = link(&pairs.previous, &pairs.own);
    match find(&table, &pairs.count, k, number) {
        Ok(rows) => Ok(Trail {
            k,
            ids: front(&table.own, &rows, k),
            only: only(&table, &pairs.count, k),
        }),
        Err(_) => Err(Refusal::Order),
    }
}
