// The shingle list of a node table, and looking things up in a list.
#![tactic(auto)]

mod list;
mod merge;
mod pairs;

ghost use Rattle.std.specs.Prelude.{◌≡◌, length};
ghost use Rattle.refusal.specs.Answer.{answer_of};
ghost use Rattle.shingle.specs.Table.{Filled, shingle_in_table, shingles_in, holds};

use refusal::Refusal;

// An entry's size in bytes.
const ENTRY: usize = 24;

// The nodes of a table are at most so many, and so are its shingles.
const NODES: usize = 4096;

const ROOM: usize = NODES * ENTRY;

// In an entry's tail the level stands above the count, from here on.
const LEVEL: u64 = 65536;

// Document 01's shingle: a pair of neighbours' ids at a level, and how many nodes of the level give it.
#[derive(Clone, Copy, PartialEq, Eq)]
pub struct Shingle {
    pub previous: u64,
    pub own: u64,
    pub level: u64,
    pub count: u64,
}

// Fills the shingle table with the sorted list of the node table's shingles, zero past its end. A shingle table without room
// for 4,096 is refused and left as it is. The answer is the number of shingles.
pub fn fill_shingles(nodes: &[u8], shingles: &mut [u8]) -> Result<usize, Refusal>
    ensures { Filled nodes.now shingles.old shingles.new (answer_of result) }
{
    if shingles.len() < ROOM {
        return Err(Refusal::Room);
    }
    let n = pairs::write_pairs(nodes, shingles);
    let m = merge::arrange(&mut shingles[..n * ENTRY]);
    rows::clear(shingles, m * ENTRY);
    Ok(m)
}

// Entry k of a shingle table.
pub fn shingle_at(shingles: &[u8], k: usize) -> Shingle
    ensures { result ≡ shingle_in_table shingles.now k }
{
    let e = entries::get(shingles, k);
    Shingle {
        previous: e.previous,
        own: e.own,
        level: e.tail / LEVEL,
        count: e.tail % LEVEL,
    }
}

// How many shingles a table lists: those before its first count 0, or before its end.
pub fn size(shingles: &[u8]) -> usize
    ensures { result ≡ length (shingles_in shingles.now) }
{
    list::size(shingles)
}

// Whether a shingle, count included, is in the list of a table.
pub fn contains(shingles: &[u8], s: Shingle) -> bool
    ensures { result ≡ holds s (shingles_in shingles.now) }
{
    list::contains(shingles, s)
}
