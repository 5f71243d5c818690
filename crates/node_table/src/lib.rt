// A node table as any lent bytes say it: 16 bytes an entry, two rows of 64 bits. Where there is no such entry every answer is 0.
#![tactic(auto)]

mod search;

ghost use Rattle.std.specs.Prelude.{◌≡◌, ◌<◌};
ghost use Rattle.node_table.specs.Entries.{id_at, extent_at, level_at, size_at, start_at, parent_at, place_at, entry_at, packed, put_of};
ghost use Rattle.node_table.specs.Nodes.{entries_in, inside, place_of, sought};

// An entry's size in bytes.
const ENTRY: usize = 16;

// The rows of an entry.
const ID: usize = 0;

const EXTENT: usize = 1;

// How many values a field of the second row can have, from the lowest bits on.
const LEVEL: u64 = 8;

const SIZE: u64 = 131072;

const START: u64 = 131072;

const PARENT: u64 = 4096;

const PLACE: u64 = 32;

// What an entry says of a node: its id and level, where its bytes start and how many there are, the entry of its parent, and its
// place among its siblings.
#[derive(Clone, Copy)]
pub struct Entry {
    pub id: u64,
    pub level: u64,
    pub start: u64,
    pub size: u64,
    pub parent: u64,
    pub place: u64,
}

// Row `n` of entry k, 0 or 1.
fn row(nodes: &[u8], k: usize, n: usize) -> u64
    requires { n < 2 }
    ensures id { n ≡ 0 → result ≡ id_at nodes.now k }
    ensures extent { n ≡ 1 → result ≡ extent_at nodes.now k }
{
    if nodes.len() / ENTRY <= k {
        return 0;
    }
    rows::load(nodes, k * 2 + n)
}

// The id of entry k.
pub fn node_id(nodes: &[u8], k: usize) -> u64
    ensures { result ≡ id_at nodes.now k }
{
    row(nodes, k, ID)
}

// The level of entry k.
pub fn node_level(nodes: &[u8], k: usize) -> u64
    ensures { result ≡ level_at nodes.now k }
{
    row(nodes, k, EXTENT) % LEVEL
}

// How many bytes the node of entry k has.
pub fn node_length(nodes: &[u8], k: usize) -> u64
    ensures { result ≡ size_at nodes.now k }
{
    row(nodes, k, EXTENT) / LEVEL % SIZE
}

// Where the node of entry k starts in the string.
pub fn node_start(nodes: &[u8], k: usize) -> u64
    ensures { result ≡ start_at nodes.now k }
{
    row(nodes, k, EXTENT) / LEVEL / SIZE % START
}

// The entry of the parent of the node of entry k.
pub fn node_parent(nodes: &[u8], k: usize) -> u64
    ensures { result ≡ parent_at nodes.now k }
{
    row(nodes, k, EXTENT) / LEVEL / SIZE / START % PARENT
}

// The place of the node of entry k among its siblings.
pub fn node_place(nodes: &[u8], k: usize) -> u64
    ensures { result ≡ place_at nodes.now k }
{
    row(nodes, k, EXTENT) / LEVEL / SIZE / START / PARENT % PLACE
}

// The second row of an entry.
fn pack(e: Entry) -> u64
    ensures { result ≡ packed e }
{
    let above = e.parent % PARENT + PARENT * (e.place % PLACE);
    let extent = e.size % SIZE + SIZE * (e.start % START + START * above);
    e.level % LEVEL + LEVEL * extent
}

// Writes e as entry k of the table. A table that has no such entry is left as it is.
pub fn put(nodes: &mut [u8], k: usize, e: Entry)
    ensures { nodes.new ≡ put_of nodes.old k e }
{
    if nodes.len() / ENTRY <= k {
        return;
    }
    rows::store(nodes, k * 2, e.id);
    rows::store(nodes, k * 2 + 1, pack(e));
}

// Whether entry k lies in a string of so many bytes.
pub fn lies_inside(nodes: &[u8], size: usize, k: usize) -> bool
    ensures { result ≡ inside size (entry_at nodes.now k) }
{
    let start = node_start(nodes, k);
    let length = node_length(nodes, k);
    start + length <= size as u64
}

// The place of the first listed entry that lies in a string of so many bytes and has the id and a level from `low` to `high`; where there
// is none, how many are listed, and then there is no entry at that place, or one of id 0.
pub fn find(nodes: &[u8], size: usize, low: u64, high: u64, id: u64) -> usize
    ensures { result ≡ place_of (sought size low high id) (entries_in nodes.now) }
{
    search::first(nodes, size, low, high, id)
}
