// The first entry of a node table with an id and a level.
ghost use Rattle.std.specs.Prelude.{◌≡◌};
ghost use Rattle.node_table.specs.Entries.{entry_at};
ghost use Rattle.node_table.specs.Nodes.{entries_in, place_of, sought};

use super::{ENTRY, lies_inside, node_id, node_level};

// Whether entry k lies in a string of so many bytes and has the id and a level from `low` to `high`.
fn matches(nodes: &[u8], size: usize, low: u64, high: u64, id: u64, k: usize) -> bool
    ensures { result ≡ sought size low high id (entry_at nodes.now k) }
{
    if node_id(nodes, k) != id {
        return false;
    }
    let level = node_level(nodes, k);
    if level < low || high < level {
        return false;
    }
    lies_inside(nodes, size, k)
}

// The place of the first that matches, or how many are listed.
pub fn first(nodes: &[u8], size: usize, low: u64, high: u64, id: u64) -> usize
    ensures { result ≡ place_of (sought size low high id) (entries_in nodes.now) }
{
    let count = nodes.len() / ENTRY;
    for k in 0..count {
        if node_id(nodes, k) == 0 {
            return k;
        }
        if matches(nodes, size, low, high, id, k) {
            return k;
        }
    }
    count
}
