// Each node's pair, with count 1, in the nodes' order.
ghost use Rattle.std.specs.Prelude.{◌≤◌, ◌<◌, length};
ghost use Rattle.shingle.specs.Steps.{Followed, Written};

use super::{LEVEL, NODES};
use entries::Entry;

// The id of the last node of each level under the same parent, after a node of the given level and id. Below that node no
// node has come yet, so the ids of deeper levels are 0.
fn follow(last: [u64; 8], level: usize, id: u64) -> [u64; 8]
    requires { level < 8 }
    ensures { Followed last level id result }
{
    let mut next = [0u64; 8];
    next[..level].copy_from_slice(&last[..level]);
    next[level] = id;
    next
}

// Writes the pairs of the node table's nodes to the front of the table. The answer is how many there are.
pub fn write_pairs(nodes: &[u8], table: &mut [u8]) -> usize
    requires { 98304 ≤ length table.old }
    ensures { Written nodes.now table.old table.new result }
{
    let mut last = [0u64; 8];
    for i in 0..NODES {
        let id = node_table::node_id(nodes, i);
        if id == 0 {
            return i;
        }
        let level = node_table::node_level(nodes, i);
        let place = level as usize;
        let previous = last[place];
        let tail = level * LEVEL + 1;
        let single = Entry {
            previous,
            own: id,
            tail,
        };
        entries::put(table, i, single);
        last = follow(last, place, id);
    }
    NODES
}
