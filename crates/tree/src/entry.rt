// One entry of a node table.
ghost use Rattle.std.specs.Prelude.{[], ◌∷◌, ◌≡◌, ◌≤◌, length};
ghost use Rattle.tree.specs.Places.{placed};
ghost use Rattle.tree.specs.Tree.{node};
ghost use Rattle.tree.specs.Wrote.{Wrote};

use super::NODES;
use node_table::Entry;

// Writes a node's entry after `used` others. The answer is how many there are then, or none if the table is full.
pub fn append(
    level: u64,
    start: usize,
    bytes: &[u8],
    parent: usize,
    place: usize,
    table: &mut [u8],
    used: usize,
) -> Option<usize>
    requires table_len { length table.old ≡ 65536 }
    requires used_bound { used ≤ 4096 }
    ensures { Wrote table.old table.new used (placed (node level start bytes.now) parent place ∷ []) result }
{
    if used == NODES {
        return None;
    }
    let id = fnv::block_id(bytes);
    let entry = Entry {
        id,
        level,
        start: start as u64,
        size: bytes.len() as u64,
        parent: parent as u64,
        place: place as u64,
    };
    node_table::put(table, used, entry);
    Some(used + 1)
}
