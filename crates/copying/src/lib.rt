// Own nodes' bytes copied to the output, while the top of the pile is the id of one.
#![tactic(auto)]

mod output;
mod turns;

ghost use Rattle.copying.specs.Copying.{Finds, Copies};

// A pending node.
#[derive(Clone, Copy)]
pub struct Waiting {
    pub level: u64,
    pub id: u64,
}

// Where a node lies in the string.
#[derive(Clone, Copy)]
pub struct Place {
    pub start: usize,
    pub size: usize,
}

// What copying leaves: how many bytes are built, and how many nodes are pending.
#[derive(Clone, Copy)]
pub struct Copied {
    pub built: usize,
    pub waiting: usize,
}

// An entry's level has three bits.
const LAST_LEVEL: u64 = 7;

// The first node of the table that has this id, at any level, and lies in the string.
pub fn find(string: &[u8], nodes: &[u8], id: u64) -> Option<Place>
    ensures { Finds string.now nodes.now id result }
{
    let k = node_table::find(nodes, string.len(), 0, LAST_LEVEL, id);
    if node_table::node_id(nodes, k) == 0 {
        return None;
    }
    let start = node_table::node_start(nodes, k) as usize;
    let size = node_table::node_length(nodes, k) as usize;
    Some(Place { start, size })
}

// Copies own nodes' bytes to the end of the output, as long as the last of the pending nodes has the id of one. Where the output gets
// longer than `size`, or is so already, all of it is zeroed and nothing is left.
pub fn settle(
    string: &[u8],
    nodes: &[u8],
    size: usize,
    output: &mut [u8],
    built: usize,
    waiting: usize,
    pile: [Waiting; 128],
) -> Option<Copied>
    ensures { Copies string.now nodes.now size output.old output.new built waiting pile result }
{
    if output.len() < size || size < built || 128 < waiting {
        return turns::too_long(output);
    }
    turns::copy_known(string, nodes, size, output, built, waiting, pile)
}
