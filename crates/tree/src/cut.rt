// Cutting a node and walking its children, which call each other: with each call fewer levels, or else fewer children, are left.
ghost use Rattle.std.specs.Prelude.{◌+◌, length, take, drop};
ghost use Rattle.partition.specs.Blocks.{blocks_from};
ghost use Rattle.tree.specs.Bounds.{Cutting, Walking};
ghost use Rattle.tree.specs.Places.{placed_tree, placed_in_turn};
ghost use Rattle.tree.specs.Wrote.{Wrote};

use super::{Settings, entry, level};
use partition::Cuts;

// Writes a node and all below it after `used` entries: bytes that start at `start` of the string, at a level that leaves
// so many to cut, at the given place under the entry `parent`. The answer is how many entries there are then, or none if they
// do not fit.
#[cycle(cut_node_walk_children)]
pub fn cut_node(
    settings: Settings,
    left: u64,
    level: u64,
    start: usize,
    bytes: &[u8],
    parent: usize,
    place: usize,
    table: &mut [u8],
    used: usize,
) -> Option<usize>
    requires { Cutting settings left level start (length bytes.now) (length table.old) used }
    ensures { Wrote table.old table.new used (placed_tree settings left level start used parent place bytes.now) result }
{
    let next = entry::append(level, start, bytes, parent, place, table, used)?;
    if left == 0 {
        return Some(next);
    }
    let cuts = level::cuts_at(settings, level + 1, bytes);
    walk_children(
        settings,
        left - 1,
        level + 1,
        start,
        bytes,
        cuts,
        used,
        0,
        0,
        table,
        next,
    )
}

// Writes the children of the node of entry `parent`, from number `child` on, each with all below it. That child starts at the
// node's byte `from`, and `level` and `left` are the children's.
#[cycle(cut_node_walk_children)]
fn walk_children(
    settings: Settings,
    left: u64,
    level: u64,
    start: usize,
    bytes: &[u8],
    cuts: Cuts,
    parent: usize,
    child: usize,
    from: usize,
    table: &mut [u8],
    used: usize,
) -> Option<usize>
    requires { Walking settings left level start (length bytes.now) cuts.at cuts.n child from (length table.old) used }
    ensures { Wrote table.old table.new used (placed_in_turn (placed_tree settings left level) parent (start + from) used child (blocks_from from (drop child (take cuts.n cuts.at)) bytes.now)) result }
{
    let n = cuts.n;
    let to = if child < n {
        cuts.at[child]
    } else {
        bytes.len()
    };
    let next = cut_node(
        settings,
        left,
        level,
        start + from,
        &bytes[from..to],
        parent,
        child,
        table,
        used,
    )?;
    if n <= child {
        return Some(next);
    }
    walk_children(
        settings,
        left,
        level,
        start,
        bytes,
        cuts,
        parent,
        child + 1,
        to,
        table,
        next,
    )
}
