// The nodes of a tree that share a byte with a range of the string, each with its parent: document 02, request 1.
#![tactic(auto)]

ghost use Rattle.std.specs.Prelude.{◌++◌, ◌≡◌, ◌+◌, ◌*◌, ◌/◌, ◌≤◌, ◌<◌, length, drop};
ghost use Rattle.node_table.specs.Entries.{entry_at};
ghost use Rattle.refusal.specs.Answer.{answer_of};
ghost use Rattle.crossing.specs.Crossing.{crosses, crossing, crossing_bytes, Crossed};
ghost use Rattle.crossing.specs.Steps.{Noted};

use refusal::Refusal;

// The size in bytes of an entry of a node table.
const ENTRY: usize = 16;

// The size in bytes of a pair, two rows.
const PAIR: usize = 16;

// A range of a string of so many bytes, which ends by the string's end.
#[derive(Clone, Copy)]
struct Span {
    string: usize,
    start: u64,
    size: u64,
    ghost inside: { start + size ≤ string },
}

// Whether entry k lies in the string and shares a byte with the range.
fn crosses(nodes: &[u8], span: Span, k: usize) -> bool
    ensures { result ≡ crosses span.string span.start span.size (entry_at nodes.now k) }
{
    let first = node_table::node_start(nodes, k);
    let past = first + node_table::node_length(nodes, k);
    let end = span.start + span.size;
    let low = span.start.max(first);
    let high = end.min(past);
    if high <= low {
        return false;
    }
    node_table::lies_inside(nodes, span.string, k)
}

// How many nodes the range crosses.
fn count(nodes: &[u8], span: Span) -> usize
    ensures { result ≡ length (crossing span.string span.start span.size nodes.now) }
{
    let entries = nodes.len() / ENTRY;
    let mut found = 0;
    for k in 0..entries {
        if node_table::node_id(nodes, k) == 0 {
            return found;
        }
        if crosses(nodes, span, k) {
            found += 1;
        }
    }
    found
}

// Writes entry k as pair number `at` of the table, if the range crosses it. The answer is how many pairs there are then.
fn note(nodes: &[u8], span: Span, k: usize, table: &mut [u8], at: usize) -> usize
    requires at_le_k { at ≤ k }
    requires k_in_bounds { k < length nodes.now / 16 }
    ensures { Noted span.string span.start span.size nodes.now k table.old table.new at result }
{
    if crosses(nodes, span, k) {
        rows::store(table, at * 2, k as u64);
        let parent = node_table::node_parent(nodes, k);
        rows::store(table, at * 2 + 1, parent);
        return at + 1;
    }
    at
}

// The nodes that the range crosses, written from the front of the table on.
fn write(nodes: &[u8], span: Span, table: &mut [u8])
    requires { 16 * length (crossing span.string span.start span.size nodes.now) ≤ length table.old }
    ensures { table.new ≡ crossing_bytes (crossing span.string span.start span.size nodes.now) ++ drop (16 * length (crossing span.string span.start span.size nodes.now)) table.old }
{
    let entries = nodes.len() / ENTRY;
    let mut at = 0;
    for place in 0..entries {
        if node_table::node_id(nodes, place) == 0 {
            return;
        }
        at = note(nodes, span, place, table, at);
    }
}

// Writes the nodes that share a byte with the range into the table, two rows each: the node's place in the node table, and its
// parent's. The answer is how many there are. Refused are a range that does not lie in the string, and then a table without room for
// them all; and then the table is as it was.
pub fn crossed(
    string: &[u8],
    nodes: &[u8],
    start: u64,
    size: u64,
    table: &mut [u8],
) -> Result<usize, Refusal>
    ensures { Crossed (length string.now) nodes.now start size table.old table.new (answer_of result) }
{
    let n = string.len();
    if (n as u64) < start {
        return Err(Refusal::Range);
    }
    // By what is left of the string: the sum of start and size may be 2^64 and more.
    let left = n as u64 - start;
    if left < size {
        return Err(Refusal::Range);
    }
    let span = Span {
        string: n,
        start,
        size,
    };
    let found = count(nodes, span);
    if table.len() / PAIR < found {
        return Err(Refusal::Crossed);
    }
    write(nodes, span, table);
    Ok(found)
}
