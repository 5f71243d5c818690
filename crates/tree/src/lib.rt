// A string's tree of blocks: the settings and their questions, and the node table that the tree is written to.
#![tactic(auto)]

mod cut;
mod entry;
mod level;
mod limits;

ghost use Rattle.std.specs.Prelude.{◌≡◌, ◌≤◌, leb, IfSome};
ghost use Rattle.refusal.specs.Answer.{answer_of, refused_by};
ghost use Rattle.tree.specs.Questions.{refusal};
ghost use Rattle.tree.specs.Table.{Tabled};
ghost use Rattle.tree.specs.Wrote.{Finished};

use refusal::Refusal;

// An entry's size in bytes.
const ENTRY: usize = 16;

// A tree has at most so many nodes.
const NODES: usize = 4096;

const ROOM: usize = NODES * ENTRY;

// Document 01's settings: window w, fan-out p, levels L, nominal length M, sketch width q.
#[derive(Clone, Copy, PartialEq, Eq)]
pub struct Settings {
    pub window: u64,
    pub fan_out: u64,
    pub levels: u64,
    pub nominal: u64,
    pub width: u64,
}

// Questions 1 to 6, of settings and of a string's length.
pub fn question(settings: Settings, size: usize) -> Result<(), Refusal>
    ensures { refused_by result ≡ refusal settings size }
{
    limits::shape_question(settings.window, settings.fan_out, settings.levels)?;
    let least = level::power(settings.fan_out, settings.levels);
    limits::size_question(least, settings.nominal, settings.width, size)
}

// Whether a node table of so many bytes has room for 4,096 nodes.
pub fn has_room(nodes: usize) -> bool
    ensures { result ≡ leb 65536 nodes }
{
    ROOM <= nodes
}

// Clears the table past its used entries, and answers how many they are. If they did not fit, it clears all of it.
fn finish(nodes: &mut [u8], used: Option<usize>) -> Result<usize, Refusal>
    requires { IfSome used (λ n. n ≤ 4096) }
    ensures { Finished nodes.old nodes.new used (answer_of result) }
{
    let Some(used) = used else {
        rows::clear(nodes, 0);
        return Err(Refusal::Nodes);
    };
    rows::clear(nodes, used * ENTRY);
    Ok(used)
}

// Cuts a string into its tree of blocks and writes the tree to the node table. Asked are 1 to 6, 7 of the node table, and 8; the answer
// is the number of nodes. A no at 1 to 7 leaves the table as it is, at 8 the table is all zero, and after a yes it is zero past the last
// node.
pub fn cut_string(settings: Settings, string: &[u8], nodes: &mut [u8]) -> Result<usize, Refusal>
    ensures { Tabled settings string.now nodes.old nodes.new (answer_of result) }
{
    question(settings, string.len())?;
    if !has_room(nodes.len()) {
        return Err(Refusal::Room);
    }
    let used = cut::cut_node(
        settings,
        settings.levels,
        0,
        0,
        string,
        0,
        0,
        &mut nodes[..ROOM],
        0,
    );
    finish(nodes, used)
}
