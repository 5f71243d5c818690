// Taking a node reply: 13 and 15, then a composition or a literal, or 16 where there is neither.
ghost use Rattle.std.specs.Prelude.{◌≡◌};
ghost use Rattle.refusal.specs.Answer.{refused_by};
ghost use Rattle.taking.specs.Steps.{early_refusal, NodeSaid, CompositionSaid, LiteralSaid, NodeTaken};

use advance::{advance, end};
use heard::{Content, Reply};
use refusal::Refusal;
use state::{Receiver, Taken};

// The greatest length of a string.
const LONGEST: u64 = 65536;

// So many node replies a session takes.
const REPLIES: u64 = 4096;

// What refuses a node reply before its content is looked at.
#[tactic(auto, unfolding(crate::specs::Steps::early_refusal, tree::specs::Questions::ask))]
fn early(size: u64, room: usize, taken: u64) -> Result<(), Refusal>
    ensures { refused_by result ≡ early_refusal size room taken }
{
    if LONGEST < size {
        return Err(Refusal::OutputLength);
    }
    if room < size as usize {
        return Err(Refusal::OutputLength);
    }
    if REPLIES <= taken {
        return Err(Refusal::Replies);
    }
    Ok(())
}

// Takes a composition: the node's children take its place on the pile.
fn compose(
    state: Receiver,
    level: u64,
    trail: Option<u64>,
    count: usize,
    string: &[u8],
    nodes: &[u8],
    shingles: &[u8],
    message: &[u8],
    output: &mut [u8],
) -> Taken
    requires { CompositionSaid state level trail count message.now output.old }
    ensures { NodeTaken state string.now nodes.now shingles.now message.now
        output.old output.new result }
{
    let settings = state.settings;
    let rest = state.waiting - 1;
    let Some(children) = composition::children_of(
        settings, shingles, message, level, trail, count, rest,
    ) else {
        return end(state, Refusal::Order, output);
    };
    if state.size < state.built {
        return end(state, Refusal::Overflow, output);
    }
    let below = state.pile;
    let ids = children.ids;
    let pile = state::push(below, rest, level + 1, ids, children.count);
    advance(
        state,
        state.size,
        state.root,
        state.taken + 1,
        string,
        nodes,
        output,
        state.built as usize,
        rest + children.count,
        pile,
    )
}

// Takes a literal: its bytes go to the end of what is built, and the node leaves the pile.
fn append(
    state: Receiver,
    count: usize,
    string: &[u8],
    nodes: &[u8],
    shingles: &[u8],
    message: &[u8],
    output: &mut [u8],
) -> Taken
    requires { LiteralSaid state count message.now output.old }
    ensures { NodeTaken state string.now nodes.now shingles.now message.now
        output.old output.new result }
{
    if state.size < state.built {
        return end(state, Refusal::Overflow, output);
    }
    let left = (state.size - state.built) as usize;
    if left < count {
        return end(state, Refusal::Overflow, output);
    }
    let built = state.built as usize;
    let pile = state.pile;
    message::reader::copy_bytes(message, 5, count, &mut output[built..]);
    advance(
        state,
        state.size,
        state.root,
        state.taken + 1,
        string,
        nodes,
        output,
        built + count,
        state.waiting - 1,
        pile,
    )
}

// Takes a node reply.
pub fn take(
    state: Receiver,
    reply: Reply,
    string: &[u8],
    nodes: &[u8],
    shingles: &[u8],
    message: &[u8],
    output: &mut [u8],
) -> Taken
    requires { NodeSaid state reply message.now }
    ensures { NodeTaken state string.now nodes.now shingles.now message.now
        output.old output.new result }
{
    if let Err(question) = early(state.size, output.len(), state.taken) {
        return end(state, question, output);
    }
    match reply.content {
        Content::Composition { trail, count } => compose(
            state,
            reply.level,
            trail,
            count,
            string,
            nodes,
            shingles,
            message,
            output,
        ),
        Content::Literal { count } => {
            append(state, count, string, nodes, shingles, message, output)
        }
        Content::NoNode => end(state, Refusal::NoNode, output),
    }
}
