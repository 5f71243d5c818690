// The receiver's calls with its state held in lent bytes, as C calls them.
#![tactic(auto)]

ghost use Rattle.std.specs.Prelude.{◌≡◌};
ghost use Rattle.tree.specs.Questions.{within};
ghost use Rattle.refusal.specs.Answer.{answer_of};
ghost use Rattle.state.specs.Receivers.{progress_number};
ghost use Rattle.state_bytes.specs.Bytes.{state_in};
ghost use Rattle.receiver.specs.Calls.{Asked};
ghost use Rattle.held.specs.Held.{HeldSetUp, HeldTakes};

use refusal::Refusal;
use setup::Lent;
use state::Progress;
use tree::Settings;

// How many bytes a state has.
const SIZE: usize = 2144;

// The last question whose no changes nothing.
const LAST_UNMOVED: u64 = 11;

// Sets a receiver up: its three tables are filled from its own string, and its state is written to the front of the bytes. Asked are 1
// to 8, and 7 of the state too. Answers the number of nodes. A no leaves the state as it is.
pub fn setup(
    settings: Settings,
    session: u64,
    string: &[u8],
    nodes: &mut [u8],
    shingles: &mut [u8],
    cells: &mut [u8],
    state: &mut [u8],
) -> Result<usize, Refusal>
    ensures { HeldSetUp settings session string.now nodes.old nodes.new shingles.old
        shingles.new cells.old cells.new state.old state.new (answer_of result) }
{
    tree::question(settings, string.len())?;
    if state.len() < SIZE {
        return Err(Refusal::Room);
    }
    let ready = receiver::setup(settings, session, string, nodes, shingles, cells)?;
    state_bytes::store(state, ready.state);
    Ok(ready.nodes)
}

// Whether an answer is a no that changes nothing: those to the questions of what is lent, and those to the message itself.
fn refuses(answer: Result<Progress, Refusal>) -> bool
    ensures { result ≡ within 1 11 (progress_number answer) }
{
    match answer {
        Ok(_) => false,
        Err(question) => question.number() <= LAST_UNMOVED,
    }
}

// Takes a message. A no that changes nothing leaves the state's bytes as they are; else each of them is written.
pub fn take(
    state: &mut [u8],
    string: &[u8],
    nodes: &[u8],
    shingles: &mut [u8],
    cells: &[u8],
    message: &[u8],
    output: &mut [u8],
) -> Result<Progress, Refusal>
    ensures { HeldTakes state.old state.new string.now nodes.now shingles.old
        shingles.new cells.now message.now output.old output.new (progress_number result) }
{
    let before = state_bytes::load(state);
    let taken = taking::take(before, string, nodes, shingles, cells, message, output);
    if !refuses(taken.answer) {
        state_bytes::store(state, taken.state);
    }
    taken.answer
}

// Writes the outstanding query, and answers the number of bytes written. By a no the buffer is as it was.
pub fn query(state: &[u8], lent: Lent, buffer: &mut [u8]) -> Result<usize, Refusal>
    ensures { Asked (state_in state.now) lent.entry.string.now lent.entry.nodes.now lent.entry.shingles.now
        lent.entry.cells.now buffer.old buffer.new (answer_of result) }
{
    let held = state_bytes::load(state);
    receiver::query(held, lent, buffer)
}
