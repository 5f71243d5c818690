// Setting a receiver up, and writing its query.
#![tactic(auto)]

ghost use Rattle.refusal.specs.Answer.{answer_of};
ghost use Rattle.receiver.specs.Calls.{ReceiverSetUp, Asked};

use refusal::Refusal;
use setup::Lent;
use state::Receiver;
use tree::Settings;

// A receiver that is set up: how many nodes its string has, and the state that it starts with.
#[derive(Clone, Copy)]
pub struct Ready {
    pub nodes: usize,
    pub state: Receiver,
}

// Sets a receiver up: its three tables are filled from its own string. The session number is taken modulo 2^24. By a no no state is made.
pub fn setup(
    settings: Settings,
    session: u64,
    string: &[u8],
    nodes: &mut [u8],
    shingles: &mut [u8],
    cells: &mut [u8],
) -> Result<Ready, Refusal>
    ensures { ReceiverSetUp settings session string.now nodes.old nodes.new shingles.old
        shingles.new cells.old cells.new result }
{
    let count = setup::fill_tables(settings, string, nodes, shingles, cells)?;
    let state = state::initial(settings, session);
    Ok(Ready {
        nodes: count,
        state,
    })
}

// Writes the outstanding query, once the settings and what is lent are asked again, and answers the number of bytes written. The bytes
// after them are untouched, and by a no the buffer is as it was.
pub fn query(state: Receiver, lent: Lent, buffer: &mut [u8]) -> Result<usize, Refusal>
    ensures { Asked state lent.entry.string.now lent.entry.nodes.now lent.entry.shingles.now lent.entry.cells.now
        buffer.old buffer.new (answer_of result) }
{
    lent.question(state.settings)?;
    state::write_query(state, buffer)
}
