// The sender's end: setting it up, the settings that its state holds, and its replies.
#![tactic(auto)]

mod state;

ghost use Rattle.std.specs.Prelude.{◌≡◌};
ghost use Rattle.refusal.specs.Answer.{answer_of};
ghost use Rattle.reply.specs.Reply.{Replied};
ghost use Rattle.sender.specs.State.{settings_in, SenderSetUp};

use refusal::Refusal;
use setup::Lent;
use tree::Settings;

// How many bytes a state has.
const SIZE: usize = 40;

// Sets a sender up: its three tables are filled from the string, and its settings are written to the front of the state. Asked are 1
// to 8, and 7 of the state too. Answers the number of nodes. A no leaves the state as it is.
pub fn setup(
    settings: Settings,
    string: &[u8],
    nodes: &mut [u8],
    shingles: &mut [u8],
    cells: &mut [u8],
    state: &mut [u8],
) -> Result<usize, Refusal>
    ensures { SenderSetUp settings string.now nodes.old nodes.new shingles.old
        shingles.new cells.old cells.new state.old state.new (answer_of result) }
{
    tree::question(settings, string.len())?;
    if state.len() < SIZE {
        return Err(Refusal::Room);
    }
    let count = setup::fill_tables(settings, string, nodes, shingles, cells)?;
    state::write_settings(state, settings);
    Ok(count)
}

// The settings that a state holds; 0 for a row that it lacks.
pub fn settings_of(state: &[u8]) -> Settings
    ensures { result ≡ settings_in state.now }
{
    Settings {
        window: rows::load(state, 0),
        fan_out: rows::load(state, 1),
        levels: rows::load(state, 2),
        nominal: rows::load(state, 3),
        width: rows::load(state, 4),
    }
}

// Replies to a message by the settings that the state holds: the number of bytes written, and the bytes after them are untouched. Asked
// are 1 to 7, 10, 11 and 20: the first that fails refuses, and the buffer is then as it was.
pub fn reply(state: &[u8], lent: Lent, message: &[u8], buffer: &mut [u8]) -> Result<usize, Refusal>
    ensures { Replied (settings_in state.now) lent.entry.string.now lent.entry.nodes.now lent.entry.shingles.now
        lent.entry.cells.now message.now buffer.old buffer.new (answer_of result) }
{
    let settings = settings_of(state);
    reply::reply(settings, lent, message, buffer)
}
