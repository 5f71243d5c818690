// A whole session between two strings that are both at hand.
#![tactic(auto)]

mod round;

ghost use Rattle.std.specs.Prelude.{[]};
ghost use Rattle.protocol.specs.Lent.{lent};
ghost use Rattle.session.specs.Calls.{Ran};
ghost use Rattle.state.specs.Receivers.{progress_number};

use refusal::Refusal;
use setup::Lent;
use state::Progress;
use tree::Settings;

// Sets a sender and a receiver up and lets them exchange messages through the buffer until the receiver hands the sender's string over, its
// bytes at the front of the output. What refuses first, the sender's setup, the receiver's, or a round, refuses the session. If 4,097 rounds
// do not suffice, it is still going on.
pub fn run(
    settings: Settings,
    session: u64,
    string: &[u8],
    nodes: &mut [u8],
    shingles: &mut [u8],
    cells: &mut [u8],
    own: &[u8],
    own_nodes: &mut [u8],
    own_shingles: &mut [u8],
    own_cells: &mut [u8],
    buffer: &mut [u8],
    output: &mut [u8],
) -> Result<Progress, Refusal>
    ensures { Ran settings session (lent string.now nodes.old shingles.old cells.old [])
        (lent string.now nodes.new shingles.new cells.new [])
        (lent own.now own_nodes.old own_shingles.old own_cells.old output.old)
        (lent own.now own_nodes.new own_shingles.new own_cells.new output.new)
        buffer.old buffer.new (progress_number result) }
{
    setup::fill_tables(settings, string, nodes, shingles, cells)?;
    let ready = receiver::setup(settings, session, own, own_nodes, own_shingles, own_cells)?;
    let lent = Lent {
        string,
        nodes,
        shingles,
        cells,
    };
    round::exchange_all(
        settings,
        ready.state,
        lent,
        own,
        own_nodes,
        own_shingles,
        own_cells,
        buffer,
        output,
    )
}
