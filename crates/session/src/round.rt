// Rounds of a session: the receiver asks, the sender replies, the receiver takes the reply.
ghost use Rattle.std.specs.Prelude.{[]};
ghost use Rattle.protocol.specs.Lent.{lent, read_only};
ghost use Rattle.session.specs.Calls.{Exchanged, ExchangedAll};
ghost use Rattle.state.specs.Receivers.{progress_number};

use refusal::Refusal;
use setup::Lent;
use state::{Progress, Receiver, Taken};
use tree::Settings;

// The opening's round, and one for each node reply that question 15 allows.
const ROUNDS: u64 = 4097;

// The longest query has six words.
const QUERY_BYTES: usize = 24;

// One round over what the sender lends and what the receiver does. What refuses first, the query, the reply or the taking, gives the answer;
// a query or a reply that is refused leaves the state as it was.
pub fn exchange(
    settings: Settings,
    state: Receiver,
    theirs: Lent,
    own: &[u8],
    own_nodes: &[u8],
    own_shingles: &mut [u8],
    own_cells: &[u8],
    buffer: &mut [u8],
    output: &mut [u8],
) -> Taken
    ensures { Exchanged settings state (read_only theirs.entry)
        (lent own.now own_nodes.now own_shingles.old own_cells.now output.old)
        (lent own.now own_nodes.now own_shingles.new own_cells.now output.new)
        buffer.old buffer.new result }
{
    let held = Lent {
        string: own,
        nodes: own_nodes,
        shingles: own_shingles,
        cells: own_cells,
    };
    let mut query = [0u8; QUERY_BYTES];
    let size = match receiver::query(state, held, &mut query) {
        Ok(size) => size,
        Err(refusal) => {
            return Taken {
                answer: Err(refusal),
                state,
            };
        }
    };
    let count = match reply::reply(settings, theirs, &query[..size], buffer) {
        Ok(count) => count,
        Err(refusal) => {
            return Taken {
                answer: Err(refusal),
                state,
            };
        }
    };
    taking::take(
        state,
        own,
        own_nodes,
        own_shingles,
        own_cells,
        &buffer[..count],
        output,
    )
}

// Rounds, 4,097 at most, as long as the session goes on.
pub fn exchange_all(
    settings: Settings,
    start: Receiver,
    theirs: Lent,
    own: &[u8],
    own_nodes: &[u8],
    own_shingles: &mut [u8],
    own_cells: &[u8],
    buffer: &mut [u8],
    output: &mut [u8],
) -> Result<Progress, Refusal>
    ensures { ExchangedAll settings start (read_only theirs.entry)
        (lent own.now own_nodes.now own_shingles.old own_cells.now output.old)
        (lent own.now own_nodes.now own_shingles.new own_cells.now output.new)
        buffer.old buffer.new (progress_number result) }
{
    let mut state = start;
    for _round in 0..ROUNDS {
        let taken = exchange(
            settings,
            state,
            theirs,
            own,
            own_nodes,
            own_shingles,
            own_cells,
            buffer,
            output,
        );
        match taken.answer? {
            Progress::Going => state = taken.state,
            Progress::HandedOver(length) => return Ok(Progress::HandedOver(length)),
        }
    }
    Ok(Progress::Going)
}
