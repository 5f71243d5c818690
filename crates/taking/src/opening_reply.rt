// Taking an opening: questions 12 to 14, then the root is the pending node.
ghost use Rattle.std.specs.Prelude.{[], ◌∷◌, ◌≡◌};
ghost use Rattle.protocol.specs.State.{pending};
ghost use Rattle.state.specs.Receivers.{places_of};
ghost use Rattle.taking.specs.Steps.{OpeningSaid, OpeningTaken};

use advance::{advance, end};
use copying::Waiting;
use heard::Announced;
use state::{Receiver, Taken};

// A pile with the root alone.
#[tactic(auto, unfolding(state::specs::Receivers::places_of))]
fn rooted(root: u64) -> [Waiting; 128]
    ensures { result ≡ places_of (pending 0 root ∷ []) }
{
    let none = Waiting { level: 0, id: 0 };
    let mut pile = [none; 128];
    pile[0] = Waiting { level: 0, id: root };
    pile
}

// Takes an opening. The new list goes into the shingle table last, since a refusal after copying must leave that table as it is.
pub fn take(
    state: Receiver,
    said: Announced,
    string: &[u8],
    nodes: &[u8],
    shingles: &mut [u8],
    cells: &[u8],
    message: &[u8],
    output: &mut [u8],
) -> Taken
    requires { OpeningSaid state said string.now nodes.now shingles.old cells.now message.now output.old }
    ensures { OpeningTaken state string.now nodes.now shingles.old shingles.new
        cells.now message.now output.old output.new result }
{
    let settings = state.settings;
    let judged = announced::judge(
        settings,
        said.rule,
        said.settings,
        said.length,
        output.len(),
        message,
        cells,
        shingles,
    );
    // By reference: what the sketch opened to is 9 KB, and a stack in firmware is short.
    let opening = match &judged {
        Ok(opening) => opening,
        Err(question) => return end(state, *question, output),
    };
    let pile = rooted(said.root);
    let taken = advance(
        state,
        said.length,
        said.root,
        0,
        string,
        nodes,
        output,
        0,
        1,
        pile,
    );
    if taken.answer.is_ok() {
        // A list that opened has room in the table, so that this is no refusal.
        let _ = opening::renew(opening, shingles);
    }
    taken
}
