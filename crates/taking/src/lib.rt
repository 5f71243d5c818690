// Taking a message: 1 to 7 of what is lent, 9, 10 and 11, then an opening or a node reply is taken.
#![tactic(auto)]

mod node_reply;
mod opening_reply;

ghost use Rattle.taking.specs.Taking.{Takes};
ghost use Rattle.taking.specs.Steps.{Hearing};

use heard::{Said, fits, said_by};
use refusal::Refusal;
use setup::Lent;
use state::{Receiver, Taken};

// What a message says that the outstanding query asks for. Asked are 1 to 7 of the settings and of what is lent, 9, 10 and 11.
fn hear(state: Receiver, lent: Lent, message: &[u8]) -> Result<Said, Refusal>
    ensures { Hearing state lent.entry.string.now lent.entry.nodes.now lent.entry.shingles.now
        lent.entry.cells.now message.now result }
{
    lent.question(state.settings)?;
    let Some(asked) = state::query(state) else {
        return Err(Refusal::Session);
    };
    let Some(read) = message::reader::read(message) else {
        return Err(Refusal::Form);
    };
    let said = said_by(read)?;
    if !fits(asked, state.session, said) {
        return Err(Refusal::Unexpected);
    }
    Ok(said)
}

// Takes a message. A no to what is asked of what is lent and of the message leaves all as it was; a later no ends the session and zeroes
// the output. The answer says whether the session goes on, or how long the string is that is handed over.
pub fn take(
    state: Receiver,
    string: &[u8],
    nodes: &[u8],
    shingles: &mut [u8],
    cells: &[u8],
    message: &[u8],
    output: &mut [u8],
) -> Taken
    ensures { Takes state string.now nodes.now shingles.old shingles.new cells.now
        message.now output.old output.new result }
{
    let lent = Lent {
        string,
        nodes,
        shingles,
        cells,
    };
    match hear(state, lent, message) {
        Ok(Said::Opening(opening)) => opening_reply::take(
            state, opening, string, nodes, shingles, cells, message, output,
        ),
        Ok(Said::Reply(reply)) => {
            node_reply::take(state, reply, string, nodes, shingles, message, output)
        }
        Err(question) => Taken {
            answer: Err(question),
            state,
        },
    }
}
