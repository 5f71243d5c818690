// How taking a message leaves the session: over by a question's no, or, once own nodes are copied, going on or over.
#![tactic(auto)]

ghost use Rattle.refusal.specs.Answer.{number_of};
ghost use Rattle.advance.specs.Advance.{Ended, Advanced};

use copying::Waiting;
use handover::Outcome;
use refusal::Refusal;
use state::{Progress, Receiver, Taken};

// Ends the session by a question's no, and zeroes the output.
pub fn end(state: Receiver, question: Refusal, output: &mut [u8]) -> Taken
    ensures { Ended state (number_of question) output.old output.new result }
{
    rows::clear(output, 0);
    let ended = state::over(state);
    Taken {
        answer: Err(question),
        state: ended,
    }
}

// Copies own nodes and asks whether the output stays within its length and whether the string is the announced one. So many bytes are
// built, and so many nodes are pending, before.
pub fn advance(
    state: Receiver,
    size: u64,
    root: u64,
    taken: u64,
    string: &[u8],
    nodes: &[u8],
    output: &mut [u8],
    built: usize,
    waiting: usize,
    pile: [Waiting; 128],
) -> Taken
    ensures { Advanced state size root taken string.now nodes.now output.old output.new built
        waiting pile result }
{
    match handover::conclude(
        string,
        nodes,
        size as usize,
        root,
        output,
        built,
        waiting,
        pile,
    ) {
        Ok(Outcome::Going { built, waiting }) => Taken {
            answer: Ok(Progress::Going),
            state: state::going(state, size, root, built as u64, taken, waiting, pile),
        },
        Ok(Outcome::Whole { length }) => Taken {
            answer: Ok(Progress::HandedOver(length)),
            state: state::over(state),
        },
        Err(question) => Taken {
            answer: Err(question),
            state: state::over(state),
        },
    }
}
