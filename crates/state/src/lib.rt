// The receiver's state between its calls, by value: what it starts with, goes on with and ends with, its question 9, and its query.
#![tactic(auto)]

mod pile;
mod question;

ghost use Rattle.std.specs.Prelude.{◌≡◌};
ghost use Rattle.refusal.specs.Answer.{answer_of};
ghost use Rattle.copying.specs.Copying.{pile_of};
ghost use Rattle.protocol.specs.State.{initial, going, over, running};
ghost use Rattle.state.specs.Asking.{Asks, Queried};
ghost use Rattle.state.specs.Pushing.{Pushes};
ghost use Rattle.state.specs.Receivers.{state_of, idle, Holds};

use copying::Waiting;
use refusal::Refusal;
use tree::Settings;

// Phase 0: no opening taken yet; 1: an opening taken; any other: the session ended, which is written as 2. The first `waiting` of the
// places are the pending nodes, the last of them the top. A number and no enum, since a state that a caller holds may have any.
#[derive(Clone, Copy)]
pub struct Receiver {
    pub settings: Settings,
    pub session: u64,
    pub phase: u64,
    pub size: u64,
    pub root: u64,
    pub built: u64,
    pub taken: u64,
    pub waiting: usize,
    pub pile: [Waiting; 128],
}

// A query that a receiver has outstanding: the opening's, or that of a node with this level and id.
#[derive(Clone, Copy)]
pub enum Outstanding {
    Opening,
    Node { level: u64, id: u64 },
}

// What an accepted message comes to: the session goes on, or a string of so many bytes is handed over.
#[derive(Clone, Copy)]
pub enum Progress {
    Going,
    HandedOver(usize),
}

// What a call answers, and the state after it.
#[derive(Clone, Copy)]
pub struct Taken {
    pub answer: Result<Progress, Refusal>,
    pub state: Receiver,
}

// A state in which nothing is pending: every place is a zero entry.
fn idle(settings: Settings, session: u64, phase: u64) -> Receiver
    ensures { result ≡ idle settings session phase }
{
    let places = [Waiting { level: 0, id: 0 }; 128];
    Receiver {
        settings,
        session,
        phase,
        size: 0,
        root: 0,
        built: 0,
        taken: 0,
        waiting: 0,
        pile: places,
    }
}

// The state that an accepted setup makes.
pub fn initial(settings: Settings, session: u64) -> Receiver
    ensures { Holds (initial settings session) result }
{
    idle(settings, session % 16777216, 0)
}

// The state after the session's end.
pub fn over(state: Receiver) -> Receiver
    ensures { Holds (over (state_of state)) result }
{
    let settings = state.settings;
    idle(settings, state.session, 2)
}

// The state in which an opening, or a node reply, leaves pending nodes. Places above the top are cleared, so that what was popped is not
// kept.
pub fn going(
    state: Receiver,
    size: u64,
    root: u64,
    built: u64,
    taken: u64,
    waiting: usize,
    pile: [Waiting; 128],
) -> Receiver
    ensures { Holds (going (state_of state) size root built taken (pile_of waiting pile)) result }
{
    let settings = state.settings;
    let cleared = pile::clear_above(pile, waiting);
    Receiver {
        settings,
        session: state.session,
        phase: 1,
        size,
        root,
        built,
        taken,
        waiting,
        pile: cleared,
    }
}

// Question 9: whether the session is still running.
pub fn running(state: Receiver) -> bool
    ensures { result ≡ running (state_of state) }
{
    let levels = state.settings.levels;
    let pile = state.pile;
    question::still_running(levels, state.phase, state.waiting, pile)
}

// The outstanding query: the opening's while none is taken, then the top node's. A session that is not running has none.
pub fn query(state: Receiver) -> Option<Outstanding>
    ensures { Asks state result }
{
    if !running(state) {
        return None;
    }
    if state.phase == 0 {
        return Some(Outstanding::Opening);
    }
    let pile = state.pile;
    let waiting = state.waiting;
    let top = pile[waiting - 1];
    Some(Outstanding::Node {
        level: top.level,
        id: top.id,
    })
}

// Writes the outstanding query into a buffer and answers the number of bytes written. The bytes after them are untouched. Where there is
// none, or it does not fit, the buffer is as it was.
pub fn write_query(state: Receiver, buffer: &mut [u8]) -> Result<usize, Refusal>
    ensures { Queried state buffer.old buffer.new (answer_of result) }
{
    match query(state) {
        None => Err(Refusal::Session),
        Some(Outstanding::Opening) => message_writer::write_opening_query(buffer, state.session),
        Some(Outstanding::Node { level, id }) => message_writer::write_node_query(
            buffer,
            state.session,
            level,
            id,
        ),
    }
}

// Puts the first `count` ids on the pile as pending nodes of that level, the first of them on top. Where there are more than 32, or
// there is no room for them, the pile is left as it is.
pub fn push(
    pile: [Waiting; 128],
    waiting: usize,
    level: u64,
    ids: [u64; 32],
    count: usize,
) -> [Waiting; 128]
    ensures { Pushes pile waiting level ids count result }
{
    if 32 < count {
        return pile;
    }
    if 128 - count < waiting {
        return pile;
    }
    pile::place(pile, waiting, level, ids, count)
}
