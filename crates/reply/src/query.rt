// What a message that was read asks of a sender.
ghost use Rattle.std.specs.Prelude.{◌≡◌};
ghost use Rattle.reply.specs.Parts.{query_of_message};

use message::Message;
use refusal::Refusal;

// A node that is asked for in a session.
#[derive(Clone, Copy, PartialEq, Eq)]
pub struct NodeQuery {
    pub session: u64,
    pub level: u64,
    pub id: u64,
}

// What is asked for: the opening, or a node.
#[derive(Clone, Copy, PartialEq, Eq)]
pub enum Query {
    Opening { session: u64 },
    Node(NodeQuery),
}

// What the answer of the reader asks. Refused are a message that is not well formed, and one that asks nothing of a sender.
pub fn query_of(message: Option<Message>) -> Result<Query, Refusal>
    ensures { result ≡ query_of_message message }
{
    match message.ok_or(Refusal::Form)? {
        Message::OpeningQuery { session } => Ok(Query::Opening { session }),
        Message::NodeQuery { session, level, id } => Ok(Query::Node(NodeQuery {
            session,
            level,
            id,
        })),
        _ => Err(Refusal::Unexpected),
    }
}
