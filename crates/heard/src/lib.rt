// What a message that was read says to a receiver, and question 11.
#![tactic(auto)]

ghost use Rattle.std.specs.Prelude.{◌≡◌};
ghost use Rattle.heard.specs.Heard.{replying, said_of_message, fitting};

use message::Message;
use refusal::Refusal;
use state::Outstanding;
use tree::Settings;

// What an opening announces.
#[derive(Clone, Copy)]
pub struct Announced {
    pub session: u64,
    pub rule: u64,
    pub settings: Settings,
    pub length: u64,
    pub root: u64,
}

// What a node reply carries: a composition's trail number, which it may leave out, and how many references it has; how many bytes a literal
// has; or that there is no such node.
#[derive(Clone, Copy)]
pub enum Content {
    Composition { trail: Option<u64>, count: usize },
    Literal { count: usize },
    NoNode,
}

// A reply about the node of this level and id.
#[derive(Clone, Copy)]
pub struct Reply {
    pub session: u64,
    pub level: u64,
    pub id: u64,
    pub content: Content,
}

// What a message says that answers a query.
#[derive(Clone, Copy)]
pub enum Said {
    Opening(Announced),
    Reply(Reply),
}

// A reply about a node, as what is said.
fn replying(session: u64, level: u64, id: u64, content: Content) -> Said
    ensures { result ≡ replying session level id content }
{
    Said::Reply(Reply {
        session,
        level,
        id,
        content,
    })
}

// What a message says. A query is refused: it answers none.
pub fn said_by(message: Message) -> Result<Said, Refusal>
    ensures { result ≡ said_of_message message }
{
    match message {
        Message::OpeningQuery { .. } | Message::NodeQuery { .. } => Err(Refusal::Unexpected),
        Message::Opening {
            session,
            rule,
            w,
            p,
            levels,
            m,
            q,
            length,
            root,
            ..
        } => Ok(Said::Opening(Announced {
            session,
            rule,
            settings: Settings {
                window: w,
                fan_out: p,
                levels,
                nominal: m,
                width: q,
            },
            length,
            root,
        })),
        Message::Composition {
            session,
            level,
            id,
            trail,
            count,
            ..
        } => Ok(replying(session, level, id, Content::Composition { trail, count })),
        Message::Literal {
            session,
            level,
            id,
            count,
            ..
        } => Ok(replying(session, level, id, Content::Literal { count })),
        Message::NoNode { session, level, id } => Ok(replying(session, level, id, Content::NoNode)),
    }
}

// Question 11: whether a message of this session is what the outstanding query asks for.
pub fn fits(asked: Outstanding, session: u64, said: Said) -> bool
    ensures { result ≡ fitting asked session said }
{
    match (asked, said) {
        (Outstanding::Opening, Said::Opening(opening)) => opening.session == session,
        (Outstanding::Node { level, id }, Said::Reply(reply)) => {
            reply.session == session && reply.level == level && reply.id == id
        }
        _ => false,
    }
}
