// The words and messages of the link, read and written.
#![tactic(auto)]

ghost use Rattle.std.specs.Prelude.{◌≡◌};
ghost use Rattle.message.specs.Reading.{form_of};

mod field;
pub mod kind;
pub mod reader;
mod run;
mod word;

use kind::Form;

// What a well-formed message says. Its cells, references and bytes stay where they are, from word `at` on. A composition may leave out its
// trail number.
#[derive(Clone, Copy)]
pub enum Message {
    OpeningQuery {
        session: u64,
    },
    NodeQuery {
        session: u64,
        level: u64,
        id: u64,
    },
    Opening {
        session: u64,
        rule: u64,
        w: u64,
        p: u64,
        levels: u64,
        m: u64,
        q: u64,
        length: u64,
        root: u64,
        at: usize,
    },
    Composition {
        session: u64,
        level: u64,
        id: u64,
        trail: Option<u64>,
        at: usize,
        count: usize,
    },
    Literal {
        session: u64,
        level: u64,
        id: u64,
        at: usize,
        count: usize,
    },
    NoNode {
        session: u64,
        level: u64,
        id: u64,
    },
}

impl Message {
    // The message's type.
    pub fn form(self) -> Form
        ensures { result ≡ form_of self }
    {
        match self {
            Message::OpeningQuery { .. } => Form::OpeningQuery,
            Message::NodeQuery { .. } => Form::NodeQuery,
            Message::Opening { .. } => Form::Opening,
            Message::Composition { .. } => Form::Composition,
            Message::Literal { .. } => Form::Literal,
            Message::NoNode { .. } => Form::NoNode,
        }
    }
}
