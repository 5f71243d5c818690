// What the words and the messages of the link are, by number.

// What the kind of a word weighs: it stands above the 28 bits that say the rest.
pub const KIND_WEIGHT: u64 = 268435456;

// How many sessions there are: their numbers have 24 bits of a head, below the type.
pub const SESSIONS: u64 = 16777216;

// What a word of a message is.
#[derive(Clone, Copy)]
pub enum Kind {
    Head = 1,
    Number = 2,
    Part = 3,
    Reference = 4,
    Bytes = 5,
    End = 6,
}

// What a message is: its type.
#[derive(Clone, Copy)]
pub enum Form {
    OpeningQuery = 1,
    NodeQuery = 2,
    Opening = 3,
    Composition = 4,
    Literal = 5,
    NoNode = 6,
}
