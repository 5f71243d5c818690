// The questions that a call asks, and the number that it answers by: that of the first question with a no, or 2^32 and a count.
#![tactic(auto)]

ghost use Rattle.std.specs.Prelude.{◌≡◌, ◌%◌, ◌^◌};
ghost use Rattle.refusal.specs.Answer.{number_of, answer_of};

// What an accepted call adds to its count.
pub const ACCEPTED: u64 = 4294967296;

// The question that refuses a call. Each is named for what it asks after, and has its number in include/rcds.h.
#[derive(Clone, Copy, PartialEq, Eq)]
pub enum Refusal {
    Window,
    FanOut,
    Levels,
    Nominal,
    Width,
    StringLength,
    Room,
    Nodes,
    Session,
    Form,
    Unexpected,
    OtherSettings,
    OutputLength,
    Sketch,
    Replies,
    NoNode,
    Order,
    Overflow,
    Id,
    Buffer,
    Range,
    Crossed,
    Cutting,
}

impl Refusal {
    // The number of the question.
    pub fn number(self) -> u64
        ensures { result ≡ number_of self }
    {
        match self {
            Refusal::Window => 1,
            Refusal::FanOut => 2,
            Refusal::Levels => 3,
            Refusal::Nominal => 4,
            Refusal::Width => 5,
            Refusal::StringLength => 6,
            Refusal::Room => 7,
            Refusal::Nodes => 8,
            Refusal::Session => 9,
            Refusal::Form => 10,
            Refusal::Unexpected => 11,
            Refusal::OtherSettings => 12,
            Refusal::OutputLength => 13,
            Refusal::Sketch => 14,
            Refusal::Replies => 15,
            Refusal::NoNode => 16,
            Refusal::Order => 17,
            Refusal::Overflow => 18,
            Refusal::Id => 19,
            Refusal::Buffer => 20,
            Refusal::Range => 21,
            Refusal::Crossed => 22,
            Refusal::Cutting => 24,
        }
    }
}

// What a call from C answers: the number of the question that refuses, or 2^32 and the count, as 64 bits hold it.
pub fn answer(outcome: Result<usize, Refusal>) -> u64
    ensures { result ≡ answer_of outcome % 2 ^ 64 }
{
    match outcome {
        Ok(count) => (count as u64).wrapping_add(ACCEPTED),
        Err(refusal) => refusal.number(),
    }
}
