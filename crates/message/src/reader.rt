// Reading a message: question 10, and what a well-formed message says.
ghost use Rattle.std.specs.Prelude.{MatchOption, Some, true, false, ◌&&◌, ◌≡◌, ◌<◌, length, get_or, drop};
ghost use Rattle.std.specs.Option.{is_some};
ghost use Rattle.std.proofs.Math.Option.{some};
ghost use Rattle.refusal.specs.Answer.{answer_of};
ghost use Rattle.message.specs.Words.{link_words};
ghost use Rattle.message.specs.Messages.{parse};
ghost use Rattle.message.specs.Reading.{PairRead, ends_at, meant, Placed, Counted, Reads, ReadsBody, pair_is, references_at, opening_by_places, type_answer};
ghost use Rattle.message.specs.Parts.{CellRead, ReferenceRead, Copied, three_each};

use crate::Message;
use crate::field::{is_end, is_value, number, number_at, value, value_at};
use crate::kind::{Kind, SESSIONS};
use crate::run::{are_values, reference_run, seven_numbers, text_run};
use crate::word::{is_of, load, rest};
use refusal::Refusal;

// Level and id, if they stand in their places.
#[tactic(auto, unfolding(crate::specs::Reading::pair_is))]
fn pair(message: &[u8]) -> Option<(u64, u64)>
    ensures { MatchOption result (pair_is (link_words message.now) ≡ false) (λ read. PairRead (link_words message.now) read.0 read.1) }
{
    Some((number(message, 1)?, value(message, 2)?))
}

// Level and id, if nothing else stands between the head and the end.
fn pair_alone(message: &[u8]) -> Option<(u64, u64)>
    ensures { MatchOption result ((pair_is (link_words message.now) && ends_at (link_words message.now) 5) ≡ false)
        (λ read. PairRead (link_words message.now) read.0 read.1 × (ends_at (link_words message.now) 5 ≡ true)) }
{
    let node = pair(message)?;
    if !is_end(message, 5) {
        return None;
    }
    Some(node)
}

#[tactic(auto, using(crate::proofs::Answers::opening_query_no_end, crate::proofs::Answers::opening_query_read))]
fn opening_query(message: &[u8], session: u64) -> Option<Message>
    ensures { ReadsBody message.now session 1 result }
{
    if !is_end(message, 1) {
        return None;
    }
    Some(Message::OpeningQuery { session })
}

#[tactic(auto, using(crate::proofs::Answers::node_query_no_pair, crate::proofs::Answers::node_query_read))]
fn node_query(message: &[u8], session: u64) -> Option<Message>
    ensures { ReadsBody message.now session 2 result }
{
    let (level, id) = pair_alone(message)?;
    Some(Message::NodeQuery { session, level, id })
}

#[tactic(auto, using(crate::proofs::Answers::no_node_no_pair, crate::proofs::Answers::no_node_read))]
fn no_node(message: &[u8], session: u64) -> Option<Message>
    ensures { ReadsBody message.now session 6 result }
{
    let (level, id) = pair_alone(message)?;
    Some(Message::NoNode { session, level, id })
}

#[tactic(auto, using(crate::proofs::Answers::literal_no_pair))]
fn literal(message: &[u8], session: u64) -> Option<Message>
    ensures { ReadsBody message.now session 5 result }
{
    let (level, id) = pair(message)?;
    let text = text_run(message, 5);
    if !is_end(message, text.end) {
        return None;
    }
    Some(Message::Literal {
        session,
        level,
        id,
        at: 5,
        count: text.count,
    })
}

// The word from which a composition's references stand: after the head, the level, the id and the trail number, if it is there.
pub fn references_from(trail: Option<u64>) -> usize
    ensures { result ≡ references_at (is_some trail) }
{
    if trail.is_some() { 6 } else { 5 }
}

#[tactic(auto, using(crate::proofs::Answers::composition_no_pair))]
fn composition(message: &[u8], session: u64) -> Option<Message>
    ensures { ReadsBody message.now session 4 result }
{
    let (level, id) = pair(message)?;
    let trail = number(message, 5);
    let at = references_from(trail);
    let end = reference_run(message, at)?;
    if !is_end(message, end) {
        return None;
    }
    let count = end - at;
    Some(Message::Composition {
        session,
        level,
        id,
        trail,
        at,
        count,
    })
}

// The opening that stands in the message, if it is well formed.
#[tactic(auto, unfolding(crate::specs::Reading::opening_by_places))]
fn opening_at(message: &[u8], session: u64) -> Message
    ensures { (meant (link_words message.now) (Some result) ≡ some (opening_by_places (link_words message.now) session)) × Placed (Some result) × Counted (link_words message.now) (Some result) }
{
    Message::Opening {
        session,
        rule: number_at(message, 1),
        w: number_at(message, 2),
        p: number_at(message, 3),
        levels: number_at(message, 4),
        m: number_at(message, 5),
        q: number_at(message, 6),
        length: number_at(message, 7),
        root: value_at(message, 8),
        at: 11,
    }
}

#[tactic(auto, using(crate::proofs::Answers::number_below, crate::proofs::Answers::opening_no_numbers, crate::proofs::Answers::opening_no_root, crate::proofs::Answers::opening_no_cells, crate::proofs::Answers::opening_no_end, crate::proofs::Answers::opening_read))]
fn opening(message: &[u8], session: u64) -> Option<Message>
    ensures { ReadsBody message.now session 3 result }
{
    if !seven_numbers(message) || !is_value(message, 8) {
        return None;
    }
    let q = number_at(message, 6);
    let values = (q * 3 * 5) as usize;
    if !are_values(message, 11, values) || !is_end(message, 11 + values * 3) {
        return None;
    }
    Some(opening_at(message, session))
}

// What follows the head, by the type.
#[tactic(auto, using(crate::proofs::Answers::no_type))]
fn body(message: &[u8], form: u64, session: u64) -> Option<Message>
    ensures { ReadsBody message.now session form result }
{
    match form {
        1 => opening_query(message, session),
        2 => node_query(message, session),
        3 => opening(message, session),
        4 => composition(message, session),
        5 => literal(message, session),
        6 => no_node(message, session),
        _ => None,
    }
}

// What a message says, if it is well formed.
#[tactic(auto, using(crate::proofs::Answers::read_not_whole, crate::proofs::Answers::read_no_head, crate::proofs::Answers::read_whole))]
pub fn read(message: &[u8]) -> Option<Message>
    ensures { Reads message.now result }
{
    if message.len() % 4 != 0 {
        return None;
    }
    let w = load(message, 0);
    if !is_of(w, Kind::Head) {
        return None;
    }
    let x = rest(w);
    body(message, x / SESSIONS, x % SESSIONS)
}

// The type of a message, if it is well formed.
pub fn message_type(message: &[u8]) -> Result<usize, Refusal>
    ensures { answer_of result ≡ type_answer (parse message.now) }
{
    let Some(read) = read(message) else {
        return Err(Refusal::Form);
    };
    Ok(read.form() as usize)
}

// A reference: an index of the sender's shingle list, and how often.
#[derive(Clone, Copy)]
pub struct Reference {
    pub index: u64,
    pub count: u64,
}

// Value k of the cells that start at word `at`, five values a cell; 0 past the message's end.
#[tactic(auto, using(crate::proofs::Parts::cell_read))]
pub fn cell_value(message: &[u8], at: usize, k: usize) -> u64
    ensures { CellRead message.now at k result }
{
    let count = message.len() / 4;
    if count <= at || count <= k {
        return 0;
    }
    value_at(message, at + k * 3)
}

// Reference k of those that start at word `at`; index and count 0 past the message's end.
pub fn reference_at(message: &[u8], at: usize, k: usize) -> Reference
    ensures { ReferenceRead message.now at k (record { index = result.index; count = result.count }) }
{
    let words = message.len() / 4;
    if words <= at || words <= k {
        return Reference { index: 0, count: 0 };
    }
    let x = rest(load(message, at + k));
    let index = x / 64;
    let count = x % 64;
    Reference { index, count }
}

// How many bytes the words from `at` on can carry.
#[tactic(auto, using(crate::proofs::Parts::room_is))]
fn room(message: &[u8], at: usize) -> usize
    ensures { result ≡ length (three_each (drop at (link_words message.now))) }
{
    (message.len() / 4).saturating_sub(at) * 3
}

// Byte j of those that start at word `at`: each word has three, after its first byte.
fn byte_at(message: &[u8], at: usize, j: usize) -> u8
    requires { j < length (three_each (drop at (link_words message.now))) }
    ensures { result ≡ get_or (three_each (drop at (link_words message.now))) j 0 }
{
    let first = at * 4;
    message[first + (1 + j + j / 3)]
}

// Copies the first `count` bytes of those that start at word `at` to the front of the part, and leaves the rest of it as it was.
pub fn copy_bytes(message: &[u8], at: usize, count: usize, part: &mut [u8])
    ensures { Copied message.now at count part.old part.new }
{
    let end = count.min(part.len()).min(room(message, at));
    for j in 0..end {
        part[j] = byte_at(message, at, j);
    }
}
