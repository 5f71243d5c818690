// The six messages written into a lent buffer. Each call answers the number of bytes written, and leaves the bytes after them as they were;
// or it refuses a message that does not fit, and leaves the whole buffer as it was.
#![tactic(auto)]

mod put;

ghost use Rattle.std.specs.Prelude.{◌≡◌, ◌*◌};
ghost use Rattle.refusal.specs.Answer.{answer_of};
ghost use Rattle.message.specs.Messages.{encode, opening_query, node_query, opening, composition, literal, no_node};
ghost use Rattle.message.specs.Kinds.{number_of_form};
ghost use Rattle.message.specs.Reading.{stated_by};
ghost use Rattle.rows.specs.Rows.{words_of};
ghost use Rattle.message_writer.specs.Writing.{Written, pair_bytes, first_rows, paired};

use message::kind::Form;
use message::reader::references_from;
use put::{
    put_end, put_front, put_head, put_middle, put_pair, put_references, put_text, put_trail_number,
    put_values,
};
use refusal::Refusal;

// The words of three cells: five values each, three words a value.
const THREE_CELLS: usize = 45;

// Type 1, an opening query.
pub fn write_opening_query(buffer: &mut [u8], session: u64) -> Result<usize, Refusal>
    ensures { Written buffer.old buffer.new (encode (opening_query session)) (answer_of result) }
{
    if buffer.len() / 4 < 2 {
        return Err(Refusal::Buffer);
    }
    put_head(buffer, Form::OpeningQuery, session);
    put_end(buffer, 1);
    Ok(8)
}

// A message that says only a node's level and id.
fn write_pair(
    buffer: &mut [u8],
    form: Form,
    session: u64,
    level: u64,
    id: u64,
) -> Result<usize, Refusal>
    ensures { Written buffer.old buffer.new (pair_bytes (number_of_form form) session level id) (answer_of result) }
{
    if buffer.len() / 4 < 6 {
        return Err(Refusal::Buffer);
    }
    put_pair(buffer, form, session, level, id);
    put_end(buffer, 5);
    Ok(24)
}

// Type 2, a node query.
#[tactic(auto, using(crate::proofs::Writing::pair_node_query))]
pub fn write_node_query(
    buffer: &mut [u8],
    session: u64,
    level: u64,
    id: u64,
) -> Result<usize, Refusal>
    ensures { Written buffer.old buffer.new (encode (node_query session level id)) (answer_of result) }
{
    write_pair(buffer, Form::NodeQuery, session, level, id)
}

// Type 6, none: the sender has no such node.
#[tactic(auto, using(crate::proofs::Writing::pair_no_node))]
pub fn write_none(buffer: &mut [u8], session: u64, level: u64, id: u64) -> Result<usize, Refusal>
    ensures { Written buffer.old buffer.new (encode (no_node session level id)) (answer_of result) }
{
    write_pair(buffer, Form::NoNode, session, level, id)
}

// Type 5, a literal with the bytes of the text.
pub fn write_literal(
    buffer: &mut [u8],
    session: u64,
    level: u64,
    id: u64,
    text: &[u8],
) -> Result<usize, Refusal>
    ensures { Written buffer.old buffer.new (encode (literal session level id text.now)) (answer_of result) }
{
    let words = text.len().div_ceil(3);
    let size = words + 6;
    if buffer.len() / 4 < size {
        return Err(Refusal::Buffer);
    }
    put_pair(buffer, Form::Literal, session, level, id);
    put_text(buffer, 5, text);
    put_end(buffer, words + 5);
    Ok(size * 4)
}

// Type 4, a composition, with its trail number or without. Reference k has entry k of the indexes and of the counts; there are as
// many as both have.
pub fn write_composition(
    buffer: &mut [u8],
    session: u64,
    level: u64,
    id: u64,
    trail: Option<u64>,
    indexes: &[u64],
    counts: &[u64],
) -> Result<usize, Refusal>
    ensures { Written buffer.old buffer.new
        (encode (composition session level id (stated_by trail) (paired indexes.now counts.now))) (answer_of result) }
{
    let words = indexes.len().min(counts.len());
    let from = references_from(trail);
    let size = words + from + 1;
    if buffer.len() / 4 < size {
        return Err(Refusal::Buffer);
    }
    put_pair(buffer, Form::Composition, session, level, id);
    put_trail_number(buffer, trail);
    put_references(buffer, from, indexes, counts);
    put_end(buffer, words + from);
    Ok(size * 4)
}

// Type 3, an opening. Its cells are the first 3q cells of the table, five rows each, in the table's order; a row that the table lacks is 0.
pub fn write_opening(
    buffer: &mut [u8],
    session: u64,
    rule: u64,
    w: u64,
    p: u64,
    levels: u64,
    m: u64,
    q: u64,
    length: u64,
    root: u64,
    cells: &[u8],
) -> Result<usize, Refusal>
    ensures { Written buffer.old buffer.new (encode (opening session rule w p levels m q length root (first_rows (q * 3 * 5) 0 (words_of cells.now)))) (answer_of result) }
{
    let words = buffer.len() / 4;
    let most = (words / THREE_CELLS) as u64;
    if most < q {
        return Err(Refusal::Buffer);
    }
    let values = q as usize * 3 * 5;
    let end = values * 3 + 11;
    let size = values * 3 + 12;
    if words < size {
        return Err(Refusal::Buffer);
    }
    put_front(buffer, session, rule, w, p, levels);
    put_middle(buffer, m, q, length, root);
    put_values(buffer, 11, cells, values);
    put_end(buffer, end);
    Ok(size * 4)
}
