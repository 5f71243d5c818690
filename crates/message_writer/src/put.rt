// Words put into a buffer, one field at a time. A word that the buffer has no room for is not put.
ghost use Rattle.std.specs.Prelude.{[], ◌∷◌, ◌++◌, ◌≡◌, ◌+◌, ◌*◌, ◌^◌, ◌<◌, length, drop};
ghost use Rattle.message.specs.Words.{with_kind, word_of_bytes, end_word, reference_word};
ghost use Rattle.message.specs.Kinds.{number_of_kind, number_of_form};
ghost use Rattle.message.specs.Fields.{number, maybe_number, value, head, text_to, values_to, many_to};
ghost use Rattle.message.specs.Messages.{headed};
ghost use Rattle.message.specs.Reading.{stated_by};
ghost use Rattle.rows.specs.Rows.{words_of};
ghost use Rattle.message_writer.specs.Writing.{Stored, first_rows, paired};

use message::kind::{Form, KIND_WEIGHT, Kind, SESSIONS};

// The word of that kind that says x, modulo 2^28.
fn word(kind: Kind, x: u64) -> u32
    ensures { result ≡ with_kind (number_of_kind kind) x }
{
    (kind as u64 * KIND_WEIGHT + x % KIND_WEIGHT) as u32
}

// Word k of the buffer becomes w.
fn put_word(buffer: &mut [u8], k: usize, w: u32)
    ensures { Stored buffer.old buffer.new k (w ∷ []) }
{
    if buffer.len() / 4 <= k {
        return;
    }
    let i = k * 4;
    buffer[i..i + 4].copy_from_slice(&w.to_be_bytes());
}

// A number, modulo 2^28, in word k.
fn put_number(buffer: &mut [u8], k: usize, x: u64)
    ensures { Stored buffer.old buffer.new k (number.to x) }
{
    put_word(buffer, k, word(Kind::Number, x));
}

// A 64-bit value in the three words from k on.
fn put_value(buffer: &mut [u8], k: usize, x: u64)
    requires { k < 2 ^ 63 }
    ensures { Stored buffer.old buffer.new k (value.to x) }
{
    let middle = x / KIND_WEIGHT;
    let top = middle / KIND_WEIGHT;
    put_word(buffer, k, word(Kind::Part, top));
    put_word(buffer, k + 1, word(Kind::Part, middle));
    put_word(buffer, k + 2, word(Kind::Part, x));
}

// The head in word 0.
pub fn put_head(buffer: &mut [u8], form: Form, session: u64)
    ensures { Stored buffer.old buffer.new 0 (head.to (record { type = number_of_form form; session = session })) }
{
    let x = form as u64 * SESSIONS + session % SESSIONS;
    put_word(buffer, 0, word(Kind::Head, x));
}

// The end in word k, counting the words up to it and itself.
pub fn put_end(buffer: &mut [u8], k: usize)
    requires { k < 2 ^ 63 }
    ensures { Stored buffer.old buffer.new k (end_word (k + 1) ∷ []) }
{
    put_word(buffer, k, word(Kind::End, (k + 1) as u64));
}

// Head, level and id in the five words from 0 on.
pub fn put_pair(buffer: &mut [u8], form: Form, session: u64, level: u64, id: u64)
    ensures { Stored buffer.old buffer.new 0 (headed (number_of_form form) session (number.to level ++ value.to id)) }
{
    put_head(buffer, form, session);
    put_number(buffer, 1, level);
    put_value(buffer, 2, id);
}

// The trail number of a composition in word 5, if it is there.
pub fn put_trail_number(buffer: &mut [u8], trail: Option<u64>)
    ensures { Stored buffer.old buffer.new 5 (maybe_number.to (stated_by trail)) }
{
    if let Some(x) = trail {
        put_number(buffer, 5, x);
    }
}

// The bytes word of three bytes, of which the first `many` are used.
fn bytes_word(many: u8, a: u8, b: u8, c: u8) -> u32
    ensures { result ≡ word_of_bytes many a b c }
{
    word(Kind::Bytes, u64::from(u32::from_be_bytes([many, a, b, c])))
}

// The bytes word of the bytes from place i on: three of them, or those that are left.
#[tactic(auto, using(crate::proofs::Writing::one_left, crate::proofs::Writing::two_left, crate::proofs::Writing::three_left))]
fn text_word(text: &[u8], i: usize) -> u32
    requires { i < length text.now }
    ensures { text_to (drop i text.now) ≡ result ∷ text_to (drop (i + 3) text.now) }
{
    match text.len() - i {
        1 => bytes_word(1, text[i], 0, 0),
        2 => bytes_word(2, text[i], text[i + 1], 0),
        _ => bytes_word(3, text[i], text[i + 1], text[i + 2]),
    }
}

// The words of the text from word `from` on.
pub fn put_text(buffer: &mut [u8], from: usize, text: &[u8])
    requires { from < 16 }
    ensures { Stored buffer.old buffer.new from (text_to text.now) }
{
    for k in 0..text.len().div_ceil(3) {
        let w = text_word(text, k * 3);
        put_word(buffer, from + k, w);
    }
}

// The first `count` rows of the table as 64-bit values, from word `from` on.
pub fn put_values(buffer: &mut [u8], from: usize, table: &[u8], count: usize)
    requires { from + count * 3 < 2 ^ 63 }
    ensures { Stored buffer.old buffer.new from (values_to (first_rows count 0 (words_of table.now))) }
{
    for i in 0..count {
        put_value(buffer, from + i * 3, rows::load(table, i));
    }
}

// The references from word `from` on: as many as there are both indexes and counts.
pub fn put_references(buffer: &mut [u8], from: usize, indexes: &[u64], counts: &[u64])
    requires { from < 16 }
    ensures { Stored buffer.old buffer.new from (many_to reference_word (paired indexes.now counts.now)) }
{
    for i in 0..indexes.len().min(counts.len()) {
        let index = indexes[i] % KIND_WEIGHT;
        let count = counts[i] % KIND_WEIGHT;
        put_word(buffer, from + i, word(Kind::Reference, index * 64 + count));
    }
}

// Head, rule, w, p and levels of an opening in the five words from 0 on.
pub fn put_front(buffer: &mut [u8], session: u64, rule: u64, w: u64, p: u64, levels: u64)
    ensures { Stored buffer.old buffer.new 0 (headed 3 session (number.to rule ++ (number.to w ++ (number.to p ++ number.to levels)))) }
{
    put_head(buffer, Form::Opening, session);
    put_number(buffer, 1, rule);
    put_number(buffer, 2, w);
    put_number(buffer, 3, p);
    put_number(buffer, 4, levels);
}

// M, q, string length and root id of an opening in the six words from 5 on.
pub fn put_middle(buffer: &mut [u8], m: u64, q: u64, length: u64, root: u64)
    ensures { Stored buffer.old buffer.new 5 (number.to m ++ (number.to q ++ (number.to length ++ value.to root))) }
{
    put_number(buffer, 5, m);
    put_number(buffer, 6, q);
    put_number(buffer, 7, length);
    put_value(buffer, 8, root);
}
