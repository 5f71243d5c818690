// The 32-bit words of a message, most significant byte first, and what stands in one word.
ghost use Rattle.std.specs.Prelude.{◌≡◌, eqb, get_or};
ghost use Rattle.message.specs.Words.{link_words, kind_of, rest_of, carries_three_bytes, carried_by, reference_word};
ghost use Rattle.message.specs.Kinds.{number_of_kind};
ghost use Rattle.message.specs.Fields.{parts_test, parts_value};

use crate::kind::{KIND_WEIGHT, Kind};

// Word k of the message, or 0 where it has no such word.
pub fn load(message: &[u8], k: usize) -> u64
    ensures { result ≡ get_or (link_words message.now) k 0 }
{
    if message.len() / 4 <= k {
        return 0;
    }
    let i = k * 4;
    let word = u32::from_be_bytes([message[i], message[i + 1], message[i + 2], message[i + 3]]);
    u64::from(word)
}

// Whether the word is of that kind: its top 4 bits.
pub fn is_of(w: u64, kind: Kind) -> bool
    ensures { result ≡ eqb (kind_of w) (number_of_kind kind) }
{
    w / KIND_WEIGHT == kind as u64
}

// The other 28 bits of a word.
pub fn rest(w: u64) -> u64
    ensures { result ≡ rest_of w }
{
    w % KIND_WEIGHT
}

// Whether the word is a reference with its fixed bits 0 and a count from 1 to 32.
#[tactic(auto, using(std::proofs::lemmas::Bool::Decides::nat_tests), unfolding(crate::specs::Words::reference_word))]
pub fn is_reference(w: u64) -> bool
    ensures { result ≡ reference_word.is w }
{
    let x = rest(w);
    let index = x / 64;
    let count = x % 64;
    is_of(w, Kind::Reference) && index < 4096 && (1..=32).contains(&count)
}

// Whether the word carries three bytes of a literal. A long literal is read by this alone.
#[tactic(auto, using(std::proofs::lemmas::Bool::Decides::nat_tests), unfolding(crate::specs::Words::carries_three_bytes, crate::specs::Words::many_of))]
pub fn carries_three(w: u64) -> bool
    ensures { result ≡ carries_three_bytes w }
{
    is_of(w, Kind::Bytes) && rest(w) / 16777216 == 3
}

// How many bytes of a literal the word carries, from 1 to 3, where those that it does not use are 0; and 0 for any other word.
#[tactic(auto, using(crate::proofs::Words::carried_is, std::proofs::lemmas::Bool::Decides::nat_tests))]
pub fn carried(w: u64) -> usize
    ensures { result ≡ carried_by w }
{
    if !is_of(w, Kind::Bytes) {
        return 0;
    }
    let x = rest(w);
    // The number of bytes stands above the three of them.
    match x / 16777216 {
        3 => 3,
        2 if x % 256 == 0 => 2,
        1 if x % 65536 == 0 => 1,
        _ => 0,
    }
}

// Whether the words are the three parts of a 64-bit value, the first at most 255.
#[tactic(auto, using(std::proofs::lemmas::Bool::Decides::nat_tests), unfolding(crate::specs::Fields::parts_test, crate::specs::Words::plain))]
pub fn are_parts(top: u64, middle: u64, low: u64) -> bool
    ensures { result ≡ parts_test top middle low }
{
    is_of(top, Kind::Part) && is_of(middle, Kind::Part) && is_of(low, Kind::Part) && rest(top) < 256
}

// The 64-bit value whose top 8, middle 28 and low 28 bits stand in the three words.
pub fn join_parts(top: u64, middle: u64, low: u64) -> u64
    ensures { result ≡ parts_value top middle low }
{
    (top % 256 * KIND_WEIGHT + middle % KIND_WEIGHT) * KIND_WEIGHT + low % KIND_WEIGHT
}
