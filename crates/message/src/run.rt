// Runs of words of one kind: numbers, 64-bit values, references, the bytes of a literal. Each is read once, from the left.
ghost use Rattle.std.specs.Prelude.{MatchOption, ◌≡◌, ◌+◌, ◌*◌, ◌^◌, ◌<◌, false, get_or, drop};
ghost use Rattle.message.specs.Words.{link_words, carries_three_bytes};
ghost use Rattle.message.specs.Fields.{values_are};
ghost use Rattle.message.specs.Reading.{numbers_are, Falls, References, Threes, Texts};

use crate::field::{is_number, is_value};
use crate::word::{carried, carries_three, is_reference, load, rest};

// Where the words of a literal end, and how many bytes they carry.
#[derive(Clone, Copy)]
pub struct Text {
    pub end: usize,
    pub count: usize,
}

// Whether the seven words from 1 on are numbers.
pub fn seven_numbers(message: &[u8]) -> bool
    ensures { result ≡ numbers_are (link_words message.now) 1 7 }
{
    (1..8).all(|k| is_number(message, k))
}

// Whether `count` 64-bit values stand from word `at` on.
pub fn are_values(message: &[u8], at: usize, count: usize) -> bool
    requires { at + count * 3 < 2 ^ 63 }
    ensures { result ≡ values_are count (drop at (link_words message.now)) }
{
    (0..count).all(|k| is_value(message, at + k * 3))
}

// Where the run of references from word `at` on ends. An index that is not above the one before it makes it none.
pub fn reference_run(message: &[u8], at: usize) -> Option<usize>
    ensures { MatchOption result (Falls (link_words message.now) at) (λ end. References (link_words message.now) at end) }
{
    let words = message.len() / 4;
    let mut least = 0;
    for k in at..words {
        let w = load(message, k);
        if !is_reference(w) {
            return Some(k);
        }
        let index = rest(w) / 64;
        if index < least {
            return None;
        }
        least = index + 1;
    }
    Some(at.max(words))
}

// The first word from `at` on that does not carry three bytes. It is no part of the reader's own code: there the loop would set what the
// reader's refusals need at each word, which takes longer than the words.
#[inline(never)]
fn threes(message: &[u8], at: usize) -> usize
    ensures run { Threes (link_words message.now) at result }
    ensures stops { carries_three_bytes (get_or (link_words message.now) result 0) ≡ false }
{
    let words = message.len() / 4;
    for k in at..words {
        if !carries_three(load(message, k)) {
            return k;
        }
    }
    at.max(words)
}

// The words of a literal from word `at` on: those with three bytes, and then at most one with fewer.
pub fn text_run(message: &[u8], at: usize) -> Text
    ensures { Texts (link_words message.now) at result.end result.count }
{
    let k = threes(message, at);
    let full = (k - at) * 3;
    match carried(load(message, k)) {
        0 => Text {
            end: k,
            count: full,
        },
        more => Text {
            end: k + 1,
            count: full + more,
        },
    }
}
