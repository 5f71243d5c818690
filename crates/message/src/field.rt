// The fields of a message by their place: a test, and what the field says.
ghost use Rattle.std.specs.Prelude.{MatchOption, true, false, ◌≡◌, length, drop};
ghost use Rattle.message.specs.Words.{link_words, is_end_word};
ghost use Rattle.message.specs.Fields.{number, value};

use crate::kind::Kind;
use crate::word::{are_parts, is_of, join_parts, load, rest};

// Whether word k is a number.
#[tactic(auto, using(crate::proofs::Reading::number_test))]
pub fn is_number(message: &[u8], k: usize) -> bool
    ensures { result ≡ number.is (drop k (link_words message.now)) }
{
    is_of(load(message, k), Kind::Number)
}

// The number in word k.
#[tactic(auto, using(crate::proofs::Reading::number_value))]
pub fn number_at(message: &[u8], k: usize) -> u64
    ensures { result ≡ number.of (drop k (link_words message.now)) }
{
    rest(load(message, k))
}

// The number in word k, if it is one.
pub fn number(message: &[u8], k: usize) -> Option<u64>
    ensures { MatchOption result (number.is (drop k (link_words message.now)) ≡ false)
        (λ x. (number.is (drop k (link_words message.now)) ≡ true) × (x ≡ number.of (drop k (link_words message.now)))) }
{
    is_number(message, k).then(|| number_at(message, k))
}

// Whether a 64-bit value stands in the three words from k on.
#[tactic(auto, using(crate::proofs::Reading::value_test, crate::proofs::Reading::no_value))]
pub fn is_value(message: &[u8], k: usize) -> bool
    ensures { result ≡ value.is (drop k (link_words message.now)) }
{
    if message.len() / 4 <= k {
        return false;
    }
    let top = load(message, k);
    let middle = load(message, k + 1);
    let low = load(message, k + 2);
    are_parts(top, middle, low)
}

// The 64-bit value in the three words from k on, and 0 where there are none.
#[tactic(auto, using(crate::proofs::Reading::value_by_parts, crate::proofs::Reading::no_value_value))]
pub fn value_at(message: &[u8], k: usize) -> u64
    ensures { result ≡ value.of (drop k (link_words message.now)) }
{
    if message.len() / 4 <= k {
        return 0;
    }
    let top = load(message, k);
    let middle = load(message, k + 1);
    let low = load(message, k + 2);
    join_parts(top, middle, low)
}

// The 64-bit value in the three words from k on, if one stands there.
pub fn value(message: &[u8], k: usize) -> Option<u64>
    ensures { MatchOption result (value.is (drop k (link_words message.now)) ≡ false)
        (λ x. (value.is (drop k (link_words message.now)) ≡ true) × (x ≡ value.of (drop k (link_words message.now)))) }
{
    is_value(message, k).then(|| value_at(message, k))
}

// Whether word k is the last one, an end, and counts the message's words.
#[tactic(auto, using(crate::proofs::Reading::end_test, std::proofs::lemmas::Bool::Decides::nat_tests))]
pub fn is_end(message: &[u8], k: usize) -> bool
    ensures { result ≡ is_end_word (length (link_words message.now)) (drop k (link_words message.now)) }
{
    let count = message.len() / 4;
    let w = load(message, k);
    k < count && count - k == 1 && is_of(w, Kind::End) && rest(w) == count as u64
}
