// How many blocks one cutting gives at most. Document 02, requests 6 and 7.
#![tactic(auto)]

ghost use Rattle.std.specs.Prelude.{◌≡◌, ◌≤◌};
ghost use Rattle.refusal.specs.Answer.{answer_of};
ghost use Rattle.most_blocks.specs.Most.{most_blocks_of, in_range, most_answer};

use refusal::Refusal;

// A cutting makes at most 31 cuts, so that there are at most 32 blocks.
const MOST_BLOCKS: u64 = 32;

const SHORTEST_WINDOW: u64 = 2;

const LONGEST_WINDOW: u64 = 12;

const LEAST_DISTANCE: u64 = 1;

const GREATEST_DISTANCE: u64 = 32768;

const LONGEST_STRING: u64 = 65536;

// Question 24: whether each of the numbers is one that a cutting may have.
fn in_range(n: u64, w: u64, h: u64) -> bool
    ensures { result ≡ in_range n w h }
{
    SHORTEST_WINDOW <= w
        && w <= LONGEST_WINDOW
        && LEAST_DISTANCE <= h
        && h <= GREATEST_DISTANCE
        && n <= LONGEST_STRING
}

// The most blocks that one cutting of n bytes gives.
#[tactic(auto, unfolding(crate::specs::Most::most_blocks_of))]
fn bound(n: u64, w: u64, h: u64) -> u64
    requires { 1 ≤ h }
    ensures { result ≡ most_blocks_of n w h }
{
    let fitting = n.saturating_sub(w) / h;
    fitting.clamp(1, MOST_BLOCKS)
}

// The most blocks that one cutting of n bytes by w and h gives, if each number is in its range.
pub fn most_blocks(n: u64, w: u64, h: u64) -> Result<usize, Refusal>
    ensures { answer_of result ≡ most_answer n w h }
{
    if !in_range(n, w, h) {
        return Err(Refusal::Cutting);
    }
    Ok(bound(n, w, h) as usize)
}
