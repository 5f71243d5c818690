// References to a shingle list: for each shingle, how often its pair stands among the pairs of some children.
ghost use Rattle.std.specs.Prelude.{cond, ◌≡◌};
ghost use Rattle.shingle.specs.Shingles.{pair, pair_of};
ghost use Rattle.shingle.specs.Rising.{same_pair, how_many};
ghost use Rattle.shingle.specs.Children.{pairs_along};
ghost use Rattle.shingle.specs.Table.{shingles_in};
ghost use Rattle.protocol.specs.Sender.{refs_of};
ghost use Rattle.reply.specs.Parts.{Referred};

use shingle::Shingle;

// An index has 12 bits.
const LAST_INDEX: u64 = 4095;

// So many references: reference k has entry k of the indexes and of the counts.
#[derive(Clone, Copy)]
pub struct References {
    pub count: usize,
    pub indexes: [u64; 32],
    pub counts: [u64; 32],
}

// 1 if the shingle's pair is that of a node of that level, its left sibling's id and its own; else 0.
#[tactic(auto, unfolding(shingle::specs::Rising::same_pair))]
fn once(s: Shingle, level: u64, previous: u64, own: u64) -> u64
    ensures { result ≡ cond (same_pair (pair_of s) (pair level previous own)) 1 0 }
{
    if s.level == level && s.previous == previous && s.own == own {
        1
    } else {
        0
    }
}

// How often the shingle's pair stands among the pairs of children of that level with these ids.
fn times(s: Shingle, level: u64, ids: &[u64]) -> u64
    ensures { result ≡ how_many (pair_of s) (pairs_along level 0 ids.now) }
{
    let mut sum = 0;
    let mut previous = 0;
    for own in ids {
        sum += once(s, level, previous, *own);
        previous = *own;
    }
    sum
}

// The references of children of that level with these ids, rising by index, if they are at most 32 and each index is within its 12 bits.
pub fn refer(shingles: &[u8], level: u64, ids: &[u64]) -> Option<References>
    ensures { Referred (refs_of (shingles_in shingles.now) level ids.now) result }
{
    let end = shingle::size(shingles);
    let mut indexes = [0u64; 32];
    let mut counts = [0u64; 32];
    let mut count = 0;
    for k in 0..end {
        let s = shingle::shingle_at(shingles, k);
        let often = times(s, level, ids);
        if often != 0 {
            let index = k as u64;
            if count == 32 {
                return None;
            }
            if LAST_INDEX < index {
                return None;
            }
            indexes[count] = index;
            counts[count] = often;
            count += 1;
        }
    }
    Some(References {
        count,
        indexes,
        counts,
    })
}
