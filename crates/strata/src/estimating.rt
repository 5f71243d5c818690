// Estimating: strata are opened from the highest down, as long as they open.
ghost use Rattle.std.specs.Prelude.{◌≡◌, ◌≤◌, length};
ghost use Rattle.shingle.specs.Table.{shingles_in, holds};
ghost use Rattle.strata.specs.Strata.{strata_bytes, of_stratum, estimate_of};
ghost use Rattle.strata.specs.Steps.{each_held, opens_with, Listed};

use super::{STRATA, STRATUM_BYTES, WIDTH, stratum};
use shingle::Shingle;
use single::TAKEN_BYTES;

// Whether a shingle is one of the own list's of stratum i.
#[tactic(auto, using(crate::proofs::Members::holds_stratum))]
fn is_own(shingles: &[u8], i: usize, s: Shingle) -> bool
    ensures { result ≡ holds s (of_stratum i (shingles_in shingles.now)) }
{
    stratum(s) == i && shingle::contains(shingles, s)
}

// Whether each shingle of a list is one of the own list's of stratum i, or where `own` is false, none is.
fn each_own(shingles: &[u8], i: usize, list: &[u8], own: bool) -> bool
    ensures { result ≡ each_held own (of_stratum i (shingles_in shingles.now)) (shingles_in list.now) }
{
    let n = shingle::size(list);
    (0..n).all(|k| is_own(shingles, i, shingle::shingle_at(list, k)) == own)
}

// Whether stratum i opens, from what was taken and whether all its cells ended at 0.
#[tactic(auto, unfolding(crate::specs::Steps::opens_with))]
fn opens(empty: bool, new: &[u8], gone: &[u8], shingles: &[u8], i: usize) -> bool
    ensures { result ≡ opens_with empty (shingles_in new.now) (shingles_in gone.now)
        (of_stratum i (shingles_in shingles.now)) }
{
    empty
        && each_own(shingles, i, gone, true)
        && each_own(shingles, i, new, false)
        && opening::none_twice(new)
        && opening::none_twice(gone)
}

// Opens stratum i of two tables, each lent with its 12 cells: how many shingles it lists, if it opens.
fn open_stratum(levels: u64, theirs: &[u8], own: &[u8], shingles: &[u8], i: usize) -> Option<usize>
    ensures { Listed levels i theirs.now own.now shingles.now result }
{
    let mut new = [0u8; TAKEN_BYTES];
    let mut gone = [0u8; TAKEN_BYTES];
    let empty = single::peel(levels, WIDTH, theirs, own, &mut new, &mut gone);
    if !opens(empty, &new, &gone, shingles, i) {
        return None;
    }
    let count = shingle::size(&new) + shingle::size(&gone);
    Some(count)
}

// The sum of what the strata list, from the highest down; at the first that does not open, times 2 for it and for each below it.
pub fn sum(levels: u64, theirs: &[u8], own: &[u8], shingles: &[u8]) -> usize
    requires { (strata_bytes ≤ length theirs.now) × (strata_bytes ≤ length own.now) }
    ensures { result ≡ estimate_of levels theirs.now own.now (shingles_in shingles.now) }
{
    let mut sum = 0;
    for i in (0..STRATA).rev() {
        let from = i * STRATUM_BYTES;
        let to = from + STRATUM_BYTES;
        let Some(count) = open_stratum(levels, &theirs[from..to], &own[from..to], shingles, i)
        else {
            return sum << (i + 1);
        };
        sum += count;
    }
    sum
}
