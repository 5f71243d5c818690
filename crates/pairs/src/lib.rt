// Whether the new list of an opening is short enough and has no pair twice at one level, asked before it is made. What is kept of
// the own list and what is new lie in two tables that may not change, so the places of their entries are sorted in their stead.
#![tactic(auto)]

mod neighbours;
mod places;
mod shell;

ghost use Rattle.std.specs.Prelude.{◌≡◌};
ghost use Rattle.shingle.specs.Table.{shingles_in};
ghost use Rattle.pairs.specs.Once.{few_once};

use places::Tables;

// The most shingles that a list has.
const MAX_SHINGLES: usize = 4096;

// Whether the own list without the shingles that are gone and with the new ones has at most 4,096 shingles and no pair twice at one
// level. No order of the own list is slow: neighbours are compared in sorted order, and not each with each.
pub fn once(new: &[u8], gone: &[u8], own: &[u8]) -> bool
    ensures { result ≡ few_once (shingles_in new.now) (shingles_in gone.now) (shingles_in own.now) }
{
    let mut noted = [0usize; MAX_SHINGLES];
    let kept = places::note(gone, own, 0, &mut noted, 0);
    let all = places::note(&[], new, own.len() / 24, &mut noted, kept);
    if all > MAX_SHINGLES {
        return false;
    }
    Tables { own, new }.none_twice(&mut noted[..all])
}
