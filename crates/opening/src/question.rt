// The questions that an opening sketch is asked.
ghost use Rattle.std.specs.Prelude.{◌≡◌};
ghost use Rattle.refusal.specs.Answer.{refused_by};
ghost use Rattle.shingle.specs.Table.{shingles_in};
ghost use Rattle.opening.specs.Steps.{size_refusal, opens_with};

use super::taken;
use refusal::Refusal;

// A shingle table's room: 4,096 entries of 24 bytes.
const SHINGLE_BYTES: usize = 98304;

// Questions 3, 5 and 7, of the settings and of the lengths of what is lent.
#[tactic(auto, unfolding(crate::specs::Steps::size_refusal, tree::specs::Questions::ask))]
pub fn sizes(
    levels: u64,
    width: u64,
    theirs: usize,
    own: usize,
    shingles: usize,
) -> Result<(), Refusal>
    ensures { refused_by result ≡ size_refusal levels width theirs own shingles }
{
    if !(1..=4).contains(&levels) {
        return Err(Refusal::Levels);
    }
    if !(1..=64).contains(&width) {
        return Err(Refusal::Width);
    }
    let cells = width as usize * 120;
    if theirs < cells || own < cells || shingles < SHINGLE_BYTES {
        return Err(Refusal::Room);
    }
    Ok(())
}

// Whether the sketch opens, from what was taken and whether all cells ended at 0. A positive shingle that is in the own list is among
// the negative ones, or else it is kept and its pair comes twice.
#[tactic(auto, unfolding(crate::specs::Steps::opens_with))]
pub fn opens(empty: bool, new: &[u8], gone: &[u8], own: &[u8]) -> bool
    ensures { result ≡ opens_with empty (shingles_in new.now) (shingles_in gone.now) (shingles_in own.now) }
{
    empty
        && taken::none_twice(gone)
        && taken::all_in(own, gone)
        && taken::none_in(gone, new)
        && pairs::once(new, gone, own)
}
