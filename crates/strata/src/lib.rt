// The strata estimator: about how many shingles of two lists differ.
#![tactic(auto)]

mod estimating;
mod filling;
mod zeros;

ghost use Rattle.std.specs.Prelude.{◌≡◌};
ghost use Rattle.refusal.specs.Answer.{answer_of, refused_by};
ghost use Rattle.protocol.specs.Lent.{read_only};
ghost use Rattle.strata.specs.Strata.{stratum_of};
ghost use Rattle.strata.specs.Calls.{Built, Estimated};

use refusal::Refusal;
use setup::Lent;
use shingle::Shingle;
use tree::Settings;

// 16 strata, each a sketch of width 4: 12 cells of 40 bytes.
const STRATA: usize = 16;

const WIDTH: u64 = 4;

const STRATUM_BYTES: usize = 480;

const STRATA_BYTES: usize = 7680;

// The stratum of a shingle: the trailing zero bits of its F(3), 15 at most.
pub fn stratum(s: Shingle) -> usize
    ensures { result ≡ stratum_of s }
{
    zeros::of_hash(sketch::tag(3, s))
}

// Writes the strata of the shingle table's list to the first 7,680 bytes of the table of strata. The bytes after them are untouched.
// Asked are 1 to 7: a no leaves the table of strata as it is.
pub fn build(settings: Settings, lent: Lent, strata: &mut [u8]) -> Result<(), Refusal>
    ensures { Built settings (read_only lent.entry) strata.old strata.new (refused_by result) }
{
    lent.question(settings)?;
    if strata.len() < STRATA_BYTES {
        return Err(Refusal::Room);
    }
    filling::fill(lent.shingles, &mut strata[..STRATA_BYTES]);
    Ok(())
}

// About how many shingles differ, from the strata of two ends and the own list. Asked are 1 to 7.
pub fn estimate(settings: Settings, lent: Lent, theirs: &[u8], own: &[u8]) -> Result<usize, Refusal>
    ensures { Estimated settings (read_only lent.entry) theirs.now own.now (answer_of result) }
{
    lent.question(settings)?;
    if theirs.len() < STRATA_BYTES || own.len() < STRATA_BYTES {
        return Err(Refusal::Room);
    }
    Ok(estimating::sum(settings.levels, theirs, own, lent.shingles))
}
