// The stratum of a hash.
ghost use Rattle.std.specs.Prelude.{◌≡◌};
ghost use Rattle.strata.specs.Strata.{stratum_from};

// The highest stratum.
const HIGHEST: usize = 15;

// The trailing zero bits of a hash, 15 at most.
#[tactic(auto, unfolding(crate::specs::Strata::stratum_from))]
pub fn of_hash(hash: u64) -> usize
    ensures { result ≡ stratum_from hash }
{
    (hash.trailing_zeros() as usize).min(HIGHEST)
}
