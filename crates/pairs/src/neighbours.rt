// Pairs that come twice in sorted entries stand side by side.
ghost use Rattle.std.specs.Prelude.{◌≡◌, length};
ghost use Rattle.sort.specs.Shell.{InOrder};
ghost use Rattle.shingle.specs.Shingles.{pair_of};
ghost use Rattle.shingle.specs.Table.{shingle_of};
ghost use Rattle.shingle.specs.Rising.{same_pair};
ghost use Rattle.sketch.specs.Opening.{no_pair_twice};
ghost use Rattle.pairs.specs.Places.{entries_at, shingles_at};
ghost use Rattle.pairs.specs.Both.{both};

use super::places::Tables;
use entries::Entry;

// Whether two entries have one pair at one level.
#[tactic(auto, unfolding(shingle::specs::Rising::same_pair))]
fn same(a: Entry, b: Entry) -> bool
    ensures { result ≡ same_pair (pair_of (shingle_of a)) (pair_of (shingle_of b)) }
{
    a.tail / 65536 == b.tail / 65536 && a.previous == b.previous && a.own == b.own
}

impl Tables<'_> {
    // Whether no pair comes twice at places that are in order.
    fn differ(self, noted: &[usize]) -> bool
        requires { InOrder 1 (length noted.now) (entries_at (both self) noted.now) }
        ensures { result ≡ no_pair_twice (shingles_at (both self.entry) noted.now) }
    {
        for k in 1..noted.len() {
            let a = self.read(noted[k - 1]);
            let b = self.read(noted[k]);
            if same(a, b) {
                return false;
            }
        }
        true
    }

    // Whether no pair comes twice at the noted places. They are sorted for that.
    pub fn none_twice(self, noted: &mut [usize]) -> bool
        ensures { result ≡ no_pair_twice (shingles_at (both self.entry) noted.old) }
    {
        self.sort(noted);
        self.differ(noted)
    }
}
