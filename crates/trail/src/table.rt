// Tables of pairs: how many pairs they hold, and whether each id is left at most as often as it is entered.
ghost use Rattle.std.specs.Prelude.{◌≡◌, false, min, ◌≤◌, eqb};
ghost use Rattle.trail.specs.Trails.{tally, total};
ghost use Rattle.trail.specs.Search.{Unbalanced};

// The sum of the counts, or 33 if it is more than 32.
pub fn size(counts: &[u64; 32]) -> u64
    ensures { result ≡ min 33 (total counts.now) }
{
    let mut sum = 0u64;
    for count in counts {
        sum = sum.saturating_add(*count);
    }
    sum.min(33)
}

// How many pairs have the id in this column.
fn held(column: &[u64; 32], counts: &[u64; 32], id: u64) -> u64
    requires { total counts.now ≤ 32 }
    ensures { result ≡ tally (λ p o. eqb p id) column.now column.now counts.now }
{
    let mut sum = 0;
    for (row, other) in column.iter().enumerate() {
        if *other == id {
            sum += counts[row];
        }
    }
    sum
}

// Whether no id is left more often than it is entered, 0 once more: a trail starts there.
pub fn balanced(previous: &[u64; 32], own: &[u64; 32], counts: &[u64; 32]) -> bool
    requires { total counts.now ≤ 32 }
    ensures { result ≡ false → Unbalanced previous.now own.now counts.now }
{
    for id in previous {
        let leaving = held(previous, counts, *id);
        let entering = held(own, counts, *id);
        if entering + u64::from(*id == 0) < leaving {
            return false;
        }
    }
    true
}

// The counts as bytes: what the search copies at every step is then short.
pub fn narrow(counts: &[u64; 32]) -> [u8; 32]
    requires { total counts.now ≤ 32 }
    ensures { result ≡ counts.now }
{
    let mut bytes = [0u8; 32];
    for (row, count) in counts.iter().enumerate() {
        bytes[row] = *count as u8;
    }
    bytes
}
