// Whether every unused pair can be reached. The marking is not proved right: where it misses a pair, a second pass over
// the linked rows checks that nothing leads from the marked pairs to the missed ones, and the answer rests on that alone.
ghost use Rattle.std.specs.Prelude.{◌≡◌, true, false, ℕ, ◌<◌, ◌≤◌, length, IfSome};
ghost use Rattle.trail.specs.Trails.{pairs_of};
ghost use Rattle.trail.specs.Search.{Apart, Missed, Lost, Following, Clear};

use crate::links::Table;

// The rows of a column that pass a test, a bit for each.
pub fn rows_where<T, F: Fn(&T) -> bool>(column: &[T], test: F) -> u64
    requires few { length column.now ≤ 64 }
    requires callable { F.IsAlwaysCallable test }
{
    let mut rows = 0u64;
    for (row, x) in column.iter().enumerate() {
        rows |= u64::from(test(x)) << row;
    }
    rows
}

// The rows among `unused` that can be reached from those in `start`: each is taken once at most.
fn reached(next: &[u64; 32], unused: u64, start: u64) -> u64 {
    let mut seen = start & unused;
    let mut waiting = seen;
    for _ in 0..32 {
        let row = waiting.trailing_zeros() as usize;
        if 32 <= row {
            return seen;
        }
        let fresh = next[row] & unused & !seen;
        seen |= fresh;
        waiting = waiting & !(1 << row) | fresh;
    }
    seen
}

// Whether one of the rows linked from `from` on is missed: unused and not marked.
fn met(table: &Table, counts: &[u8; 32], marked: u64, from: usize) -> bool
    ensures { result ≡ false → (id : ℕ) → Following table.now.previous id 0 from → Clear table.now.previous counts.now marked id 32 }
{
    // A while: the rows are followed, not counted.
    let mut row = from;
    while row < 32 {
        let at = row;
        row = table.after[at];
        if 0 < counts[at] && marked >> at & 1 == 0 {
            return true;
        }
    }
    false
}

// A missed row, if there is one and none is linked from `from` on or can follow a marked one.
fn shut(table: &Table, counts: &[u8; 32], marked: u64, from: usize) -> Option<usize>
    ensures { IfSome result (λ j. (j < 32) × Missed counts.now marked j × ((v : ℕ) → Following table.now.previous v 0 from → Apart table.now.previous table.now.own counts.now marked v 32)) }
{
    if met(table, counts, marked, from) {
        return None;
    }
    let mut missed = None;
    for row in 0..32 {
        if 0 < counts[row] {
            if marked >> row & 1 == 0 {
                missed = Some(row);
            } else if met(table, counts, marked, table.first[row]) {
                return None;
            }
        }
    }
    missed
}

// Whether some unused pair is out of reach from v, so that no trail goes on from there. `from` is the first row that leaves v.
pub fn lost(table: &Table, counts: &[u8; 32], v: u64, from: usize) -> bool
    requires { Following table.now.previous v 0 from }
    ensures { result ≡ true → Lost v (pairs_of table.now.previous table.now.own counts.now) }
{
    let unused = rows_where(counts, |count| 0 < *count);
    let start = rows_where(&table.previous, |id| *id == v);
    let marked = reached(&table.next, unused, start);
    marked != unused && shut(table, counts, marked, from).is_some()
}
