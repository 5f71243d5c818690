// Taking single cells: each shingle is written into the table of its sign and removed from its three cells.
ghost use Rattle.std.specs.Prelude.{◌≡◌, ◌*◌, ◌<◌, length};
ghost use Rattle.single.specs.Peeling.{Taken};
ghost use Rattle.single.specs.Steps.{Cleared, Listed, TookOne, TookAll};

use super::cell;
use entries::Entry;
use sketch::Width;

// The bytes of the most cells.
const CELL_BYTES: usize = 7680;

// Writes an entry into the table of its sign: entry n of the one or entry m of the other. The answer is how many the first then has.
fn list(negative: bool, new: &mut [u8], n: usize, gone: &mut [u8], m: usize, e: Entry) -> usize
    requires { n < 192 }
    ensures { Listed negative n m e new.old new.new gone.old gone.new result }
{
    if negative {
        entries::put(gone, m, e);
        n
    } else {
        entries::put(new, n, e);
        n + 1
    }
}

// Takes the shingle of cell i.
fn take_one(
    width: Width,
    cells: &mut [u8],
    i: usize,
    new: &mut [u8],
    n: usize,
    gone: &mut [u8],
    m: usize,
) -> usize
    requires cell { i < 192 }
    requires room { n < 192 }
    ensures { TookOne width.q i n m cells.old cells.new new.old new.new gone.old gone.new result }
{
    let negative = cell::is_negative(cells, i);
    let s = cell::shingle_in(cells, i);
    let tail = cell::value(cells, i, 3);
    sketch::put(cells, width.q, !negative, s);
    let e = Entry {
        previous: s.previous,
        own: s.own,
        tail,
    };
    list(negative, new, n, gone, m, e)
}

// Takes the first single cell, at most 3q times.
fn take_all(levels: u64, width: Width, cells: &mut [u8], new: &mut [u8], gone: &mut [u8])
    requires new_cleared { Cleared new.old }
    requires gone_cleared { Cleared gone.old }
    ensures { TookAll levels width.q cells.old cells.new new.new gone.new }
{
    let mut n = 0;
    for turn in 0..width.cells() {
        let Some(i) = cell::lowest(levels, width, cells) else {
            return;
        };
        n = take_one(width, cells, i, new, n, gone, turn - n);
    }
}

// Subtracts own cells from the sender's and takes from the difference. The answer is whether all cells ended at 0.
fn take_difference(
    levels: u64,
    width: Width,
    theirs: &[u8],
    own: &[u8],
    cells: &mut [u8],
    new: &mut [u8],
    gone: &mut [u8],
) -> bool
    requires size { length cells.old ≡ width.q * 120 }
    requires new_cleared { Cleared new.old }
    requires gone_cleared { Cleared gone.old }
    ensures { Taken levels width.q theirs.now own.now new.new gone.new result }
{
    sketch::subtract(theirs, own, cells);
    take_all(levels, width, cells, new, gone);
    cell::all_zero(cells)
}

// Takes from the difference of two cell tables into two tables for 192 shingles each.
pub fn take(levels: u64, q: u64, theirs: &[u8], own: &[u8], new: &mut [u8], gone: &mut [u8]) -> bool
    requires new_cleared { Cleared new.old }
    requires gone_cleared { Cleared gone.old }
    ensures { Taken levels q theirs.now own.now new.new gone.new result }
{
    let Some(width) = Width::new(q) else {
        return false;
    };
    let mut cells = [0u8; CELL_BYTES];
    take_difference(
        levels,
        width,
        theirs,
        own,
        &mut cells[..width.bytes()],
        new,
        gone,
    )
}
