// A cell of a cell table: the shingle that it holds if it is single, and whether it is.
ghost use Rattle.std.specs.Prelude.{◌≡◌, ◌*◌, ◌<◌, ◌&&◌, ◌||◌, ◌==◌, nat_le, slice_index};
ghost use Rattle.rows.specs.Rows.{words_of};
ghost use Rattle.sketch.specs.Opening as opening;
ghost use Rattle.single.specs.Steps.{Lowest};

use shingle::Shingle;
use sketch::Width;

// The number of a cell that holds one negative shingle.
const ONE_NEGATIVE: u64 = u64::MAX;

// A tail has four bytes.
const TAIL_END: u64 = 4294967296;

// The most nodes that give a shingle.
const MAX_COUNT: u64 = 4096;

// Whether the number of cell i is that of one negative shingle.
#[tactic(auto, unfolding(sketch::specs::Opening::is_negative))]
pub fn is_negative(cells: &[u8], i: usize) -> bool
    requires { i < 192 }
    ensures { result ≡ opening.is_negative (words_of cells.now) i }
{
    rows::load(cells, i * 5) == ONE_NEGATIVE
}

// Whether the number of cell i is that of one shingle, of either sign.
fn has_one(cells: &[u8], i: usize) -> bool
    requires { i < 192 }
    ensures { result ≡ (slice_index (words_of cells.now) (i * 5) == 1 || opening.is_negative (words_of cells.now) i) }
{
    rows::load(cells, i * 5) == 1 || is_negative(cells, i)
}

// Sum m of cell i, with the cell's sign.
#[tactic(auto, unfolding(sketch::specs::Opening::value_in))]
pub fn value(cells: &[u8], i: usize, m: usize) -> u64
    requires cell { i < 192 }
    requires sum { m < 5 }
    ensures { result ≡ opening.value_in (words_of cells.now) i m }
{
    let sum = rows::load(cells, i * 5 + m);
    if is_negative(cells, i) {
        sum.wrapping_neg()
    } else {
        sum
    }
}

// The shingle that cell i holds if it is single.
#[tactic(auto, unfolding(sketch::specs::Opening::shingle_in))]
pub fn shingle_in(cells: &[u8], i: usize) -> Shingle
    requires { i < 192 }
    ensures { result ≡ opening.shingle_in (words_of cells.now) i }
{
    let previous = value(cells, i, 1);
    let own = value(cells, i, 2);
    let tail = value(cells, i, 3);
    Shingle {
        previous,
        own,
        level: tail / 65536,
        count: tail % 65536,
    }
}

// Whether a shingle may have this count.
fn is_count(count: u64) -> bool
    ensures { result ≡ (nat_le 1 count && nat_le count 4096) }
{
    1 <= count && count <= MAX_COUNT
}

// Whether the tail, its level and count, and F(3) are those of a shingle.
#[tactic(auto, unfolding(sketch::specs::Opening::fits))]
fn fits(levels: u64, tail: u64, check: u64, s: Shingle) -> bool
    ensures { result ≡ opening.fits levels tail check s }
{
    tail < TAIL_END && s.level <= levels && is_count(s.count) && check == sketch::tag(3, s)
}

// Whether cell i is one of the shingle's three.
#[tactic(auto, unfolding(sketch::specs::Opening::lies_in, sketch::specs::Cells::cell_of))]
fn lies_in(width: Width, i: usize, s: Shingle) -> bool
    ensures { result ≡ opening.lies_in width.q i s }
{
    let q = width.q;
    let cell = i as u64;
    let first = sketch::tag(0, s) % q;
    let second = q + sketch::tag(1, s) % q;
    let third = q * 2 + sketch::tag(2, s) % q;
    cell == first || cell == second || cell == third
}

// Whether cell i is single.
#[tactic(auto, unfolding(sketch::specs::Opening::single))]
fn is_single(levels: u64, width: Width, cells: &[u8], i: usize) -> bool
    requires { i < 192 }
    ensures { result ≡ opening.single width.q levels (words_of cells.now) i }
{
    if !has_one(cells, i) {
        return false;
    }
    let s = shingle_in(cells, i);
    let tail = value(cells, i, 3);
    let check = value(cells, i, 4);
    fits(levels, tail, check, s) && lies_in(width, i, s)
}

// The index of the first single cell.
pub fn lowest(levels: u64, width: Width, cells: &[u8]) -> Option<usize>
    ensures { Lowest width.q (opening.lowest width.q levels (words_of cells.now)) result }
{
    for i in 0..width.cells() {
        if is_single(levels, width, cells, i) {
            return Some(i);
        }
    }
    None
}

// Whether all rows are 0.
pub fn all_zero(cells: &[u8]) -> bool
    ensures { result ≡ opening.all_zero (words_of cells.now) }
{
    for k in 0..cells.len() / 8 {
        if rows::load(cells, k) != 0 {
            return false;
        }
    }
    true
}
