// Shingles added to their cells with a sign, in a table of 64-bit rows, five to a cell.
ghost use Rattle.std.specs.Prelude.{◌≡◌, ◌*◌, ◌<◌, false, [], ◌∷◌};
ghost use Rattle.shingle.specs.Table.{shingles_in};
ghost use Rattle.sketch.specs.Sums.{part, parts_from, with_sign, Added};
ghost use Rattle.sketch.specs.Cells.{all_parts, CellOf};
ghost use Rattle.sketch.specs.Opening.{signed, signed_parts};

use super::hashing;
use super::width::Width;
use shingle::Shingle;

// The sums that a cell has, a row each.
const SUMS: usize = 5;

// Adds x to row k, modulo 2^64.
fn add_row(table: &mut [u8], k: usize, x: u64)
    ensures { Added table.old table.new (part k x ∷ []) }
{
    let sum = rows::load(table, k).wrapping_add(x);
    rows::store(table, k, sum);
}

// Adds five values to cell i.
fn add_cell(table: &mut [u8], i: usize, values: &[u64; SUMS])
    requires { i < 192 }
    ensures { Added table.old table.new (parts_from (i * 5) values.now) }
{
    let row = i * SUMS;
    for (m, value) in values.iter().enumerate() {
        add_row(table, row + m, *value);
    }
}

// The cell of a shingle among the j-th third of the cells.
fn cell(width: Width, j: u8, s: Shingle) -> usize
    requires { j < 3 }
    ensures { CellOf width.q j s result }
{
    let place = hashing::tag(j, s) % width.q;
    (u64::from(j) * width.q + place) as usize
}

// A value with its sign, modulo 2^64.
fn with_sign(negative: bool, x: u64) -> u64
    ensures { result ≡ with_sign negative x }
{
    if negative { x.wrapping_neg() } else { x }
}

// Adds a shingle to its three cells with a sign.
pub fn add_shingle(table: &mut [u8], width: Width, negative: bool, s: Shingle)
    ensures { Added table.old table.new (signed_parts width.q (signed negative s)) }
{
    let values = [
        with_sign(negative, 1),
        with_sign(negative, s.previous),
        with_sign(negative, s.own),
        with_sign(negative, hashing::tail(s)),
        with_sign(negative, hashing::tag(3, s)),
    ];
    for j in 0..3 {
        let i = cell(width, j, s);
        add_cell(table, i, &values);
    }
}

// Adds all shingles of a shingle table's list to their cells.
pub fn add_all(table: &mut [u8], width: Width, shingles: &[u8])
    ensures { Added table.old table.new (all_parts width.q (shingles_in shingles.now)) }
{
    for k in 0..shingle::size(shingles) {
        let s = shingle::shingle_at(shingles, k);
        add_shingle(table, width, false, s);
    }
}
