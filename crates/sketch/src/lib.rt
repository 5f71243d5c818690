// The cells of a shingle list, and the hashes that place a shingle in them.
#![tactic(auto)]

mod adding;
mod hashing;
mod width;

ghost use Rattle.std.specs.Prelude.{◌≡◌};
ghost use Rattle.refusal.specs.Answer.{refused_by};
ghost use Rattle.sketch.specs.Cells.{tag_of, Filled};
ghost use Rattle.sketch.specs.Opening.{signed};
ghost use Rattle.sketch.specs.Putting.{put_in};
ghost use Rattle.sketch.specs.Sums.{subtracted};

use refusal::Refusal;
use shingle::Shingle;
pub use width::Width;

// F(j) of a shingle: FNV-1a of the byte j followed by the shingle's 20 bytes.
pub fn tag(j: u8, s: Shingle) -> u64
    ensures { result ≡ tag_of j s }
{
    hashing::tag(j, s)
}

// Fills the cell table with the 3q cells of the shingle table's list, zero past them. A q that is not 1 to 64 is
// refused, and then a cell table that is too short; that table is left as it is.
pub fn fill_cells(q: u64, shingles: &[u8], cells: &mut [u8]) -> Result<(), Refusal>
    ensures { Filled q shingles.now cells.old cells.new (refused_by result) }
{
    let Some(width) = Width::new(q) else {
        return Err(Refusal::Width);
    };
    let size = width.bytes();
    if cells.len() < size {
        return Err(Refusal::Room);
    }
    rows::clear(cells, 0);
    adding::add_all(&mut cells[..size], width, shingles);
    Ok(())
}

// Puts a shingle into its three cells with a sign: each of its five values is added, or subtracted where it is negative, modulo
// 2^64. Where q is not 1 to 64 the cell table is left as it is.
pub fn put(cells: &mut [u8], q: u64, negative: bool, s: Shingle)
    ensures { cells.new ≡ put_in q (signed negative s) cells.old }
{
    if let Some(width) = Width::new(q) {
        adding::add_shingle(cells, width, negative, s);
    }
}

// Subtracts own cells from the sender's, row by row modulo 2^64, into the rows of a third table. Where one of the two has no such
// row it counts as 0.
pub fn subtract(theirs: &[u8], own: &[u8], cells: &mut [u8])
    ensures { cells.new ≡ subtracted theirs.now own.now cells.old }
{
    for k in 0..cells.len() / 8 {
        let less = rows::load(theirs, k).wrapping_sub(rows::load(own, k));
        rows::store(cells, k, less);
    }
}
