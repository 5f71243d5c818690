// Opening a sketch, first part: own cells are subtracted from the sender's and single cells are taken one after the other.
#![tactic(auto)]

mod cell;
mod taking;

ghost use Rattle.single.specs.Peeling.{TakenInto};

// The bytes of a table for 192 shingles, as many as can be taken.
pub const TAKEN_BYTES: usize = 4608;

// Takes the single cell of lowest index from the difference of two cell tables, at most 3q times, and writes the shingles taken as positive
// and as negative into two tables for 192 shingles each, whatever these hold. The answer is whether all cells ended at 0. A missing row
// of a cell table counts as 0. Where q is not 1 to 64 nothing is taken. Where a table has another length than 4,608 bytes both are left as
// they are. In both cases the answer is false.
pub fn peel(levels: u64, q: u64, theirs: &[u8], own: &[u8], new: &mut [u8], gone: &mut [u8]) -> bool
    ensures { TakenInto levels q theirs.now own.now new.old new.new gone.old
        gone.new result }
{
    if new.len() != TAKEN_BYTES || gone.len() != TAKEN_BYTES {
        return false;
    }
    rows::clear(new, 0);
    rows::clear(gone, 0);
    taking::take(levels, q, theirs, own, new, gone)
}
