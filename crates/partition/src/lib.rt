// Where one block of bytes is cut, by rule 3: document 02, requests 7 and 12.
#![tactic(auto)]

ghost use Rattle.partition.specs.Found.{Found};

mod block;
mod run;
mod scan;
mod sliding;
mod start;

use block::Block;

// The number of this rule, which an opening carries.
pub const RULE_NUMBER: u64 = 3;

// After so many cuts no more are made.
const MAX_CUTS: usize = 31;

// The cuts of one block, from the left: the first n numbers of `at`.
#[derive(Clone, Copy)]
pub struct Cuts {
    pub n: usize,
    pub at: [usize; 32],
}

// The cuts of a block, for any w, h and s.
pub fn find_cuts(bytes: &[u8], w: usize, h: usize, s: u64) -> Cuts
    ensures { Found w h s bytes.now result.n result.at }
{
    let mut at = [0usize; 32];
    let mut n: usize = 0;
    // Where no position can be a candidate, the table is not copied.
    if block::range_end(bytes.len(), w, h) <= h {
        return Cuts { n, at };
    }
    let table = spread::table();
    let block = Block::new(bytes, &table, w, h, s);
    let mut floor: u32 = 0;
    let mut from = block.distance;
    while let Some(cut) = block.next_candidate(floor, from) {
        at[n] = cut.at;
        n += 1;
        if n == MAX_CUTS {
            return Cuts { n, at };
        }
        floor = cut.value;
        from = cut.at + block.step();
    }
    Cuts { n, at }
}
