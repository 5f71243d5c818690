// Building strata in one pass over the list.
ghost use Rattle.std.specs.Prelude.{◌≡◌, length};
ghost use Rattle.shingle.specs.Table.{shingles_in};
ghost use Rattle.sketch.specs.Sums.{row_bytes};
ghost use Rattle.strata.specs.Strata.{strata_bytes, strata_of};

use super::{STRATUM_BYTES, WIDTH, stratum};

// Fills a table with the strata of the shingle table's list: each shingle goes into the cells of its stratum.
pub fn fill(shingles: &[u8], strata: &mut [u8])
    requires { length strata.old ≡ strata_bytes }
    ensures { strata.new ≡ row_bytes (strata_of (shingles_in shingles.now)) }
{
    rows::clear(strata, 0);
    let n = shingle::size(shingles);
    for k in 0..n {
        let s = shingle::shingle_at(shingles, k);
        let from = stratum(s) * STRATUM_BYTES;
        sketch::put(&mut strata[from..from + STRATUM_BYTES], WIDTH, false, s);
    }
}
