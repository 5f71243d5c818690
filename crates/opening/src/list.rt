// The new list, made where the own list lies: what is kept goes to the table's front, the new shingles after it, then all is sorted.
ghost use Rattle.std.specs.Prelude.{◌≡◌, ◌+◌, ◌*◌, ◌≤◌, length};
ghost use Rattle.shingle.specs.Table.{shingles_in};
ghost use Rattle.sketch.specs.Opening.{kept};
ghost use Rattle.opening.specs.Renewing.{Renewed};
ghost use Rattle.opening.specs.Steps.{Kept, Appended};
ghost use Rattle.refusal.specs.Answer.{answer_of};

use refusal::Refusal;

// How many shingles of the table's list are not among those that are gone.
fn count(gone: &[u8], table: &[u8]) -> usize
    ensures { result ≡ length (kept (shingles_in gone.now) (shingles_in table.now)) }
{
    let n = shingle::size(table);
    let mut found = 0;
    for k in 0..n {
        let s = shingle::shingle_at(table, k);
        if !shingle::contains(gone, s) {
            found += 1;
        }
    }
    found
}

// Moves the shingles of the table's list that are not gone to the table's front.
fn keep(gone: &[u8], table: &mut [u8])
    ensures { Kept gone.now table.old table.new }
{
    let n = shingle::size(table);
    let mut written = 0;
    for read in 0..n {
        let s = shingle::shingle_at(table, read);
        if !shingle::contains(gone, s) {
            let e = entries::get(table, read);
            entries::put(table, written, e);
            written += 1;
        }
    }
}

// Writes the list of another table into this one, from entry `from` on.
fn append(new: &[u8], table: &mut [u8], from: usize)
    requires { (from + length (shingles_in new.now)) * 24 ≤ length table.old }
    ensures { Appended new.now from table.old table.new }
{
    let n = shingle::size(new);
    for k in 0..n {
        let e = entries::get(new, k);
        entries::put(table, from + k, e);
    }
}

// Writes the new list into the table.
pub fn renew(new: &[u8], gone: &[u8], table: &mut [u8]) -> Result<usize, Refusal>
    ensures { Renewed new.now gone.now table.old table.new (answer_of result) }
{
    let old = count(gone, table);
    let more = shingle::size(new);
    let n = old + more;
    if table.len() / 24 < n {
        return Err(Refusal::Room);
    }
    keep(gone, table);
    append(new, table, old);
    sort::sort(&mut table[..n * 24]);
    rows::clear(table, n * 24);
    Ok(n)
}
