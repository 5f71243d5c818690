// Lent bytes as rows of 64-bit numbers, most significant byte first. A row that the bytes do not hold whole reads 0,
// and a store there does nothing, so no caller has to check a bound.
#![tactic(auto)]

ghost use Rattle.std.specs.Prelude.{◌≡◌, get_or};
ghost use Rattle.rows.specs.Rows.{words_of, Stored, clear_from};

// A row is a number of so many bytes.
const ROW: usize = 8;

// Row k of the table, or 0 where it has no such row.
pub fn load(table: &[u8], k: usize) -> u64
    ensures { result ≡ get_or (words_of table.now) k 0 }
{
    if table.len() / ROW <= k {
        return 0;
    }
    let i = k * ROW;
    u64::from_be_bytes([
        table[i],
        table[i + 1],
        table[i + 2],
        table[i + 3],
        table[i + 4],
        table[i + 5],
        table[i + 6],
        table[i + 7],
    ])
}

// Writes x into row k of the table. A table that has no such row is left as it is.
pub fn store(table: &mut [u8], k: usize, x: u64)
    ensures { Stored table.old table.new k x }
{
    if table.len() / ROW <= k {
        return;
    }
    let i = k * ROW;
    table[i..i + ROW].copy_from_slice(&x.to_be_bytes());
}

// Writes 0 into every byte of the table from place `from` on.
pub fn clear(table: &mut [u8], from: usize)
    ensures { table.new ≡ clear_from table.old from }
{
    if from < table.len() {
        table[from..].fill(0);
    }
}
