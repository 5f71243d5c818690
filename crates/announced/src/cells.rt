// The cells of an opening message, copied into a cell table.
ghost use Rattle.std.specs.Prelude.{◌≡◌, ◌*◌, ◌≤◌, length};
ghost use Rattle.announced.specs.Cells.{value_count, cell_table, Copied};

// The greatest sketch width q, and the values for each of q: three cells of five values.
const WIDEST: u64 = 64;

const VALUES: usize = 15;

// How many values are copied: 15 for each of q, and q above 64 counts as 64.
#[tactic(auto, unfolding(crate::specs::Cells::value_count))]
fn count(q: u64) -> usize
    ensures { result ≡ value_count q }
{
    q.min(WIDEST) as usize * VALUES
}

// Copies the first `values` values of a message's cells, which start at word 11, to the first rows of the table.
fn copy_cells(message: &[u8], values: usize, table: &mut [u8])
    requires { values * 8 ≤ length table.old }
    ensures { Copied message.now values table.old table.new }
{
    for k in 0..values {
        let x = message::reader::cell_value(message, 11, k);
        rows::store(table, k, x);
    }
}

// The cells of an opening message as a cell table, zero past them.
pub fn cells_of(message: &[u8], q: u64) -> [u8; 7680]
    ensures { result ≡ cell_table message.now q }
{
    let values = count(q);
    let mut table = [0u8; 7680];
    copy_cells(message, values, &mut table);
    table
}
