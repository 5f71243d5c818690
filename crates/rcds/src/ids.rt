// Ids and pairs in lent bytes, rows of 64 bits, most significant byte first; and the mark of an answer.
ghost use Rattle.std.specs.Prelude.{◌++◌, ◌≡◌, ◌*◌, ◌^◌, ◌≤◌, ◌<◌, length, take, drop};
ghost use Rattle.rows.specs.Rows.{words_of};
ghost use Rattle.rcds.specs.Trails.{marked, column, bytes_of_ids};

// What comes on top of an answer whose trail is the only one.
const ONLY: u64 = 8589934592;

// 32 rows of a table, from a place on and then every `step`; 0 past the table's end.
pub fn read_column(table: &[u8], step: usize, place: usize) -> [u64; 32]
    requires step_bound { step ≤ 3 }
    requires place_bound { place ≤ 2 }
    ensures { result ≡ column 32 step place (words_of table.now) }
{
    let mut rows = [0u64; 32];
    for i in 0..32 {
        rows[i] = rows::load(table, place + step * i);
    }
    rows
}

// Writes the first k ids of a list to the front of the buffer.
pub fn write_ids(list: [u64; 32], k: usize, ids: &mut [u8])
    requires k_bound { k ≤ 32 }
    requires k_in_bounds { k * 8 ≤ length ids.old }
    ensures { ids.new ≡ bytes_of_ids (take k list) ++ drop (k * 8) ids.old }
{
    for (i, id) in list[..k].iter().enumerate() {
        rows::store(ids, i, *id);
    }
}

// An answer, marked where its trail is the only one.
pub fn mark(answer: u64, only: bool) -> u64
    requires { answer < 2 ^ 33 }
    ensures { result ≡ marked answer only }
{
    if only {
        return ONLY + answer;
    }
    answer
}
