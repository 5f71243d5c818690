// Entries of count 1 sorted, and equal neighbours made one with their number as its count.
ghost use Rattle.std.specs.Prelude.{◌≡◌};
ghost use Rattle.entries.specs.Entries.{table_of};
ghost use Rattle.entries.specs.Order.{precedes};
ghost use Rattle.sort.specs.Sort.{sort_of};
ghost use Rattle.shingle.specs.Steps.{entry_with_count, Merged};

use super::{ENTRY, LEVEL};
use entries::Entry;

// The entry with another count, modulo 65,536.
fn with_count(e: Entry, count: usize) -> Entry
    ensures { result ≡ entry_with_count e count }
{
    Entry {
        previous: e.previous,
        own: e.own,
        tail: e.tail / LEVEL * LEVEL + count as u64 % LEVEL,
    }
}

// Makes each stretch of equal entries one. The answer is how many are left, from the table's front on.
fn merge(table: &mut [u8]) -> usize
    ensures { Merged (table_of table.old) table.old table.new result }
{
    let n = table.len() / ENTRY;
    if n == 0 {
        return 0;
    }
    let mut e = entries::get(table, 0);
    let mut count: usize = 1;
    let mut written: usize = 0;
    for read in 1..n {
        let next = entries::get(table, read);
        if e == next {
            count += 1;
        } else {
            entries::put(table, written, with_count(e, count));
            e = next;
            count = 1;
            written += 1;
        }
    }
    entries::put(table, written, with_count(e, count));
    written + 1
}

// Sorts the entries and makes each stretch of equal ones one.
pub fn arrange(table: &mut [u8]) -> usize
    ensures { Merged (sort_of precedes (table_of table.old)) table.old table.new result }
{
    sort::sort(table);
    merge(table)
}
