// What was taken from a sketch, asked against the own list: no negative shingle twice, each in the own list, no positive one in it.
ghost use Rattle.std.specs.Prelude.{◌≡◌, ◌+◌, ◌<◌, length, drop};
ghost use Rattle.shingle.specs.Table.{shingle_in_table, shingles_in, holds};
ghost use Rattle.sketch.specs.Opening.{no_shingle_twice, all_held, none_held};

// Whether shingle k of a table's list comes again after its own place.
fn comes_again(list: &[u8], k: usize) -> bool
    requires { k < length (shingles_in list.now) }
    ensures { result ≡ holds (shingle_in_table list.now k) (drop (k + 1) (shingles_in list.now)) }
{
    let s = shingle::shingle_at(list, k);
    shingle::contains(&list[(k + 1) * 24..], s)
}

// Whether a table lists no shingle twice.
pub fn none_twice(list: &[u8]) -> bool
    ensures { result ≡ no_shingle_twice (shingles_in list.now) }
{
    let n = shingle::size(list);
    (0..n).all(|k| !comes_again(list, k))
}

// Whether all shingles of a list are in the own list.
pub fn all_in(own: &[u8], list: &[u8]) -> bool
    ensures { result ≡ all_held (shingles_in own.now) (shingles_in list.now) }
{
    let n = shingle::size(list);
    (0..n).all(|k| shingle::contains(own, shingle::shingle_at(list, k)))
}

// Whether no shingle of a list is in the own list.
pub fn none_in(own: &[u8], list: &[u8]) -> bool
    ensures { result ≡ none_held (shingles_in own.now) (shingles_in list.now) }
{
    let n = shingle::size(list);
    (0..n).all(|k| !shingle::contains(own, shingle::shingle_at(list, k)))
}
