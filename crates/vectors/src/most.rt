// How many blocks one cutting gives at most.
use std::io;
use std::io::Write;

// The numbers of each call.
const CALLS: [(u64, u64, u64); 18] = [
    (0, 2, 1),
    (1, 12, 32768),
    (5, 2, 2),
    (6, 2, 2),
    (9, 2, 2),
    (100, 3, 7),
    (66, 2, 2),
    (68, 2, 2),
    (65536, 12, 32768),
    (65536, 2, 32767),
    (65536, 12, 2),
    (65537, 2, 1),
    (7, 1, 1),
    (7, 13, 1),
    (7, 2, 0),
    (7, 2, 32769),
    (7, 13, 0),
    (u64::MAX, 2, 1),
];

// For each call a line with its numbers and its answer.
pub fn lines<W: Write>(out: &mut W) -> io::Result<()> {
    for (n, w, h) in CALLS {
        let answer = rcds::rcds_most_blocks(n, w, h);
        writeln!(out, "most {n} {w} {h} {answer}")?;
    }
    Ok(())
}
