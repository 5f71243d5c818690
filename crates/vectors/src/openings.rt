// Openings: a string of its own against the same one with a byte in its middle changed.
use crate::settings::{Settings, Shape};
use crate::strings::{Kind, change};
use crate::tables::Tables;
use std::io;
use std::io::Write;

// Opens the changed string's sketch over the string's own list. A line with the settings, the string's kind and length, the call's
// answer, and FNV-1a of the shingle table after it.
fn opened_line<W: Write>(
    out: &mut W,
    settings: Settings,
    kind: Kind,
    string: &[u8],
    changed: &[u8],
) -> io::Result<()> {
    let mut own = Tables::filled(0);
    own.set_up(settings, string);
    let mut theirs = Tables::filled(0);
    theirs.set_up(settings, changed);
    let answer = rcds::rcds_sketch_open(
        settings.shape.levels,
        settings.width,
        &theirs.cells,
        &own.cells,
        &mut own.shingles,
    );
    let size = string.len();
    let hash = fnv::hash(&own.shingles);
    writeln!(out, "open {settings} {kind} {size} {answer} {hash}")
}

// The line of a string of so many bytes, at most 20,000.
fn line<W: Write>(out: &mut W, settings: Settings, kind: Kind, length: usize) -> io::Result<()> {
    let mut string = [0u8; 20000];
    let mut other = [0u8; 20000];
    let string = kind.string(&mut string, length);
    let changed = kind.string(&mut other, length);
    change(changed);
    opened_line(out, settings, kind, string, changed)
}

// All lines, and three that are refused before the sketch is opened.
pub fn lines<W: Write>(out: &mut W) -> io::Result<()> {
    for settings in [
        Shape::new(2, 2, 1, 2).wide(64),
        Shape::new(2, 2, 4, 16).wide(1),
        Shape::new(4, 4, 3, 4096).wide(17),
        Shape::new(12, 8, 4, 16384).wide(33),
        Shape::new(2, 8, 4, 4096).wide(63),
    ] {
        for length in [0, 6, 100, 4527, 20000] {
            for kind in [Kind::Zeros, Kind::Random, Kind::Samples, Kind::Repeated] {
                line(out, settings, kind, length)?;
            }
        }
    }
    for settings in [
        Shape::new(2, 2, 0, 2).wide(64),
        Shape::new(2, 2, 5, 32).wide(64),
        Shape::new(2, 2, 1, 2).wide(65),
    ] {
        line(out, settings, Kind::Random, 100)?;
    }
    Ok(())
}
