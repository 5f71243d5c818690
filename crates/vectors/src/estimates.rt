// Strata: a string against one of another kind, or against itself with a byte in its middle changed.
use crate::settings::{Settings, Shape};
use crate::strings::{Kind, change};
use crate::tables::Tables;
use std::io;
use std::io::Write;

// The strata of the other string, in tables of its own.
fn describe_other(settings: Settings, string: &[u8], strata: &mut [u8]) {
    let mut tables = Tables::filled(0);
    tables.set_up(settings, string);
    tables.build_strata(string, strata);
}

// Estimates from the other string's strata and the own. The line ends with FNV-1a of the own strata and of the other's, and the call's answer.
fn finish_line<W: Write>(
    out: &mut W,
    settings: Settings,
    string: &[u8],
    other: &[u8],
) -> io::Result<()> {
    let mut tables = Tables::filled(0);
    tables.set_up(settings, string);
    let mut own = [170u8; 7688];
    tables.build_strata(string, &mut own);
    let mut theirs = [170u8; 7688];
    describe_other(settings, other, &mut theirs);
    let answer = tables.estimate(string, &theirs, &own);
    writeln!(out, " {} {} {answer}", fnv::hash(&own), fnv::hash(&theirs))
}

// The line of two strings of so many bytes, at most 20,000. It begins with the settings, the two kinds and the length. The other string is
// changed where it is of the same kind.
fn line<W: Write>(
    out: &mut W,
    settings: Settings,
    kind: Kind,
    other_kind: Kind,
    length: usize,
) -> io::Result<()> {
    let mut string = [0u8; 20000];
    let mut other = [0u8; 20000];
    let string = kind.string(&mut string, length);
    let other = other_kind.string(&mut other, length);
    if kind == other_kind {
        change(other);
    }
    let size = string.len();
    write!(out, "strata {settings} {kind} {other_kind} {size}")?;
    finish_line(out, settings, string, other)
}

// All lines, and two whose setups are refused.
pub fn lines<W: Write>(out: &mut W) -> io::Result<()> {
    for settings in [
        Shape::new(2, 2, 1, 2).wide(64),
        Shape::new(4, 4, 3, 4096).wide(17),
        Shape::new(2, 8, 4, 4096).wide(63),
    ] {
        for length in [100, 4527, 20000] {
            for (kind, other) in [
                (Kind::Random, Kind::Random),
                (Kind::Samples, Kind::Samples),
                (Kind::Repeated, Kind::Repeated),
                (Kind::Random, Kind::FourValues),
                (Kind::Samples, Kind::Random),
            ] {
                line(out, settings, kind, other, length)?;
            }
        }
    }
    for settings in [
        Shape::new(2, 2, 1, 2).wide(65),
        Shape::new(2, 2, 5, 32).wide(64),
    ] {
        line(out, settings, Kind::Random, Kind::Random, 100)?;
    }
    Ok(())
}
