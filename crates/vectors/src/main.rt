// Runs FNV-1a's published vectors and some hundred strings through the proved code and prints what comes out. The stored
// output is what tests/reference prints; its program reference-vectors says the format.
#![tactic(auto)]

mod estimates;
mod most;
mod openings;
mod ranges;
mod settings;
mod strings;
mod tables;

use settings::{Settings, Shape};
use std::io;
use std::io::{BufWriter, Write};
use strings::Kind;
use tables::Tables;

// From here on an answer is a yes.
pub const YES: u64 = 4294967296;

// The strings whose FNV-1a is published.
const PUBLISHED: [&str; 12] = [
    "", "a", "b", "c", "d", "e", "f", "fo", "foo", "foob", "fooba", "foobar",
];

// Eight bytes whose FNV-1a is 0, so that their block id is 1.
const HASHES_TO_ZERO: [u8; 8] = [213, 107, 185, 83, 66, 135, 8, 54];

// A line with the length of the bytes and their FNV-1a.
fn hash_line<W: Write>(out: &mut W, bytes: &[u8]) -> io::Result<()> {
    writeln!(out, "fnv {} {}", bytes.len(), fnv::hash(bytes))
}

fn hash_lines<W: Write>(out: &mut W) -> io::Result<()> {
    for text in PUBLISHED {
        hash_line(out, text.as_bytes())?;
    }
    for byte in 0..=255 {
        hash_line(out, &[byte])?;
    }
    hash_line(out, &HASHES_TO_ZERO)?;
    writeln!(out, "id {}", fnv::block_id(&HASHES_TO_ZERO))
}

// Cuts a string of so many bytes, at most 65,537. A line with the settings, the string's kind and length, the call's answer, and FNV-1a
// of the whole table after it.
fn tree_line<W: Write>(out: &mut W, shape: Shape, kind: Kind, length: usize) -> io::Result<()> {
    let mut buffer = [0u8; 65537];
    let string = kind.string(&mut buffer, length);
    let mut nodes = [170u8; 65536];
    let answer = shape.cut(string, &mut nodes);
    let size = string.len();
    writeln!(out, "{shape} {kind} {size} {answer} {}", fnv::hash(&nodes))
}

fn tree_lines<W: Write>(out: &mut W) -> io::Result<()> {
    for shape in [
        Shape::new(2, 2, 1, 2),
        Shape::new(2, 2, 4, 16),
        Shape::new(3, 4, 2, 64),
        Shape::new(12, 8, 1, 8),
        Shape::new(4, 2, 3, 65536),
        Shape::new(5, 3, 4, 1000),
        Shape::new(2, 8, 4, 4096),
        Shape::new(7, 5, 2, 300),
    ] {
        for kind in [
            Kind::Zeros,
            Kind::Sevens,
            Kind::Random,
            Kind::FourValues,
            Kind::Samples,
            Kind::Repeated,
        ] {
            for length in [0, 1, 5, 17, 100, 1000, 4527, 20000] {
                tree_line(out, shape, kind, length)?;
            }
        }
        tree_line(out, shape, Kind::Zeros, 65536)?;
        tree_line(out, shape, Kind::Random, 65536)?;
    }
    Ok(())
}

fn refused_lines<W: Write>(out: &mut W) -> io::Result<()> {
    for shape in [
        Shape::new(1, 2, 1, 2),
        Shape::new(13, 2, 1, 2),
        Shape::new(2, 1, 1, 2),
        Shape::new(2, 9, 1, 9),
        Shape::new(2, 2, 0, 2),
        Shape::new(2, 2, 5, 32),
        Shape::new(2, 2, 1, 1),
        Shape::new(2, 2, 4, 15),
        Shape::new(2, 2, 1, 65537),
    ] {
        tree_line(out, shape, Kind::Random, 100)?;
    }
    tree_line(out, Shape::new(2, 2, 1, 2), Kind::Zeros, 65537)
}

// Rulers: the most nodes that a tree may have, and more.
fn ruler_lines<W: Write>(out: &mut W) -> io::Result<()> {
    for length in [6670, 6671, 9000] {
        tree_line(out, Shape::new(2, 8, 4, 4096), Kind::Ruler, length)?;
    }
    Ok(())
}

// Sets a sender up for the string. A line with the settings, the string's kind and length, the call's answer, and FNV-1a of each
// table and of the state after it.
fn filled_setup_line<W: Write>(
    out: &mut W,
    settings: Settings,
    kind: Kind,
    string: &[u8],
) -> io::Result<()> {
    let mut tables = Tables::filled(170);
    let answer = tables.set_up(settings, string);
    writeln!(
        out,
        "setup {settings} {kind} {} {answer} {} {} {} {}",
        string.len(),
        fnv::hash(&tables.nodes),
        fnv::hash(&tables.shingles),
        fnv::hash(&tables.cells),
        fnv::hash(&tables.state)
    )
}

// The line of a setup for a string of so many bytes, at most 65,537.
fn setup_line<W: Write>(
    out: &mut W,
    settings: Settings,
    kind: Kind,
    length: usize,
) -> io::Result<()> {
    let mut buffer = [0u8; 65537];
    filled_setup_line(out, settings, kind, kind.string(&mut buffer, length))
}

fn setup_lines<W: Write>(out: &mut W) -> io::Result<()> {
    for settings in [
        Shape::new(2, 2, 1, 2).wide(64),
        Shape::new(2, 2, 4, 16).wide(1),
        Shape::new(4, 4, 3, 4096).wide(17),
        Shape::new(12, 8, 4, 16384).wide(33),
        Shape::new(2, 8, 4, 4096).wide(63),
    ] {
        for length in [0, 6, 100, 4527, 20000] {
            for kind in [Kind::Zeros, Kind::Random, Kind::Samples, Kind::Repeated] {
                setup_line(out, settings, kind, length)?;
            }
        }
    }
    Ok(())
}

fn refused_setup_lines<W: Write>(out: &mut W) -> io::Result<()> {
    for settings in [
        Shape::new(2, 2, 1, 2).wide(0),
        Shape::new(2, 2, 1, 2).wide(65),
        Shape::new(2, 2, 1, 1).wide(65),
    ] {
        setup_line(out, settings, Kind::Random, 100)?;
    }
    for width in [64, 65] {
        setup_line(out, Shape::new(2, 2, 1, 2).wide(width), Kind::Zeros, 65537)?;
    }
    Ok(())
}

fn ruler_setup_lines<W: Write>(out: &mut W) -> io::Result<()> {
    for length in [6670, 9000] {
        setup_line(out, Shape::new(2, 8, 4, 4096).wide(63), Kind::Ruler, length)?;
    }
    Ok(())
}

fn main(rt: HostRuntime) -> io::Result<()> {
    let mut out = BufWriter::new(rt.alloc(), io::writer(&rt))?;
    hash_lines(&mut out)?;
    tree_lines(&mut out)?;
    refused_lines(&mut out)?;
    ruler_lines(&mut out)?;
    setup_lines(&mut out)?;
    refused_setup_lines(&mut out)?;
    ruler_setup_lines(&mut out)?;
    openings::lines(&mut out)?;
    ranges::lines(&mut out)?;
    estimates::lines(&mut out)?;
    most::lines(&mut out)?;
    out.flush()
}
