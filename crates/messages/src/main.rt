// Writes messages of every type and reads them again, and prints what comes out. The stored output is what tests/reference,
// written from the documents alone, prints; its program reference-messages says the format. Then it reads messages from
// standard input, each behind its length in four bytes, and prints what it finds in each; tests/conformance sends them.
#![tactic(auto)]

mod show;

use message_writer::{
    write_composition, write_literal, write_node_query, write_none, write_opening,
    write_opening_query,
};
use std::io;
use std::io::{BufWriter, Read, Write};

// An id with all digits.
const ID: u64 = 81985529216486895;

// Fills the bytes with a pattern: byte i is 37 times i plus 11, modulo 256.
fn pattern(bytes: &mut [u8]) {
    for (i, byte) in bytes.iter_mut().enumerate() {
        *byte = ((i % 256 * 37 + 11) % 256) as u8;
    }
}

fn queries<W: Write>(out: &mut W) -> io::Result<()> {
    let mut buffer = [170u8; 32];
    for session in [5, 16777215, 16777221] {
        let answer = write_opening_query(&mut buffer, session);
        show::written(out, answer, &buffer)?;
    }
    for (session, level, id) in [(5, 3, ID), (0, 268435455, u64::MAX)] {
        let answer = write_node_query(&mut buffer, session, level, id);
        show::written(out, answer, &buffer)?;
    }
    let answer = write_none(&mut buffer, 1, 0, 0);
    show::written(out, answer, &buffer)
}

// Buffers that lack a byte.
fn short_queries<W: Write>(out: &mut W) -> io::Result<()> {
    let mut short = [170u8; 7];
    let answer = write_opening_query(&mut short, 5);
    show::written(out, answer, &short)?;
    let mut nearly = [170u8; 23];
    let answer = write_node_query(&mut nearly, 5, 3, 1);
    show::written(out, answer, &nearly)?;
    let answer = write_none(&mut nearly, 5, 3, 1);
    show::written(out, answer, &nearly)
}

// Literals of the pattern's bytes.
fn literals<W: Write>(out: &mut W) -> io::Result<()> {
    let mut buffer = [170u8; 160];
    let mut text = [0u8; 103];
    pattern(&mut text);
    for (level, size) in [(0, 0), (1, 1), (2, 2), (3, 3), (4, 100), (4, 103)] {
        let end = text.len().min(size);
        let answer = write_literal(&mut buffer, 9, level, ID, &text[..end]);
        show::written(out, answer, &buffer)?;
    }
    Ok(())
}

fn composition<W: Write>(
    out: &mut W,
    trail: Option<u64>,
    indexes: &[u64],
    counts: &[u64],
    buffer: &mut [u8],
) -> io::Result<()> {
    let answer = write_composition(buffer, 16777215, 3, u64::MAX, trail, indexes, counts);
    show::written(out, answer, buffer)
}

// Compositions with a number or without: of one reference, of five that rise, of five that fall, of none, of an index twice, and of ten.
fn short_compositions<W: Write>(out: &mut W, numbered: bool, buffer: &mut [u8]) -> io::Result<()> {
    let stated = |number| if numbered { Some(number) } else { None };
    composition(out, stated(0), &[0], &[1], buffer)?;
    composition(
        out,
        stated(4095),
        &[0, 1, 7, 12, 4095],
        &[1, 31, 2, 3, 32],
        buffer,
    )?;
    composition(
        out,
        stated(4095),
        &[4095, 0, 7, 12, 1],
        &[32, 1, 2, 3, 31],
        buffer,
    )?;
    composition(out, stated(4096), &[], &[], buffer)?;
    composition(out, stated(1), &[3, 3], &[1, 1], buffer)?;
    composition(
        out,
        stated(1),
        &[1, 2, 3, 4, 5, 6, 7, 8, 9, 10],
        &[1; 10],
        buffer,
    )
}

// Ten references and a number do not fit the buffer; without the number ten fit, and eleven do not.
fn compositions<W: Write>(out: &mut W) -> io::Result<()> {
    let mut buffer = [170u8; 64];
    short_compositions(out, true, &mut buffer)?;
    short_compositions(out, false, &mut buffer)?;
    composition(
        out,
        None,
        &[1, 2, 3, 4, 5, 6, 7, 8, 9, 10, 11],
        &[1; 11],
        &mut buffer,
    )
}

// An opening of a cell table that holds the pattern.
fn opening<W: Write>(out: &mut W, q: u64, cells: &mut [u8], buffer: &mut [u8]) -> io::Result<()> {
    pattern(cells);
    let answer = write_opening(
        buffer,
        7,
        partition::RULE_NUMBER,
        12,
        8,
        4,
        65536,
        q,
        65536,
        12638187200555641996,
        cells,
    );
    show::written(out, answer, buffer)
}

fn openings<W: Write>(out: &mut W) -> io::Result<()> {
    let mut buffer = [170u8; 16384];
    opening(out, 1, &mut [0; 120], &mut buffer)?;
    opening(out, 64, &mut [0; 7680], &mut buffer)?;
    opening(out, 1, &mut [0; 120], &mut [170; 200])
}

// Reads until the buffer is full or the input ends, and answers how many bytes were read.
fn read_full<R: Read>(input: &mut R, buffer: &mut [u8]) -> io::Result<usize> {
    let mut done = 0;
    for _ in 0..u64::MAX {
        if buffer.len() <= done {
            break;
        }
        let n = input.read(&mut buffer[done..])?;
        if n == 0 {
            break;
        }
        done += n;
    }
    Ok(done)
}

// The length of the next message, if there is one.
fn next_length<R: Read>(input: &mut R) -> io::Result<Option<usize>> {
    let mut head = [0u8; 4];
    let size = read_full(input, &mut head)?;
    Ok(if size < head.len() {
        None
    } else {
        Some(u32::from_be_bytes(head) as usize)
    })
}

// Reads messages of at most 65,536 bytes, at most a million, until there are no more. What is found in one is written out
// before the next is read.
fn arriving<R: Read, W: Write>(input: &mut R, out: &mut W) -> io::Result<()> {
    let mut buffer = [0u8; 65536];
    for _ in 0..1000000 {
        let Some(size) = next_length(input)? else {
            break;
        };
        if buffer.len() < size {
            break;
        }
        read_full(input, &mut buffer[..size])?;
        show::found(out, &buffer[..size])?;
        out.flush()?;
    }
    Ok(())
}

fn main(rt: HostRuntime) -> io::Result<()> {
    let mut out = BufWriter::new(rt.alloc(), io::writer(&rt))?;
    queries(&mut out)?;
    short_queries(&mut out)?;
    literals(&mut out)?;
    compositions(&mut out)?;
    openings(&mut out)?;
    out.flush()?;
    arriving(&mut rt.stdin(), &mut out)
}
