// Prints what a writer answered and left, and what the reader finds in it.
use message::Message;
use message::reader::{cell_value, copy_bytes, message_type, read, reference_at};
use refusal::Refusal;
use std::io;
use std::io::Write;

// The values of an opening's 3q cells, five each, in one number: twice the last and one value more, modulo 2^64, from 0 on. An opening has
// at most 64 of these q.
fn cell_sum(message: &[u8], at: usize, q: u64) -> u64 {
    (0..q.min(64) as usize * 15).fold(0u64, |sum, k| {
        sum.wrapping_mul(2).wrapping_add(cell_value(message, at, k))
    })
}

fn print_references<W: Write>(
    out: &mut W,
    message: &[u8],
    at: usize,
    count: usize,
) -> io::Result<()> {
    write!(out, " {count}")?;
    for k in 0..count {
        let reference = reference_at(message, at, k);
        write!(out, " {} {}", reference.index, reference.count)?;
    }
    Ok(())
}

// How many bytes a literal has, at most 128, and FNV-1a of 128 bytes that were 170 before the literal was copied to their front.
fn print_bytes<W: Write>(out: &mut W, message: &[u8], at: usize, count: usize) -> io::Result<()> {
    let mut bytes = [170u8; 128];
    copy_bytes(message, at, count, &mut bytes);
    write!(out, " {count} {}", fnv::hash(&bytes))
}

// What the message says, type by type. A composition's trail number has a 1 before it; where it is omitted, both are 0.
fn print_message<W: Write>(out: &mut W, message: &[u8]) -> io::Result<()> {
    let Some(read) = read(message) else {
        return Ok(());
    };
    match read {
        Message::OpeningQuery { session } => write!(out, " {session}"),
        Message::NodeQuery { session, level, id } | Message::NoNode { session, level, id } => {
            write!(out, " {session} {level} {id}")
        }
        Message::Opening {
            session,
            rule,
            w,
            p,
            levels,
            m,
            q,
            length,
            root,
            at,
        } => {
            write!(out, " {session} {rule} {w} {p} {levels} {m}")?;
            write!(out, " {q} {length} {root} {}", cell_sum(message, at, q))
        }
        Message::Composition {
            session,
            level,
            id,
            trail,
            at,
            count,
        } => {
            write!(out, " {session} {level} {id}")?;
            match trail {
                Some(number) => write!(out, " 1 {number}")?,
                None => write!(out, " 0 0")?,
            }
            print_references(out, message, at, count)
        }
        Message::Literal {
            session,
            level,
            id,
            at,
            count,
        } => {
            write!(out, " {session} {level} {id}")?;
            print_bytes(out, message, at, count)
        }
    }
}

// A line with the type of the message, as the reader answers it, and what the reader finds.
pub fn found<W: Write>(out: &mut W, message: &[u8]) -> io::Result<()> {
    write!(out, "read {}", refusal::answer(message_type(message)))?;
    print_message(out, message)?;
    writeln!(out)
}

// A line with the writer's answer and FNV-1a of the whole buffer; then, if a message was written, what is found in it.
pub fn written<W: Write>(
    out: &mut W,
    answer: Result<usize, Refusal>,
    buffer: &[u8],
) -> io::Result<()> {
    writeln!(
        out,
        "write {} {}",
        refusal::answer(answer),
        fnv::hash(buffer)
    )?;
    match answer {
        Ok(size) => found(out, &buffer[..buffer.len().min(size)]),
        Err(_) => Ok(()),
    }
}
