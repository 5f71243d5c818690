// Ranges over three small trees: each node with its parent and place, and the nodes that a range crosses.
use crate::YES;
use crate::settings::Shape;
use crate::strings::Kind;
use std::io;
use std::io::Write;

// Each range's start and size, and how many pairs its table has room for.
const RANGES: [(u64, u64, usize); 11] = [
    (0, 0, 0),
    (0, 1, 64),
    (2, 2, 64),
    (3, 2, 64),
    (0, 8, 4),
    (0, 8, 3),
    (8, 0, 0),
    (26, 1, 5),
    (26, 2, 64),
    (0, 27, 64),
    (u64::MAX, 2, 64),
];

// A line for each entry before the first id 0: level, start, length, parent and place.
fn node_lines<W: Write>(out: &mut W, nodes: &[u8]) -> io::Result<()> {
    for k in 0..nodes.len() / 16 {
        if node_table::node_id(nodes, k) == 0 {
            break;
        }
        writeln!(
            out,
            "node {} {} {} {} {}",
            node_table::node_level(nodes, k),
            node_table::node_start(nodes, k),
            node_table::node_length(nodes, k),
            node_table::node_parent(nodes, k),
            node_table::node_place(nodes, k)
        )?;
    }
    Ok(())
}

// A line with the range, how many pairs the table has room for, the call's answer, and the pairs, each of two rows.
fn crossed_line<W: Write>(
    out: &mut W,
    string: &[u8],
    nodes: &[u8],
    start: u64,
    size: u64,
    crossed: &mut [u8],
) -> io::Result<()> {
    let room = crossed.len() / 16;
    let answer = rcds::rcds_crossed(string, nodes, start, size, crossed);
    write!(out, "crossed {start} {size} {room} {answer}")?;
    if YES <= answer {
        for k in 0..answer % YES * 2 {
            write!(out, " {}", rows::load(crossed, k as usize))?;
        }
    }
    writeln!(out)
}

// The nodes of the string's tree, and its ranges.
fn tree_lines<W: Write>(
    out: &mut W,
    shape: Shape,
    kind: Kind,
    string: &mut [u8],
) -> io::Result<()> {
    kind.fill(string);
    let mut nodes = [170u8; 65536];
    shape.cut(string, &mut nodes);
    node_lines(out, &nodes)?;
    for (start, size, room) in RANGES {
        let mut crossed = [170u8; 1024];
        let end = room.min(64) * 16;
        crossed_line(out, string, &nodes, start, size, &mut crossed[..end])?;
    }
    Ok(())
}

pub fn lines<W: Write>(out: &mut W) -> io::Result<()> {
    tree_lines(out, Shape::new(2, 2, 1, 2), Kind::Ruler, &mut [0; 8])?;
    tree_lines(out, Shape::new(2, 2, 4, 16), Kind::Random, &mut [0; 27])?;
    tree_lines(out, Shape::new(2, 2, 4, 16), Kind::Zeros, &mut [])
}
