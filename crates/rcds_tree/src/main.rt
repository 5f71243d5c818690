// The tree program: reads at most 16,384 bytes from standard input and prints each node's level, start and length, with the
// settings w=2, p=2, L=1, M=2, q=64 built in.
#![tactic(auto)]

use std::io;
use std::io::{BufWriter, Read, Write};
use tree::Settings;

const SETTINGS: Settings = Settings {
    window: 2,
    fan_out: 2,
    levels: 1,
    nominal: 2,
    width: 64,
};

// Prints the nodes of a table, up to its first id 0.
fn print_nodes<W: Write>(out: &mut W, nodes: &[u8]) -> io::Result<()> {
    for k in 0..4096 {
        if node_table::node_id(nodes, k) == 0 {
            break;
        }
        let level = node_table::node_level(nodes, k);
        let start = node_table::node_start(nodes, k);
        let length = node_table::node_length(nodes, k);
        writeln!(out, "{level} {start} {length}")?;
    }
    Ok(())
}

fn main(rt: HostRuntime) -> io::Result<()> {
    let alloc = rt.alloc();
    let mut string = Vec::new(alloc);
    rt.stdin().take(16384).read_to_end(&mut string)?;
    let mut nodes = [0u8; 65536];
    // A refusal is no error here: the table is then without nodes.
    let _ = tree::cut_string(SETTINGS, string.as_slice(), &mut nodes);
    let mut out = BufWriter::new(alloc, io::writer(&rt))?;
    writeln!(out, "level start length")?;
    print_nodes(&mut out, &nodes)?;
    out.flush()
}
