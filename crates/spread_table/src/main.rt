// Prints the numbers that bytes are replaced by, in decimal, one a line from entry 0.
#![tactic(auto)]

use std::io;
use std::io::{BufWriter, Write};

fn main(rt: HostRuntime) -> io::Result<()> {
    let mut out = BufWriter::new(rt.alloc(), io::writer(&rt))?;
    for entry in spread::table() {
        writeln!(out, "{entry}")?;
    }
    out.flush()
}
