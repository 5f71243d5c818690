// Reads the files sender.bin and receiver.bin, at most 16,384 bytes of each, runs a session between them and
// writes the string that the receiver hands over, or nothing if it is refused. The settings w=2, p=2, L=1, M=2, q=64 are built in.
#![tactic(auto)]

use anyhow::{Context, Result};
use state::Progress;
use std::fs::File;
use std::io;
use std::io::{Read, Write};
use tree::Settings;

const SETTINGS: Settings = Settings {
    window: 2,
    fan_out: 2,
    levels: 1,
    nominal: 2,
    width: 64,
};

// Runs session 1 from one string to a receiver that holds another, and answers the string that the receiver hands over, unless it is
// refused. The output has room for the string, and the sender's buffer for each of its replies: the longest, a literal of 16,384 bytes, has
// fewer than 6,000 words.
fn hand_over<'a>(string: &[u8], own: &[u8], output: &'a mut [u8]) -> Option<&'a [u8]> {
    let mut nodes = [0u8; 65536];
    let mut shingles = [0u8; 98304];
    let mut cells = [0u8; 7680];
    let mut own_nodes = [0u8; 65536];
    let mut own_shingles = [0u8; 98304];
    let mut own_cells = [0u8; 7680];
    let mut buffer = [0u8; 24000];
    let Ok(Progress::HandedOver(size)) = session::run(
        SETTINGS,
        1,
        string,
        &mut nodes,
        &mut shingles,
        &mut cells,
        own,
        &mut own_nodes,
        &mut own_shingles,
        &mut own_cells,
        &mut buffer,
        output,
    ) else {
        return None;
    };
    output.get(..size)
}

// The first 16,384 bytes of a file. An error names the file.
fn read_file(rt: &HostRuntime, name: &str) -> Result<Vec<u8>> {
    let mut bytes = Vec::new(rt.alloc());
    let file = File::open(rt, name).context(name)?;
    file.take(16384).read_to_end(&mut bytes).context(name)?;
    Ok(bytes)
}

// Writes what is handed over.
fn synchronise<W: Write>(out: &mut W, string: &[u8], own: &[u8]) -> io::Result<()> {
    let mut output = [0u8; 16384];
    if let Some(bytes) = hand_over(string, own, &mut output) {
        out.write_all(bytes)?;
        out.flush()?;
    }
    Ok(())
}

fn main(rt: HostRuntime) -> Result<()> {
    let string = read_file(&rt, "sender.bin")?;
    let own = read_file(&rt, "receiver.bin")?;
    synchronise(&mut rt.stdout(), string.as_slice(), own.as_slice())?;
    Ok(())
}
