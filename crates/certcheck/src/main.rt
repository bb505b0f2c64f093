// Reads one certificate file from standard input, and prints what comes of it.
#![tactic(auto)]

use program::Room;
use std::io;
use std::io::Write;

fn main(rt: HostRuntime) -> io::Result<()> {
    let mut file = [0u8; Room::BYTES + 1];
    let n = stream::fill(&mut rt.stdin(), &mut file)?;
    let mut text = [0u8; Room::TEXT];
    let k = program::answer(&file[..n], &mut text);
    rt.stdout().write_all(&text[..k])
}
