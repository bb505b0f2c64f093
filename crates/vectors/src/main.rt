// Reads many files from standard input, each after its length in four bytes, and prints for each what certcheck prints.
#![tactic(auto)]

use program::Room;
use std::io;
use std::io::Write;

fn main(rt: HostRuntime) -> io::Result<()> {
    let mut output = rt.stdout();
    let mut room = [0u8; Room::BYTES + 1];
    let mut text = [0u8; Room::TEXT];
    stream::each(&mut rt.stdin(), &mut room, |file| {
        let k = program::answer(file, &mut text);
        output.write_all(&text[..k])
    })
}
