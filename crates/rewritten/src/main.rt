// Reads many files from standard input, each after its length in four bytes, writes what each holds, and prints whether the bytes are
// the file's.
#![tactic(auto)]

ghost use Rattle.std.specs.Prelude.{◌+◌, ◌≤◌, ◌<◌, ◌^◌, length, IfOk};

use model::{Fault, Refusal};
use program::Room;
use report::Longest;
use std::io;
use std::io::Write;
use wire::Word;

// Each of these puts a line at the beginning of the text, and answers its length: a word and a number.
fn counted(word: &[u8], n: u32, text: &mut [u8]) -> usize
    requires { length word.now + 12 ≤ length text.old }
    ensures { result ≤ length text.new }
{
    let name = wire::spell(text, 0, word);
    let at = report::spaced(text, name, n);
    b'\n'.put(text, at)
}

// Whether the bytes that were written are the file's.
fn compared(file: &[u8], written: &[u8], text: &mut [u8]) -> usize
    requires { (length written.now < 2 ^ 32) × (64 ≤ length text.old) }
    ensures { result ≤ length text.new }
{
    let bytes = written.len() as u32;
    if check::same(file, written) {
        return counted(b"same", bytes, text);
    }
    counted(b"differs", bytes, text)
}

// Reads a file into the check program's room, and writes what it holds there, each table cut as the header counts it.
fn rewrite(file: &[u8], buffer: &mut [u8]) -> Result<usize, Fault>
    ensures { IfOk result (λ n. n ≤ length buffer.new) }
{
    let mut room = Room::new();
    let mut tables = room.lend();
    let h = certfile::read(file, &mut tables)?;
    writer::write(h.kind, &tables.model(h), &tables.claim(h), buffer)
}

// Writes the file anew and tells whether it is the same. Whether it fits is asked before any room is made for it.
fn told(file: &[u8], text: &mut [u8]) -> Result<usize, Fault>
    requires { 64 ≤ length text.old }
    ensures { IfOk result (λ n. n ≤ length text.new) }
{
    Refusal::Counts.unless(file.len() <= Room::BYTES, 0)?;
    let mut buffer = [0u8; Room::BYTES];
    let bytes = rewrite(file, &mut buffer)?;
    Ok(compared(file, &buffer[..bytes], text))
}

// What came of writing the file anew.
fn rewritten(file: &[u8], text: &mut [u8]) -> usize
    requires { 64 ≤ length text.old }
    ensures { result ≤ length text.new }
{
    match told(file, text) {
        Ok(bytes) => bytes,
        Err(fault) => program::refused(fault.refusal.number(), fault.place, text),
    }
}

fn main(rt: HostRuntime) -> io::Result<()> {
    let mut output = rt.stdout();
    let mut room = [0u8; Room::BYTES + 1];
    let mut text = [0u8; Longest::VERDICT];
    stream::each(&mut rt.stdin(), &mut room, |file| {
        let k = rewritten(file, &mut text);
        output.write_all(&text[..k])
    })
}
