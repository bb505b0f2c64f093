// The lent bytes of a file and a place in them, kept together: what is read of a file is read through one.
#![tactic(auto)]

ghost use Rattle.std.specs.Prelude.{◌≡◌, ◌+◌, ◌*◌, ◌≤◌, length};
ghost use Rattle.wire.specs.Words.{word};
ghost use Rattle.wire.specs.Blocks.{block_of, numbers, overwritten};

use wire::Word;

#[derive(Clone, Copy)]
pub struct Reader<'a> {
    pub src: &'a [u8],
    pub at: usize,
}

impl<'a> Reader<'a> {
    pub fn new(src: &'a [u8], at: usize) -> Reader<'a>
        ensures { (result.src ≡ src.entry) × (result.at ≡ at) }
    {
        Reader { src, at }
    }

    // The number at its place.
    pub fn word<W: Word>(self) -> W
        requires { self.at + W.BYTES ≤ length self.src.now }
        ensures { W.number result ≡ word W.BYTES self.entry.src.now self.entry.at }
    {
        W::read(self.src, self.at)
    }

    // A table becomes the numbers from its place on.
    pub fn fill<W: Word>(self, table: &mut [W])
        requires { self.at + length table.old * W.BYTES ≤ length self.src.now }
        ensures { W.table table.new ≡ numbers (block_of W.BYTES (length table.old)) self.entry.src.now self.entry.at }
    {
        wire::fill(self.src, self.at, table)
    }
}

// The same at a place of a file: few thin functions with plain parameters, as document 01 asks. The number of entries stands beside
// the table, since what is promised is that the rest of the table stays.
pub fn word<W: Word>(file: &[u8], at: usize) -> W
    requires { at + W.BYTES ≤ length file.now }
    ensures { W.number result ≡ word W.BYTES file.now at }
{
    Reader::new(file, at).word()
}

pub fn fill<W: Word>(file: &[u8], at: usize, table: &mut [W], count: usize)
    requires { (at + count * W.BYTES ≤ length file.now) × (count ≤ length table.old) }
    ensures { W.table table.new ≡ overwritten (block_of W.BYTES count) file.now at (W.table table.old) }
{
    Reader::new(file, at).fill(&mut table[..count])
}
