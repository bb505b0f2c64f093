// Big-endian words of a file, and runs of them.
#![tactic(auto)]

ghost use Rattle.std.specs.Prelude.{◌≡◌, ℕ, ◌+◌, ◌*◌, ◌≤◌, List, length, [], ◌∷◌, ◌++◌, map, refl};
ghost use Rattle.walk.specs.Put.{Put};
ghost use Rattle.wire.specs.Words.{word, bytes};
ghost use Rattle.wire.specs.Blocks.{block_of, numbers};
ghost use Rattle.wire.specs.Sections.{spelled};
ghost use Rattle.wire.specs.Word.{each_itself, spelled_none, spelled_cons, bytes_length};

// The bytes that a number takes: a byte, a word or a long word.
#[derive(Clone, Copy)]
pub struct Width {}

impl Width {
    pub const BYTE: usize = 1;

    pub const WORD: usize = 4;

    pub const LONG: usize = 8;
}

// A number that stands in a file: a byte, a word or a long word.
pub trait Word: Copy {
    // The bytes that it takes.
    const BYTES: usize;

    ghost BYTES: { ℕ };

    // Which number it is, and which numbers a table of them holds: at each width these are the item and the table themselves, so a clause
    // reads there as if it had no bound.
    ghost number: { Self → ℕ };

    ghost table: { List Self → List ℕ };

    // The bytes of one, and of a table.
    ghost text: { Self → List ℕ };

    ghost texts: { List Self → List ℕ };

    // The number in the bytes from a place on.
    fn read(file: &[u8], at: usize) -> Self
        requires { at + BYTES ≤ length file.now }
        ensures { number result ≡ word BYTES file.now at };

    // Puts its bytes into a file from a place on, and answers the next place. File and place are no struct: `Put` says of any place
    // what the file is afterwards, and few puts follow each other.
    fn put(self, file: &mut [u8], at: usize) -> usize
        requires { at + BYTES ≤ length file.old }
        ensures { Put file.old file.new at result (text self) };

    // The numbers of a table are those of its items, and its bytes are theirs.
    ghost each_number: { (xs : List Self) → table xs ≡ map number xs };

    ghost no_bytes: { texts [] ≡ [] };

    ghost more_bytes: { (x : Self) (xs : List Self) → texts (x ∷ xs) ≡ text x ++ texts xs };

    ghost counted: { (x : Self) → length (text x) ≡ BYTES };
}

// Puts bytes into a file as they lie, from a place on, and answers the next place.
fn copy(file: &mut [u8], at: usize, bytes: &[u8]) -> usize
    requires { at + length bytes.now ≤ length file.old }
    ensures { Put file.old file.new at result bytes.now }
{
    let end = at + bytes.len();
    file[at..end].copy_from_slice(bytes);
    end
}

impl Word for u8 {
    const BYTES: usize = Width::BYTE;

    ghost BYTES = { 1 };

    ghost number = { λ x. x };

    ghost table = { λ xs. xs };

    ghost text = { λ x. x ∷ [] };

    ghost texts = { λ xs. xs };

    ghost each_number = { each_itself };

    ghost no_bytes = { refl };

    ghost more_bytes = { λ x xs. refl };

    ghost counted = { λ x. refl };

    fn read(file: &[u8], at: usize) -> u8 {
        file[at]
    }

    fn put(self, file: &mut [u8], at: usize) -> usize {
        file[at] = self;
        at + Width::BYTE
    }
}

impl Word for u32 {
    const BYTES: usize = Width::WORD;

    ghost BYTES = { 4 };

    ghost number = { λ x. x };

    ghost table = { λ xs. xs };

    ghost text = { bytes 4 };

    ghost texts = { spelled 4 };

    ghost each_number = { each_itself };

    ghost no_bytes = { spelled_none 4 };

    ghost more_bytes = { spelled_cons 4 };

    ghost counted = { bytes_length 4 };

    fn read(file: &[u8], at: usize) -> u32 {
        u32::from_be_bytes([file[at], file[at + 1], file[at + 2], file[at + 3]])
    }

    fn put(self, file: &mut [u8], at: usize) -> usize {
        copy(file, at, &u32::to_be_bytes(self))
    }
}

impl Word for u64 {
    const BYTES: usize = Width::LONG;

    ghost BYTES = { 8 };

    ghost number = { λ x. x };

    ghost table = { λ xs. xs };

    ghost text = { bytes 8 };

    ghost texts = { spelled 8 };

    ghost each_number = { each_itself };

    ghost no_bytes = { spelled_none 8 };

    ghost more_bytes = { spelled_cons 8 };

    ghost counted = { bytes_length 8 };

    fn read(file: &[u8], at: usize) -> u64 {
        u64::from_be_bytes([
            file[at],
            file[at + 1],
            file[at + 2],
            file[at + 3],
            file[at + 4],
            file[at + 5],
            file[at + 6],
            file[at + 7],
        ])
    }

    fn put(self, file: &mut [u8], at: usize) -> usize {
        copy(file, at, &u64::to_be_bytes(self))
    }
}

// Overwrites a table by the numbers from a place of the file on.
pub fn fill<W: Word>(file: &[u8], at: usize, table: &mut [W])
    requires { at + length table.old * W.BYTES ≤ length file.now }
    ensures { W.table table.new ≡ numbers (block_of W.BYTES (length table.old)) file.now at }
{
    for (i, entry) in table.iter_mut().enumerate() {
        *entry = W::read(file, at + i * W::BYTES);
    }
}

// Puts the numbers of a table into a file, one after the other, and answers the next place. File and place are as in `put`.
pub fn spell<W: Word>(file: &mut [u8], at: usize, table: &[W]) -> usize
    requires { at + W.BYTES * length table.now ≤ length file.old }
    ensures { Put file.old file.new at result (W.texts table.now) }
{
    let mut end = at;
    for x in table {
        end = x.put(file, end);
    }
    end
}
