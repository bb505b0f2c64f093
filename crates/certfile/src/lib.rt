// The certificate file of document 01, read into lent tables.
#![tactic(auto)]

mod judge;
mod layout;
mod lent;

ghost use Rattle.std.specs.Prelude.{◌≡◌, IfOk};
ghost use Rattle.certfile.specs.File.{outcome_of};
ghost use Rattle.certfile.specs.Layout.{listed};
ghost use Rattle.certfile.specs.Outcome.{outcome_in};
ghost use Rattle.certfile.specs.Tables.{lent as lent_in, tables_in, ReadInto, Roomy, SameTables};

pub use layout::{counts_of, length_of};
pub use lent::Lent;
use model::{Fault, Lengths};

// What a file says before its tables, in the file's own numbers, the kind's too: so C takes them.
#[derive(Clone, Copy, Debug, PartialEq, Eq)]
pub struct Header {
    pub kind: u32,
    pub d: u32,
    pub c: u32,
    pub n: u32,
    pub m: u32,
    pub b: u32,
}

// Where the parts of the header stand, and the version that is read.
impl Header {
    pub const LENGTH_AT: usize = 0;

    pub const VERSION_AT: usize = 4;

    pub const KIND_AT: usize = 5;

    pub const D_AT: usize = 6;

    pub const C_AT: usize = 10;

    pub const N_AT: usize = 14;

    pub const M_AT: usize = 18;

    pub const B_AT: usize = 22;

    pub const BYTES: usize = 26;

    pub const VERSION: u8 = 1;
}

// What reading a file into tables of these lengths would answer.
pub fn preview(file: &[u8], room: Lengths) -> Result<Header, Fault>
    ensures { outcome_in result ≡ outcome_of (listed room) file.now }
{
    judge::judge(file, room)
}

// Reads a file into lent tables: what it says before them, or the first refusal, which writes nothing.
pub fn read(file: &[u8], lent: &mut Lent) -> Result<Header, Fault>
    ensures read { ReadInto (outcome_in result) file.now (tables_in lent.old) (tables_in lent.new) }
    ensures same { SameTables lent.old lent.new }
    ensures roomy { IfOk result (λ h. Roomy h (lent_in (tables_in lent.new))) }
{
    let h = judge::judge(file, lent.lengths())?;
    let count = layout::counts_of(h);
    let place = layout::places_of(h);
    reader::fill(file, place.marks, lent.marks, count.marks);
    reader::fill(
        file,
        place.action_starts,
        lent.action_starts,
        count.action_starts,
    );
    reader::fill(
        file,
        place.branch_starts,
        lent.branch_starts,
        count.branch_starts,
    );
    reader::fill(
        file,
        place.destinations,
        lent.destinations,
        count.destinations,
    );
    reader::fill(file, place.weights, lent.weights, count.weights);
    reader::fill(file, place.costs, lent.costs, count.costs);
    reader::fill(file, place.claims, lent.claims, count.claims);
    reader::fill(file, place.ranks, lent.ranks, count.ranks);
    Ok(h)
}
