// The certificate file of document 01, written into a lent buffer.
#![tactic(auto)]

ghost use Rattle.std.specs.Prelude.{◌≡◌, ◌≤◌, ◌<◌, ◌^◌, length};
ghost use Rattle.walk.specs.Put.{Put};
ghost use Rattle.model.specs.Tables.{model_in, claim_in, states, branches};
ghost use Rattle.wire.specs.Sections.{sections_of, written};
ghost use Rattle.certfile.specs.File.{header_blocks};
ghost use Rattle.writer.specs.File.{header_for, heads, written_of, WrittenInto};
ghost use Rattle.writer.specs.Room.{HeadRoom};
ghost use Rattle.writer.specs.Written.{written_in};

use certfile::Header;
use model::{Claim, Fault, Model, Refusal};
use wire::{Width, Word};

// What a file says before its tables.
fn header(kind: u32, t: &Model, u: &Claim) -> Header
    requires { let x = model_in t.now in
        (states x < 2 ^ 32) × ((1 ≤ length x.branch_starts) × ((length x.branch_starts ≤ 2 ^ 32) × (branches x < 2 ^ 32))) }
    ensures { result ≡ header_for kind (model_in t.now) (claim_in u.now) }
{
    Header {
        kind,
        d: t.d,
        c: u.c,
        n: t.marks.len() as u32,
        m: (t.branch_starts.len() - 1) as u32,
        b: t.destinations.len() as u32,
    }
}

// The header of a file of so many bytes.
#[tactic(auto, using(crate::proofs::Laid::heading))]
fn head(file: &mut [u8], h: Header, bytes: usize) -> usize
    requires { HeadRoom h bytes file.old }
    ensures { Put file.old file.new 0 result (written (sections_of header_blocks (heads h))) }
{
    let after = (bytes - Width::WORD) as u32;
    let version = after.put(file, Header::LENGTH_AT);
    let kind = Header::VERSION.put(file, version);
    let rest = (h.kind as u8).put(file, kind);
    let numbers = [h.d, h.c, h.n, h.m, h.b];
    wire::spell(file, rest, &numbers)
}

// What writing the file into a buffer of so many bytes would answer: its length, or the first refusal: 1 to 14 as the checker gives
// them, with the choice list aside, and then 35. Any number is taken for a kind, since one that is none is refused here.
#[tactic(auto, using(crate::proofs::Judged::previewing))]
pub fn preview(kind: u32, t: &Model, u: &Claim, buffer: usize) -> Result<usize, Fault>
    ensures { written_in result ≡ written_of kind (model_in t.now) (claim_in u.now) buffer }
{
    checker::refuse(kind, t, u, model::choice_count(kind, t.marks.len()))?;
    let bytes = certfile::length_of(header(kind, t, u));
    Refusal::Buffer.unless(bytes <= buffer, 0)?;
    Ok(bytes)
}

// Writes the file that the lent tables make into a lent buffer, from its front on, and answers its length; or the first refusal, which
// writes nothing. The kind is any number, as in `preview`.
#[tactic(auto, using(crate::proofs::Judged::writing))]
pub fn write(kind: u32, t: &Model, u: &Claim, buffer: &mut [u8]) -> Result<usize, Fault>
    ensures { WrittenInto (written_in result) kind (model_in t.now) (claim_in u.now) buffer.old buffer.new }
{
    let bytes = preview(kind, t, u, buffer.len())?;
    let at = head(buffer, header(kind, t, u), bytes);
    let at = wire::spell(buffer, at, t.marks);
    let at = wire::spell(buffer, at, t.action_starts);
    let at = wire::spell(buffer, at, t.branch_starts);
    let at = wire::spell(buffer, at, t.destinations);
    let at = wire::spell(buffer, at, t.weights);
    let at = wire::spell(buffer, at, u.costs);
    let at = wire::spell(buffer, at, u.claims);
    wire::spell(buffer, at, u.ranks);
    Ok(bytes)
}
