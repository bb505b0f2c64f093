// The refusals over a file, in their order: 31, 32, 1, 33, 34. Nothing is written here.
ghost use Rattle.std.specs.Prelude.{◌≡◌, ◌≤◌, length};
ghost use Rattle.wire.specs.Blocks.{size};
ghost use Rattle.certfile.specs.File.{header_blocks, length_field_right, version_right, counts_right, outcome_of, announced, roomy};
ghost use Rattle.certfile.specs.Layout.{listed};
ghost use Rattle.certfile.specs.Outcome.{outcome_in};

use crate::{Header, layout};
use model::{Fault, Kind, Lengths, Model, Refusal};
use wire::Width;

// 31: at least a header, and the length field counts the bytes after it.
#[tactic(auto, unfolding(crate::specs::File::length_field_right))]
fn length_field_right(file: &[u8]) -> bool
    ensures { result ≡ length_field_right file.now }
{
    Header::BYTES <= file.len()
        && reader::word::<u32>(file, Header::LENGTH_AT) as usize == file.len() - Width::WORD
}

// 32: the version is the one that is read.
#[tactic(auto, unfolding(crate::specs::File::version_right, wire::specs::Blocks::size))]
fn version_right(file: &[u8]) -> bool
    requires { size header_blocks ≤ length file.now }
    ensures { result ≡ version_right file.now }
{
    reader::word::<u8>(file, Header::VERSION_AT) == Header::VERSION
}

// Each lent table has room for its block.
#[tactic(auto, unfolding(crate::specs::File::announced, crate::specs::File::roomy, wire::specs::Blocks::block))]
fn all_roomy(h: Header, room: Lengths) -> bool
    ensures { result ≡ roomy (announced h) (listed room) }
{
    let count = layout::counts_of(h);
    count.marks <= room.marks
        && count.action_starts <= room.action_starts
        && count.branch_starts <= room.branch_starts
        && count.destinations <= room.destinations
        && count.weights <= room.weights
        && count.costs <= room.costs
        && count.claims <= room.claims
        && count.ranks <= room.ranks
}

// 33: no count over its limit, and no lent table that the kind has too short.
#[tactic(auto, unfolding(crate::specs::File::counts_right))]
fn counts_right(h: Header, room: Lengths) -> bool
    ensures { result ≡ counts_right h (listed room) }
{
    h.n <= Model::MOST_STATES
        && h.m <= Model::MOST_ACTIONS
        && h.b <= Model::MOST_BRANCHES
        && all_roomy(h, room)
}

// What reading the file into tables of these lengths answers.
#[tactic(auto, using(crate::proofs::Judged::judging), unfolding(crate::specs::File::length_right))]
pub fn judge(file: &[u8], room: Lengths) -> Result<Header, Fault>
    ensures { outcome_in result ≡ outcome_of (listed room) file.now }
{
    Refusal::LengthField.unless(length_field_right(file), 0)?;
    Refusal::Version.unless(version_right(file), 0)?;
    let h = layout::header_of(file);
    Kind::try_from(h.kind)?;
    Refusal::Counts.unless(counts_right(h, room), 0)?;
    Refusal::FileLength.unless(file.len() == layout::length_of(h), 0)?;
    Ok(h)
}
