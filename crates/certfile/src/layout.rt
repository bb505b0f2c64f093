// What a header announces: the entries of each table, and the place of its first.
ghost use Rattle.std.specs.Prelude.{◌≡◌, ◌≤◌, length};
ghost use Rattle.model.specs.Kinds.{kind_of};
ghost use Rattle.wire.specs.Blocks.{size};
ghost use Rattle.certfile.specs.File.{header_blocks, header_of, blocks};
ghost use Rattle.certfile.specs.Layout.{Small, counts_of, places_of};

use crate::Header;
use model::{Kind, Lengths};
use wire::Width;

// The tables that not every kind has, costs and ranks: a number that is no kind has neither.
fn optional_of(kind: u32) -> (bool, bool)
    ensures { (result.0 ≡ (kind_of kind).costs) × (result.1 ≡ (kind_of kind).ranks) }
{
    match Kind::try_from(kind) {
        Ok(k) => (k.costs, k.ranks),
        Err(_) => (false, false),
    }
}

// The entries of each table: a file holds no choice list.
#[tactic(auto, unfolding(crate::specs::File::announced, wire::specs::Blocks::block))]
pub fn counts_of(h: Header) -> Lengths
    ensures counts { result ≡ counts_of h }
    ensures small { Small result }
{
    let n = h.n as usize;
    let m = h.m as usize;
    let b = h.b as usize;
    let (costs, ranks) = optional_of(h.kind);
    Lengths {
        marks: n,
        action_starts: n + 1,
        branch_starts: m + 1,
        destinations: b,
        weights: b,
        costs: model::entries_of(costs, n),
        claims: n,
        ranks: model::entries_of(ranks, n),
        choices: 0,
    }
}

// The place of each table's first entry: for the choice list, the place where the file ends.
#[tactic(auto, unfolding(crate::specs::Layout::table_place, wire::specs::Blocks::block))]
pub fn places_of(h: Header) -> Lengths
    ensures { result ≡ places_of h }
{
    let count = counts_of(h);
    let marks = Header::BYTES;
    let action_starts = marks + count.marks * Width::BYTE;
    let branch_starts = action_starts + count.action_starts * Width::WORD;
    let destinations = branch_starts + count.branch_starts * Width::WORD;
    let weights = destinations + count.destinations * Width::WORD;
    let costs = weights + count.weights * Width::WORD;
    let claims = costs + count.costs * Width::WORD;
    let ranks = claims + count.claims * Width::LONG;
    let choices = ranks + count.ranks * Width::WORD;
    Lengths {
        marks,
        action_starts,
        branch_starts,
        destinations,
        weights,
        costs,
        claims,
        ranks,
        choices,
    }
}

// The bytes of a whole file.
#[tactic(auto, using(crate::proofs::Placed::ends))]
pub fn length_of(h: Header) -> usize
    ensures { result ≡ size (blocks h) }
{
    places_of(h).choices
}

// What the header of a file says.
#[tactic(auto, unfolding(crate::specs::File::header_of, wire::specs::Blocks::size))]
pub fn header_of(file: &[u8]) -> Header
    requires { size header_blocks ≤ length file.now }
    ensures { result ≡ header_of file.now }
{
    Header {
        kind: reader::word::<u8>(file, Header::KIND_AT) as u32,
        d: reader::word(file, Header::D_AT),
        c: reader::word(file, Header::C_AT),
        n: reader::word(file, Header::N_AT),
        m: reader::word(file, Header::M_AT),
        b: reader::word(file, Header::B_AT),
    }
}
