// One action's branches, as the very stretch of the lent table.
ghost use Rattle.std.specs.Prelude.{◌≡◌, ◌+◌, ◌*◌, length};
ghost use Rattle.model.specs.Branches.{stretch_of, within};

use std::ops::Range;

// Where the branches of an action stand in a table of this length, by the starts that are lent.
#[tactic(auto, unfolding(crate::specs::Branches::stretch_of, crate::specs::Branches::rises))]
fn stretch_of(length: usize, branch_starts: &[u32], action: u32) -> Range<usize>
    ensures { result ≡ stretch_of length branch_starts.now action }
{
    let at = action as usize;
    match (branch_starts.get(at), branch_starts.get(at + 1)) {
        (Some(from), Some(to)) if from < to && *to as usize <= length =>
            *from as usize..*to as usize,
        _ => 0..0,
    }
}

// The entries of a table that belong to an action by its two starts. Where there is no such action, or its two starts do not
// rise within the table, the empty stretch at its beginning. Document 01 asks for this very part of the caller's table.
pub fn branches<'a>(table: &'a [u32], branch_starts: &[u32], action: u32) -> &'a [u32]
    ensures entries { let x = stretch_of (length table.now) branch_starts.now action in
        result.now ≡ within table.now x }
    ensures place { let x = stretch_of (length table.now) branch_starts.now action in
        result.ref_ptr ≡ (table.entry.ref_ptr.0, x.start * 4 + table.entry.ref_ptr.1) }
{
    &table[stretch_of(table.len(), branch_starts, action)]
}
