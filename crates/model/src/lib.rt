// What document 01 speaks of: tables, limits and the none mark, the eight kinds of claim, the answer, and one action's branches.
#![tactic(auto)]

mod answers;
mod kinds;
mod stretch;
mod tables;

pub use answers::{Answer, Condition, Fault, Refusal, Verdict, Violation};
pub use kinds::{Bound, Kind, Measure, Who, choice_count, entries_of};
pub use stretch::branches;
pub use tables::{Claim, Cost, Lengths, Model, Rank, Weight};
