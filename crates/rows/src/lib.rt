// Rows counted: refusals 6 to 11, over tables 1 to 5 whose lengths are right.
#![tactic(auto)]

ghost use Rattle.std.specs.Prelude.{◌≡◌, ◌<◌, ◌^◌, length};
ghost use Rattle.model.specs.Answers.{code, pass, tested, tried};
ghost use Rattle.model.specs.Tables.{model_in, actions};
ghost use Rattle.model.specs.Refusals.{start_rises, start_ends, start_right, starts_test, marks_test, action_test, walk_test, row_tests};
ghost use Rattle.rows.specs.Fitting.{Fitting, Walkable};

use model::{Fault, Model, Refusal};

// The first start is 0, and any other is above the one before it.
fn start_rises(starts: &[u32], i: usize) -> bool
    requires { i < length starts.now }
    ensures { result ≡ start_rises starts.now i }
{
    if i == 0 {
        starts[0] == 0
    } else {
        starts[i - 1] < starts[i]
    }
}

// The last start is the end.
fn start_ends(starts: &[u32], end: usize, i: usize) -> bool
    requires { i < length starts.now }
    ensures { result ≡ start_ends starts.now end i }
{
    i + 1 != starts.len() || starts[i] as usize == end
}

// The first start is 0, any other is above the one before it, and the last is the end.
#[tactic(auto, unfolding(model::specs::Refusals::start_right))]
fn start_right(starts: &[u32], end: usize, i: usize) -> bool
    requires { i < length starts.now }
    ensures { result ≡ start_right starts.now end i }
{
    start_rises(starts, i) && start_ends(starts, end, i)
}

// 6 and 7: the starts begin at 0, rise strictly and end at the end. A start is judged by its place, with the one before it.
fn starts_test(refusal: Refusal, starts: &[u32], end: usize) -> Result<(), Fault>
    requires { length starts.now < 2 ^ 32 }
    ensures { tested result ≡ starts_test (code refusal) starts.now end }
{
    refusal.where_found((0..starts.len()).find(|i| !start_right(starts, end, *i)))
}

// 8: a target mark is 0 or 1.
fn marks_test(marks: &[u8]) -> Result<(), Fault>
    requires { length marks.now < 2 ^ 32 }
    ensures { tested result ≡ marks_test marks.now }
{
    Refusal::Mark.where_found(marks.iter().position(|mark| 1 < *mark))
}

// 9 to 11: each destination of action a is a state, each weight is 1 to D, and the weights add up to D.
fn action_test(t: &Model, a: usize) -> Result<(), Fault>
    requires walkable { Walkable (model_in t.now) }
    requires inside { a < actions (model_in t.now) }
    ensures { tested result ≡ action_test (model_in t.now) a }
{
    let mut total: u64 = 0;
    for j in t.branch_starts[a] as usize..t.branch_starts[a + 1] as usize {
        let weight = t.weights[j];
        Refusal::Destination.unless((t.destinations[j] as usize) < t.marks.len(), j as u32)?;
        Refusal::Weight.unless(1 <= weight && weight <= t.d, j as u32)?;
        total += weight as u64;
    }
    Refusal::Total.unless(total == t.d as u64, a as u32)
}

// 9 to 11 as one walk over the actions in order.
fn walk_test(t: &Model) -> Result<(), Fault>
    requires { Walkable (model_in t.now) }
    ensures { tested result ≡ walk_test (model_in t.now) }
{
    for a in 0..t.branch_starts.len() - 1 {
        action_test(t, a)?;
    }
    Ok(())
}

// Refusals 6 to 11, in number order; accepted where none stands.
#[tactic(auto, using(model::proofs::Searched::in_order), unfolding(model::specs::Refusals::row_tests))]
pub fn count(t: &Model) -> Result<(), Fault>
    requires { Fitting (model_in t.now) }
    ensures { tested result ≡ tried (row_tests (model_in t.now)) pass }
{
    starts_test(
        Refusal::ActionStarts,
        t.action_starts,
        t.branch_starts.len() - 1,
    )?;
    starts_test(Refusal::BranchStarts, t.branch_starts, t.destinations.len())?;
    marks_test(t.marks)?;
    walk_test(t)
}
