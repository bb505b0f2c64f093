// Refusals 2 to 5: the scales, the number of states and the lengths of the tables.
#![tactic(auto, using(crate::proofs::Chain::in_turn))]

ghost use Rattle.std.specs.Prelude.{◌≡◌, ◌<◌, ◌^◌, ◌+◌};
ghost use Rattle.model.specs.Limits.{most_weight_scale, most_states, most_actions};
ghost use Rattle.model.specs.Answers.{pass, tested, tried};
ghost use Rattle.model.specs.Refusals.{between, claim_scale_right, model_lengths, claim_lengths, sizes_of};

use model::{Claim, Fault, Kind, Lengths, Model, Refusal, Weight};

// D is in its range.
fn weight_scale_right(d: u32) -> bool
    ensures { result ≡ between 1 most_weight_scale d }
{
    (1..=Weight::MOST_SCALE).contains(&d)
}

// C is in the range of its kind.
fn claim_scale_right(kind: Kind, c: u32) -> bool
    ensures { result ≡ claim_scale_right kind c }
{
    if kind.measure.is_cost() {
        c == Claim::COST_SCALE
    } else {
        (1..=Claim::MOST_SCALE).contains(&c)
    }
}

// There are as many states as may be.
fn states_right(n: usize) -> bool
    ensures { result ≡ between 1 most_states n }
{
    (1..=Model::MOST_STATES as usize).contains(&n)
}

// There are as many branch starts as may be: one behind each action.
fn branch_starts_right(starts: usize) -> bool
    ensures { result ≡ between 2 (most_actions + 1) starts }
{
    (2..=Model::MOST_ACTIONS as usize + 1).contains(&starts)
}

// 5 at the first of tables 2 to 5 whose length is wrong.
fn model_lengths(l: Lengths) -> Result<(), Fault>
    requires { l.marks < 2 ^ 63 }
    ensures { tested result ≡ tried (model_lengths l) pass }
{
    Refusal::Length.unless(l.action_starts == l.marks + 1, 2)?;
    Refusal::Length.unless(branch_starts_right(l.branch_starts), 3)?;
    Refusal::Length.unless(l.destinations <= Model::MOST_BRANCHES as usize, 4)?;
    Refusal::Length.unless(l.weights == l.destinations, 5)
}

// The same of tables 6 to 9, by the kind.
fn claim_lengths(kind: Kind, l: Lengths) -> Result<(), Fault>
    ensures { tested result ≡ tried (claim_lengths kind l) pass }
{
    let n = l.marks;
    Refusal::Length.unless(l.costs == model::entries_of(kind.costs, n), 6)?;
    Refusal::Length.unless(l.claims == n, 7)?;
    Refusal::Length.unless(l.ranks == model::entries_of(kind.ranks, n), 8)?;
    Refusal::Length.unless(l.choices == model::entries_of(kind.choices, n), 9)
}

// Refusals 2 to 5, in number order; none where nothing stands against it.
pub(crate) fn sizes(kind: Kind, d: u32, c: u32, l: Lengths) -> Result<(), Fault>
    requires { l.marks < 2 ^ 63 }
    ensures { tested result ≡ tried (sizes_of kind d c l) pass }
{
    Refusal::WeightScale.unless(weight_scale_right(d), 0)?;
    Refusal::ClaimScale.unless(claim_scale_right(kind, c), 0)?;
    Refusal::States.unless(states_right(l.marks), 0)?;
    model_lengths(l)?;
    claim_lengths(kind, l)
}
