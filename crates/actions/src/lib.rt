// One action judged by its branches, and the lowest action of a state that keeps what is asked, or does not.
#![tactic(auto)]

ghost use Rattle.std.specs.Prelude.{◌≡◌, ◌<◌, true, length};
ghost use Rattle.model.specs.Kinds.{is_at_least};
ghost use Rattle.model.specs.Tables.{model_in, claim_in};
ghost use Rattle.model.specs.Conditions.{weighted_over, suits_by};
ghost use Rattle.actions.specs.Ready.{Weighable, Standing, Walkable};
ghost use Rattle.actions.specs.Judging.{least_of, rows_in, kept, suits_in, falls_in, lowest_of, below};

use model::{Claim, Kind, Model, Rank};
use std::ops::Range;

// The numbers of a state: its own, its mark, its actions from the first up to, not with, the end, what their weights add up to,
// its claim, its cost (0 if the claim has no costs) and its rank (0 if it has no ranks).
#[derive(Clone, Copy)]
pub struct State {
    pub place: u32,
    pub mark: u8,
    pub first: u32,
    pub end: u32,
    pub scale: u32,
    pub claim: u64,
    pub cost: u32,
    pub rank: u32,
}

// The sum over a stretch of branches of weight times the destination's claim. It differs from `sweep` by the rank alone, and stands apart
// for speed.
fn weighted(t: &Model, u: &Claim, stretch: Range<usize>) -> u64
    requires { let y = rows_in (model_in t.now) (claim_in u.now) in
        Weighable y.destinations y.weights y.claims stretch.start stretch.end }
    ensures { let y = rows_in (model_in t.now) (claim_in u.now) in
        result ≡ weighted_over y.destinations y.weights y.claims stretch.start stretch.end }
{
    let mut total: u64 = 0;
    for j in stretch {
        total += (t.weights[j] as u64) * u.claims[t.destinations[j] as usize];
    }
    total
}

// That sum, and the least rank of the destinations; the mark for none is the largest.
#[derive(Clone, Copy)]
pub struct Swept {
    pub sum: u64,
    pub least: u32,
}

fn sweep(t: &Model, u: &Claim, stretch: Range<usize>) -> Swept
    requires weighable { let y = rows_in (model_in t.now) (claim_in u.now) in
        Weighable y.destinations y.weights y.claims stretch.start stretch.end }
    requires ranks_len { length u.now.ranks.now ≡ length u.now.claims.now }
    ensures sum_value { let y = rows_in (model_in t.now) (claim_in u.now) in
        result.sum ≡ weighted_over y.destinations y.weights y.claims stretch.start stretch.end }
    ensures least_value { result.least ≡ least_of t.now.destinations.now u.now.ranks.now stretch.start stretch.end }
{
    let mut swept = Swept {
        sum: 0,
        least: Rank::NONE,
    };
    for j in stretch {
        let place = t.destinations[j] as usize;
        swept.sum += (t.weights[j] as u64) * u.claims[place];
        swept.least = swept.least.min(u.ranks[place]);
    }
    swept
}

// What is expected is at most what is due, or at least, as the kind asks.
fn suits(kind: Kind, due: u64, expected: u64) -> bool
    ensures { result ≡ suits_by kind due expected }
{
    if kind.bound.is_at_least() {
        due <= expected
    } else {
        expected <= due
    }
}

// Action a suits and, where 24 is asked, falls. The one routine that judges an action.
fn judge_action(kind: Kind, asked: bool, state: State, t: &Model, u: &Claim, a: u32) -> bool
    requires walkable { Walkable kind state (rows_in (model_in t.now) (claim_in u.now)) }
    requires asked_at_least { asked ≡ true → is_at_least kind.bound ≡ true }
    requires inside { a < state.end }
    ensures { let y = rows_in (model_in t.now) (claim_in u.now) in
        result ≡ kept asked (suits_in kind state y a) (falls_in state y a) }
{
    let a = a as usize;
    let stretch = t.branch_starts[a] as usize..t.branch_starts[a + 1] as usize;
    let scale = state.scale as u64;
    let due = scale * state.claim;
    let spent = scale * (state.cost as u64);
    if asked {
        let swept = sweep(t, u, stretch);
        swept.least < state.rank && suits(kind, due, swept.sum + spent)
    } else {
        suits(kind, due, weighted(t, u, stretch) + spent)
    }
}

// The lowest action of a state that suits and, where 24 is asked, falls; or the lowest that does not, as wanted. None if there is none.
// What is wanted and asked are parameters, and no closure: it would hold these two, and a caller passes them twice.
// `Walkable` ties a state's numbers to the tables of two structs, so it is no invariant of one of them.
pub fn lowest(
    kind: Kind,
    wanted: bool,
    asked: bool,
    state: State,
    t: &Model,
    u: &Claim,
) -> Option<u32>
    requires walkable { Walkable kind state (rows_in (model_in t.now) (claim_in u.now)) }
    requires asked_at_least { asked ≡ true → is_at_least kind.bound ≡ true }
    ensures { let y = rows_in (model_in t.now) (claim_in u.now) in
        result ≡ below (lowest_of kind wanted asked state y) state.end }
{
    (state.first..state.end).find(|a| judge_action(kind, asked, state, t, u, *a) == wanted)
}
