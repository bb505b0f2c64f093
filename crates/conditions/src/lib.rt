// The fixed point conditions 21 to 24 and the choices, over tables that are well formed.
#![tactic(auto)]

ghost use Rattle.std.specs.Prelude.{◌≡◌, ◌≤◌, length, get_or};
ghost use Rattle.model.specs.Answers.{held, judged_as};
ghost use Rattle.model.specs.Tables.{model_in, claim_in};
ghost use Rattle.model.specs.Conditions.{target_asks, rank_asks, fall_asked};
ghost use Rattle.model.specs.Checked.{conditions};
ghost use Rattle.actions.specs.Judging.{rows_in};
ghost use Rattle.actions.specs.Ready.{Walkable};
ghost use Rattle.conditions.specs.Judging.{verdict23, target_verdict, open_verdict, open_choice, state_verdict, state_choice};
ghost use Rattle.conditions.specs.Judging.{Judges, room_of};
ghost use Rattle.conditions.specs.Ready.{Ready};

use actions::State;
use model::{Claim, Condition, Kind, Model, Rank, Violation};

// What 21 asks of a target's claim: C (arrival, at most); no less than the target's cost (cost, at most), or no more (cost, at least);
// of arrival, at least, it asks nothing.
#[tactic(auto, unfolding(model::specs::Conditions::target_asks))]
fn target_claim(kind: Kind, c: u32, cost: u32, claim: u64) -> bool
    ensures { result ≡ target_asks kind c cost claim }
{
    match (kind.measure.is_cost(), kind.bound.is_at_least()) {
        (true, true) => claim <= cost as u64,
        (true, false) => cost as u64 <= claim,
        (false, true) => true,
        (false, false) => claim == c as u64,
    }
}

// What 23 asks, "at least" only: a claim above 0 has a rank that is not none.
#[tactic(auto, unfolding(model::specs::Conditions::rank_asks))]
fn claim_ranked(kind: Kind, claim: u64, rank: u32) -> bool
    ensures { result ≡ rank_asks kind claim rank }
{
    !kind.bound.is_at_least() || claim == 0 || rank != Rank::NONE
}

// 24 is asked at a non-target with a rank, "at least" only.
#[tactic(auto, unfolding(model::specs::Conditions::fall_asked))]
fn fall_asked(kind: Kind, rank: u32) -> bool
    ensures { result ≡ fall_asked kind rank }
{
    kind.bound.is_at_least() && rank != Rank::NONE
}

// 23.
#[tactic(auto, unfolding(crate::specs::Judging::verdict23))]
fn ranked(kind: Kind, state: State) -> Result<(), Violation>
    ensures { held result ≡ verdict23 kind state }
{
    let met = claim_ranked(kind, state.claim, state.rank);
    Condition::Ranked.unless(met, state.place, Rank::NONE)
}

// 21 and 23 at a target.
fn judge_target(kind: Kind, c: u32, state: State) -> Result<(), Violation>
    ensures { held result ≡ target_verdict kind c state }
{
    let met = target_claim(kind, c, state.cost, state.claim);
    Condition::Target.unless(met, state.place, Rank::NONE)?;
    ranked(kind, state)
}

// 22 to 24 at a non-target, and the action chosen, none for "every" kinds. The lowest action that keeps what is asked is sought ("some"),
// or the lowest that does not ("every"). 22 comes first, so where that breaks, a second search looks for it alone.
fn judge_open(kind: Kind, state: State, t: &Model, u: &Claim) -> Result<u32, Violation>
    requires { Walkable kind state (rows_in (model_in t.now) (claim_in u.now)) }
    ensures { let y = rows_in (model_in t.now) (claim_in u.now) in
        Judges (open_verdict kind state y) (open_choice kind state y) result }
{
    let some = kind.who.is_some();
    let asked = fall_asked(kind, state.rank);
    let found = actions::lowest(kind, some, asked, state, t, u);
    if found.is_some() == some {
        ranked(kind, state)?;
        return Ok(found.unwrap_or(Rank::NONE));
    }
    let suits = actions::lowest(kind, some, false, state, t, u);
    let (condition, action) = if suits.is_some() == some {
        (Condition::Falls, found)
    } else {
        (Condition::Suits, suits)
    };
    Err(Violation {
        condition,
        state: state.place,
        action: action.unwrap_or(Rank::NONE),
    })
}

// 21 to 24 at a state, and its choice, none at a target.
#[tactic(auto, unfolding(crate::specs::Judging::state_verdict, crate::specs::Judging::state_choice))]
fn judge_state(kind: Kind, state: State, t: &Model, u: &Claim) -> Result<u32, Violation>
    requires { Walkable kind state (rows_in (model_in t.now) (claim_in u.now)) }
    ensures { let y = rows_in (model_in t.now) (claim_in u.now) in
        Judges (state_verdict kind u.now.c state y) (state_choice kind state y) result }
{
    if state.mark == 1 {
        judge_target(kind, u.c, state)?;
        return Ok(Rank::NONE);
    }
    judge_open(kind, state, t, u)
}

// An entry of a table that not every kind has: 0 beyond its end.
fn number_at(table: &[u32], s: usize) -> u32
    ensures { result ≡ get_or table.now s 0 }
{
    table.get(s).copied().unwrap_or(0)
}

// The states in order: the first condition that breaks, or R. The choices so far go into the room.
pub fn judge(kind: Kind, t: &Model, u: &Claim, room: &mut [u32]) -> Result<u32, Violation>
    requires ready { Ready kind (model_in t.now) (claim_in u.now) }
    requires marks_in_bounds { length t.now.marks.now ≤ length room.old }
    ensures { let x = model_in t.now in
        let y = claim_in u.now in
        (judged_as result ≡ conditions kind x y) × (room.new ≡ room_of kind x y room.old) }
{
    for s in 0..t.marks.len() {
        let state = State {
            place: s as u32,
            mark: t.marks[s],
            first: t.action_starts[s],
            end: t.action_starts[s + 1],
            scale: t.d,
            claim: u.claims[s],
            cost: number_at(u.costs, s),
            rank: number_at(u.ranks, s),
        };
        room[s] = judge_state(kind, state, t, u)?;
    }
    Ok(claims::greatest_rank(u.ranks))
}
