// The one total entry over lent tables: refusals in number order, then the conditions, then the choices.
#![tactic(auto)]

mod sizes;

ghost use Rattle.std.specs.Prelude.{◌≡◌, length};
ghost use Rattle.model.specs.Tables.{model_in, claim_in};
ghost use Rattle.model.specs.Answers.{pass, tested, judged_as, tried};
ghost use Rattle.model.specs.Kinds.{Columns};
ghost use Rattle.model.specs.Refusals.{entries, tests};
ghost use Rattle.model.specs.Checked.{chosen_of, conditions, refusal_of, verdict_of};
ghost use Rattle.conditions.specs.Ready.{Ready};
ghost use Rattle.checker.specs.Promise.{Checked};

use model::{Answer, Claim, Fault, Kind, Lengths, Model, Verdict, Violation};

// Refusals 2 to 14 with a choice list so long, in number order; none where nothing stands against it.
#[tactic(auto, using(crate::proofs::Chain::part_by_part))]
fn refusals(kind: Kind, t: &Model, u: &Claim, chosen: usize) -> Result<(), Fault>
    ensures { tested result ≡ tried (tests kind (model_in t.now) (claim_in u.now) chosen) pass }
{
    let lengths = Lengths {
        marks: t.marks.len(),
        action_starts: t.action_starts.len(),
        branch_starts: t.branch_starts.len(),
        destinations: t.destinations.len(),
        weights: t.weights.len(),
        costs: u.costs.len(),
        claims: u.claims.len(),
        ranks: u.ranks.len(),
        choices: chosen,
    };
    sizes::sizes(kind, t.d, u.c, lengths)?;
    rows::count(t)?;
    claims::ranges(kind, t.marks.len(), u)
}

// The conditions, and then, only when all is accepted, the choices.
#[tactic(auto, using(crate::proofs::Whole::kept_choices, crate::proofs::Whole::copied))]
fn settle(kind: Kind, t: &Model, u: &Claim, choices: &mut [u32]) -> Result<u32, Violation>
    requires ready { Ready kind (model_in t.now) (claim_in u.now) }
    requires choices_len { length choices.old ≡ entries kind.choices (length t.now.marks.now) }
    ensures { let x = model_in t.now in
        let y = claim_in u.now in
        let v = conditions kind x y in
        (judged_as result ≡ v) × (choices.new ≡ chosen_of kind x y choices.old v) }
{
    let mut room = [0u32; Model::MOST_STATES as usize];
    let rank = conditions::judge(kind, t, u, &mut room)?;
    choices.copy_from_slice(&room[..choices.len()]);
    Ok(rank)
}

// The verdict on a claim of a kind.
#[tactic(auto, using(crate::proofs::Whole::by_refusal))]
fn check_kind(kind: Kind, t: &Model, u: &Claim, choices: &mut [u32]) -> Verdict
    requires { Columns kind }
    ensures { let x = model_in t.now in
        let y = claim_in u.now in
        let v = verdict_of kind x y choices.old in
        (result ≡ v) × (choices.new ≡ chosen_of kind x y choices.old v) }
{
    if let Err(fault) = refusals(kind, t, u, choices.len()) {
        return fault.into();
    }
    match settle(kind, t, u, choices) {
        Ok(rank) => Verdict::Accepted { rank },
        Err(violation) => violation.into(),
    }
}

// Judges the claim that the lent tables make: accepted, violated or refused, as document 01 says. Only an accepted "some"
// claim writes the choice list, and it writes all of it. Any number is taken for a kind, since one that is none is refused here. Model
// and claim are two structs, since rows are counted before there is a claim.
pub fn check(kind: u32, t: &Model, u: &Claim, choices: &mut [u32]) -> Answer
    ensures { Checked kind (model_in t.now) (claim_in u.now) choices.old result choices.new }
{
    let verdict = match Kind::try_from(kind) {
        Ok(k) => check_kind(k, t, u, choices),
        Err(fault) => fault.into(),
    };
    Answer { kind, verdict }
}

// The refusal from 1 to 14 that stands over the lent tables with a choice list so long, or none. It writes nothing.
// Any number is taken for a kind, as in `check`.
#[tactic(auto, using(crate::proofs::Whole::known_refusal, crate::proofs::Whole::unknown_refusal))]
pub fn refuse(kind: u32, t: &Model, u: &Claim, chosen: usize) -> Result<(), Fault>
    ensures { tested result ≡ refusal_of kind (model_in t.now) (claim_in u.now) chosen }
{
    refusals(Kind::try_from(kind)?, t, u, chosen)
}
