// Refusals 12 to 14, costs, claims and ranks in their ranges; and R, the greatest rank that is not none.
#![tactic(auto)]

ghost use Rattle.std.specs.Prelude.{◌≡◌, ◌<◌, ◌^◌, length};
ghost use Rattle.model.specs.Answers.{pass, tested, tried};
ghost use Rattle.model.specs.Tables.{claim_in};
ghost use Rattle.model.specs.Refusals.{limit_of, rank_right, costs_test, claims_test, ranks_test, ranges_of};
ghost use Rattle.model.specs.Checked.{greatest_rank};

use model::{Claim, Cost, Fault, Kind, Rank, Refusal};

// 12: a cost is at most its limit.
fn costs_test(costs: &[u32]) -> Result<(), Fault>
    requires { length costs.now < 2 ^ 32 }
    ensures { tested result ≡ costs_test costs.now }
{
    Refusal::Cost.where_found(costs.iter().position(|cost| Cost::MOST < *cost))
}

// 13: a claim is 0 to its limit.
fn claims_test(limit: u64, claims: &[u64]) -> Result<(), Fault>
    requires { length claims.now < 2 ^ 32 }
    ensures { tested result ≡ claims_test limit claims.now }
{
    Refusal::Claim.where_found(claims.iter().position(|claim| limit < *claim))
}

// A rank is 0 to n - 1, or none.
fn rank_right(n: usize, rank: u32) -> bool
    ensures { result ≡ rank_right n rank }
{
    (rank as usize) < n || rank == Rank::NONE
}

// 14: a rank is 0 to n - 1, or none.
fn ranks_test(n: usize, ranks: &[u32]) -> Result<(), Fault>
    requires { length ranks.now < 2 ^ 32 }
    ensures { tested result ≡ ranks_test n ranks.now }
{
    Refusal::Rank.where_found(ranks.iter().position(|rank| !rank_right(n, *rank)))
}

// The greatest claim of a kind: C for arrival, a limit of its own for cost.
fn greatest_claim(kind: Kind, c: u32) -> u64
    ensures { result ≡ limit_of kind c }
{
    if kind.measure.is_cost() {
        Claim::MOST_COST
    } else {
        c as u64
    }
}

// Refusals 12 to 14 over n states, in number order; accepted where none stands.
#[tactic(auto, using(model::proofs::Searched::in_order), unfolding(model::specs::Refusals::ranges_of))]
pub fn ranges(kind: Kind, n: usize, u: &Claim) -> Result<(), Fault>
    requires costs_len_bound { length u.now.costs.now < 2 ^ 32 }
    requires claims_len_bound { length u.now.claims.now < 2 ^ 32 }
    requires ranks_len_bound { length u.now.ranks.now < 2 ^ 32 }
    ensures { let x = claim_in u.now in
        tested result ≡ tried (ranges_of kind n x.c x.costs x.claims x.ranks) pass }
{
    costs_test(u.costs)?;
    claims_test(greatest_claim(kind, u.c), u.claims)?;
    ranks_test(n, u.ranks)
}

// R, the greatest rank that is not none; 0 if there is none or no ranks.
pub fn greatest_rank(ranks: &[u32]) -> u32
    ensures { result ≡ greatest_rank ranks.now }
{
    ranks
        .iter()
        .copied()
        .filter(|rank| *rank != Rank::NONE)
        .max()
        .unwrap_or(0)
}
