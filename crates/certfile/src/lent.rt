// The eight tables that a file is read into, lent together, as C lends them one by one; and what they hold once it was read.
ghost use Rattle.std.specs.Prelude.{◌≡◌};
ghost use Rattle.model.specs.Tables.{model_in as model_lent, claim_in as claim_lent};
ghost use Rattle.certfile.specs.Contents.{model_cut, claim_cut};
ghost use Rattle.certfile.specs.Layout.{listed};
ghost use Rattle.certfile.specs.Tables.{tables_in, lent, Roomy};

use crate::{Header, layout};
use model::{Claim, Lengths, Model};

#[derive(Drop)]
pub struct Lent<'a> {
    pub marks: &'a mut [u8],
    pub action_starts: &'a mut [u32],
    pub branch_starts: &'a mut [u32],
    pub destinations: &'a mut [u32],
    pub weights: &'a mut [u32],
    pub costs: &'a mut [u32],
    pub claims: &'a mut [u64],
    pub ranks: &'a mut [u32],
}

impl Lent<'_> {
    // The room that they have; no choice list is lent.
    pub fn lengths(&self) -> Lengths
        ensures listed { listed result ≡ lent (tables_in self.now) }
        ensures choices { result.choices ≡ 0 }
    {
        Lengths {
            marks: self.marks.len(),
            action_starts: self.action_starts.len(),
            branch_starts: self.branch_starts.len(),
            destinations: self.destinations.len(),
            weights: self.weights.len(),
            costs: self.costs.len(),
            claims: self.claims.len(),
            ranks: self.ranks.len(),
            choices: 0,
        }
    }

    // The model that stands at their front, as a header counts it. That they have room for it is asked here and at `claim`: the tables
    // are lent before there is a header, so it is no invariant of theirs.
    #[tactic(auto, using(crate::proofs::Contents::cut_is))]
    pub fn model(&self, h: Header) -> Model<'_>
        requires { Roomy h (lent (tables_in self.now)) }
        ensures { model_lent result ≡ model_cut h (tables_in self.now) }
    {
        let count = layout::counts_of(h);
        Model {
            d: h.d,
            marks: &self.marks[..count.marks],
            action_starts: &self.action_starts[..count.action_starts],
            branch_starts: &self.branch_starts[..count.branch_starts],
            destinations: &self.destinations[..count.destinations],
            weights: &self.weights[..count.weights],
        }
    }

    // The claim that stands there.
    #[tactic(auto, using(crate::proofs::Contents::cut_is))]
    pub fn claim(&self, h: Header) -> Claim<'_>
        requires { Roomy h (lent (tables_in self.now)) }
        ensures { claim_lent result ≡ claim_cut h (tables_in self.now) }
    {
        let count = layout::counts_of(h);
        Claim {
            c: h.c,
            costs: &self.costs[..count.costs],
            claims: &self.claims[..count.claims],
            ranks: &self.ranks[..count.ranks],
        }
    }
}
