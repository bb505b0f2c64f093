// The eight kinds of claim, and what each needs, in one fixed table.
ghost use Rattle.std.specs.Prelude.{◌≡◌};
ghost use Rattle.model.specs.Kinds.{is_cost, is_at_least, is_some, known_as};
ghost use Rattle.model.specs.Refusals.{choice_count, entries};

use crate::{Fault, Refusal};

#[derive(Clone, Copy, Debug, PartialEq, Eq)]
pub enum Measure {
    Arrival,
    Cost,
}

impl Measure {
    pub fn is_cost(self) -> bool
        ensures { result ≡ is_cost self }
    {
        self == Measure::Cost
    }
}

#[derive(Clone, Copy, Debug, PartialEq, Eq)]
pub enum Bound {
    AtMost,
    AtLeast,
}

impl Bound {
    pub fn is_at_least(self) -> bool
        ensures { result ≡ is_at_least self }
    {
        self == Bound::AtLeast
    }
}

#[derive(Clone, Copy, Debug, PartialEq, Eq)]
pub enum Who {
    Every,
    Some,
}

impl Who {
    pub fn is_some(self) -> bool
        ensures { result ≡ is_some self }
    {
        self == Who::Some
    }
}

// What a claim of one kind is about, and whether it has costs, has ranks and writes choices.
#[derive(Clone, Copy, Debug, PartialEq, Eq)]
pub struct Kind {
    pub measure: Measure,
    pub bound: Bound,
    pub who: Who,
    pub costs: bool,
    pub ranks: bool,
    pub choices: bool,
}

impl Kind {
    pub const COUNT: u32 = 8;

    pub const TABLE: [Kind; 8] = [
        Kind {
            measure: Measure::Arrival,
            bound: Bound::AtMost,
            who: Who::Every,
            costs: false,
            ranks: false,
            choices: false,
        },
        Kind {
            measure: Measure::Arrival,
            bound: Bound::AtLeast,
            who: Who::Every,
            costs: false,
            ranks: true,
            choices: false,
        },
        Kind {
            measure: Measure::Arrival,
            bound: Bound::AtMost,
            who: Who::Some,
            costs: false,
            ranks: false,
            choices: true,
        },
        Kind {
            measure: Measure::Arrival,
            bound: Bound::AtLeast,
            who: Who::Some,
            costs: false,
            ranks: true,
            choices: true,
        },
        Kind {
            measure: Measure::Cost,
            bound: Bound::AtMost,
            who: Who::Every,
            costs: true,
            ranks: false,
            choices: false,
        },
        Kind {
            measure: Measure::Cost,
            bound: Bound::AtMost,
            who: Who::Some,
            costs: true,
            ranks: false,
            choices: true,
        },
        Kind {
            measure: Measure::Cost,
            bound: Bound::AtLeast,
            who: Who::Every,
            costs: true,
            ranks: true,
            choices: false,
        },
        Kind {
            measure: Measure::Cost,
            bound: Bound::AtLeast,
            who: Who::Some,
            costs: true,
            ranks: true,
            choices: true,
        },
    ];
}

// The kind that a number from 1 to 8 names; any other is refused.
impl TryFrom<u32> for Kind {
    type Error = Fault;

    ghost try_from_gives = { λ number r. r ≡ known_as number };

    fn try_from(number: u32) -> Result<Kind, Fault> {
        match number {
            1..=Kind::COUNT => Ok(Kind::TABLE[number as usize - 1]),
            _ => Err(Fault {
                refusal: Refusal::Kind,
                place: 0,
            }),
        }
    }
}

// The entries of a table that a claim has, or has not.
pub fn entries_of(has: bool, n: usize) -> usize
    ensures { result ≡ entries has n }
{
    if has { n } else { 0 }
}

// The entries of the choice list: one for each state, where the kind writes choices. Any number is taken for a kind, and one that is
// none writes none.
pub fn choice_count(kind: u32, n: usize) -> usize
    ensures { result ≡ choice_count kind n }
{
    match Kind::try_from(kind) {
        Ok(k) => entries_of(k.choices, n),
        Err(_) => 0,
    }
}
