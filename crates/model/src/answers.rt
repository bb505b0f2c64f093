// What comes back: a refusal or a violation where something is wrong, and one verdict, with the kind of claim beside it.
ghost use Rattle.std.specs.Prelude.{◌≡◌, ◌^◌, ◌<◌, IfSome};
ghost use Rattle.model.specs.Answers.{code, asked, number, given, broken, tested, held, then, require, found};
ghost use Rattle.model.specs.Checked.{accepts};
ghost use Rattle.model.specs.declared.answers.Verdict.TheVariants.{Refused};
ghost use Rattle.model.specs.Conditions.{ask};

// Document 01's refusals, each with its number: 1 to 14 over tables, 31 to 34 over a file, 35 over a buffer to write into.
#[derive(Clone, Copy, Debug, PartialEq, Eq)]
pub enum Refusal {
    Kind = 1,
    WeightScale = 2,
    ClaimScale = 3,
    States = 4,
    Length = 5,
    ActionStarts = 6,
    BranchStarts = 7,
    Mark = 8,
    Destination = 9,
    Weight = 10,
    Total = 11,
    Cost = 12,
    Claim = 13,
    Rank = 14,
    LengthField = 31,
    Version = 32,
    Counts = 33,
    FileLength = 34,
    Buffer = 35,
}

// A refusal, and its place.
#[derive(Clone, Copy, Debug, PartialEq, Eq)]
pub struct Fault {
    pub refusal: Refusal,
    pub place: u32,
}

impl Refusal {
    pub fn number(self) -> u32
        ensures { result ≡ code self }
    {
        self as u32
    }

    // Apart and cold, so that a loop that may refuse does not carry the refusal's place along with each turn.
    #[cold]
    #[inline(never)]
    fn at(self, place: u32) -> Fault
        ensures { given result ≡ Refused (code self) place }
    {
        Fault {
            refusal: self,
            place,
        }
    }

    // Refused at this place, unless it is right.
    #[tactic(auto, unfolding(crate::specs::Answers::require))]
    pub fn unless(self, right: bool, place: u32) -> Result<(), Fault>
        ensures { tested result ≡ require right (code self) place }
    {
        if right { Ok(()) } else { Err(self.at(place)) }
    }

    // Refused at the place where something wrong was found, if any. An answer tells a place in 32 bits, so each table that is searched is
    // asked to be so short; no type of slice says that.
    #[tactic(auto, unfolding(crate::specs::Answers::found))]
    pub fn where_found(self, place: Option<usize>) -> Result<(), Fault>
        requires { IfSome place (λ i. i < 2 ^ 32) }
        ensures { tested result ≡ found (code self) place }
    {
        match place {
            Some(i) => Err(self.at(i as u32)),
            None => Ok(()),
        }
    }
}

// Document 01's conditions, each with its number.
#[derive(Clone, Copy, Debug, PartialEq, Eq)]
pub enum Condition {
    Target = 21,
    Suits = 22,
    Ranked = 23,
    Falls = 24,
}

// A condition that is broken, the state, and its action or the mark for none, as the answer has it.
#[derive(Clone, Copy, Debug, PartialEq, Eq)]
pub struct Violation {
    pub condition: Condition,
    pub state: u32,
    pub action: u32,
}

impl Condition {
    pub fn number(self) -> u32
        ensures { result ≡ asked self }
    {
        self as u32
    }

    // Violated at this state and action, unless it is met.
    #[tactic(auto, unfolding(crate::specs::Conditions::ask))]
    pub fn unless(self, met: bool, state: u32, action: u32) -> Result<(), Violation>
        ensures { held result ≡ ask met (asked self) state action }
    {
        if met {
            Ok(())
        } else {
            Err(Violation {
                condition: self,
                state,
                action,
            })
        }
    }
}

// Document 01 asks for this enum, its three cases with numbers, where a Result would do.
#[derive(Clone, Copy, Debug, PartialEq, Eq)]
pub enum Verdict {
    Accepted {
        rank: u32,
    },
    Refused {
        number: u32,
        place: u32,
    },
    Violated {
        number: u32,
        state: u32,
        action: u32,
    },
}

impl From<Fault> for Verdict {
    ghost from_gives = { λ f v. v ≡ given f };

    fn from(fault: Fault) -> Verdict {
        Verdict::Refused {
            number: fault.refusal.number(),
            place: fault.place,
        }
    }
}

impl From<Result<(), Fault>> for Verdict {
    ghost from_gives = { λ r v. v ≡ tested r };

    fn from(tests: Result<(), Fault>) -> Verdict {
        match tests {
            Ok(()) => Verdict::Accepted { rank: 0 },
            Err(fault) => fault.into(),
        }
    }
}

impl From<Violation> for Verdict {
    ghost from_gives = { λ x v. v ≡ broken x };

    fn from(violation: Violation) -> Verdict {
        Verdict::Violated {
            number: violation.condition.number(),
            state: violation.state,
            action: violation.action,
        }
    }
}

impl Verdict {
    // Nothing was found wrong.
    pub fn accepts(self) -> bool
        ensures { result ≡ accepts self }
    {
        matches!(self, Verdict::Accepted { .. })
    }

    // Document 01's number.
    pub fn number(self) -> u32
        ensures { result ≡ number self }
    {
        match self {
            Verdict::Accepted { .. } => 0,
            Verdict::Refused { number, .. } | Verdict::Violated { number, .. } => number,
        }
    }

    // What this says, unless it accepts: then refused with this number at this place, unless it is right. It takes any number, as it
    // did before refusals were an enum.
    #[tactic(auto, unfolding(crate::specs::Answers::then, crate::specs::Answers::require))]
    pub fn require(self, right: bool, number: u32, place: u32) -> Verdict
        ensures { result ≡ then self (require right number place) }
    {
        match self {
            Verdict::Accepted { .. } if right => Verdict::Accepted { rank: 0 },
            Verdict::Accepted { .. } => Verdict::Refused { number, place },
            found => found,
        }
    }
}

// The verdict, and the kind's number as lent.
#[derive(Clone, Copy, Debug, PartialEq, Eq)]
pub struct Answer {
    pub kind: u32,
    pub verdict: Verdict,
}
