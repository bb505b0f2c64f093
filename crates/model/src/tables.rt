// The tables of a model and of a claim, as they are lent, and each limit of document 01 once, with the kind of thing that it bounds.

// A model: the scale D of weights, and tables 1 to 5. C lends destinations and weights as two tables, and starts as places in them.
#[derive(Clone, Copy)]
pub struct Model<'a> {
    pub d: u32,
    pub marks: &'a [u8],
    pub action_starts: &'a [u32],
    pub branch_starts: &'a [u32],
    pub destinations: &'a [u32],
    pub weights: &'a [u32],
}

// Its greatest counts of states, actions and branches.
impl Model<'_> {
    pub const MOST_STATES: u32 = 20_000;

    pub const MOST_ACTIONS: u32 = 100_000;

    pub const MOST_BRANCHES: u32 = 1_000_000;
}

// A claim: its scale C, and tables 6 to 8.
#[derive(Clone, Copy)]
pub struct Claim<'a> {
    pub c: u32,
    pub costs: &'a [u32],
    pub claims: &'a [u64],
    pub ranks: &'a [u32],
}

// The greatest scale, for arrival and for cost, and the greatest claim of a cost kind.
impl Claim<'_> {
    pub const MOST_SCALE: u32 = 1_000_000_000;

    pub const COST_SCALE: u32 = 1;

    pub const MOST_COST: u64 = 1_000_000_000_000;
}

// A weight is 1 to its scale D, and D is 1 to this.
#[derive(Clone, Copy)]
pub struct Weight {}

impl Weight {
    pub const MOST_SCALE: u32 = 1_000_000;
}

// The cost of a state is at most this.
#[derive(Clone, Copy)]
pub struct Cost {}

impl Cost {
    pub const MOST: u32 = 1_000_000_000;
}

// A rank, the choice list and the action of an answer have one mark for none, in the file and for C as here.
#[derive(Clone, Copy)]
pub struct Rank {}

impl Rank {
    pub const NONE: u32 = 4_294_967_295;
}

// A number for each of the tables 1 to 9: its entries, or the place of its first.
#[derive(Clone, Copy)]
pub struct Lengths {
    pub marks: usize,
    pub action_starts: usize,
    pub branch_starts: usize,
    pub destinations: usize,
    pub weights: usize,
    pub costs: usize,
    pub claims: usize,
    pub ranks: usize,
    pub choices: usize,
}
