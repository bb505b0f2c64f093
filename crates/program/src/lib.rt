// What is printed for a file that is read into lent tables, and what the check program prints.
#![tactic(auto)]

ghost use Rattle.std.specs.Prelude.{◌≡◌, ◌+◌, ◌*◌, ◌≤◌, length, IfOk};
ghost use Rattle.model.specs.Answers.{number};
ghost use Rattle.report.specs.Text.{text_of};
ghost use Rattle.model.specs.Checked.{refusal_of};
ghost use Rattle.certfile.specs.Contents.{model_cut, claim_cut};
ghost use Rattle.certfile.specs.Outcome.{outcome_in};
ghost use Rattle.certfile.specs.Tables.{tables_in, lent, Roomy, SameTables};
ghost use Rattle.program.specs.Held.{held, empty};
ghost use Rattle.program.specs.Printed.{most_file, loaded_of, filled_by, chosen_in, refused_text, printed_of};
ghost use Rattle.program.specs.Shows.{Shows, Long, Unprinted, Answered};

use certfile::{Header, Lent};
use model::{Fault, Model, Refusal, Verdict};
use report::Longest;
use wire::Width;

// The bytes that a state, an action and a branch take in a file with all eight tables, and what it has besides.
#[derive(Clone, Copy)]
struct Bytes {}

impl Bytes {
    const STATE: usize = Width::BYTE + Width::WORD + Width::WORD + Width::LONG + Width::WORD;

    const ACTION: usize = Width::WORD;

    const BRANCH: usize = Width::WORD + Width::WORD;

    const BESIDES: usize = Header::BYTES + Width::WORD + Width::WORD;
}

// The check program's room: its eight tables.
#[derive(Clone, Copy)]
pub struct Room {
    marks: [u8; Room::STATES],
    action_starts: [u32; Room::ACTION_STARTS],
    branch_starts: [u32; Room::BRANCH_STARTS],
    destinations: [u32; Room::BRANCHES],
    weights: [u32; Room::BRANCHES],
    costs: [u32; Room::STATES],
    claims: [u64; Room::STATES],
    ranks: [u32; Room::STATES],
}

// The states, actions and branches that it has room for; the bytes of a file that fills it; and the bytes of what is printed.
impl Room {
    pub const STATES: usize = 500;

    pub const ACTIONS: usize = 1_000;

    pub const BRANCHES: usize = 2_000;

    const ACTION_STARTS: usize = Room::STATES + 1;

    const BRANCH_STARTS: usize = Room::ACTIONS + 1;

    pub const BYTES: usize = Bytes::BESIDES
        + Room::STATES * Bytes::STATE
        + Room::ACTIONS * Bytes::ACTION
        + Room::BRANCHES * Bytes::BRANCH;

    pub const TEXT: usize = Longest::VERDICT + Room::STATES * Longest::CHOICE;

    // All zeros.
    pub fn new() -> Room
        ensures { held result ≡ empty }
    {
        Room {
            marks: [0; Room::STATES],
            action_starts: [0; Room::ACTION_STARTS],
            branch_starts: [0; Room::BRANCH_STARTS],
            destinations: [0; Room::BRANCHES],
            weights: [0; Room::BRANCHES],
            costs: [0; Room::STATES],
            claims: [0; Room::STATES],
            ranks: [0; Room::STATES],
        }
    }

    // The tables, lent together.
    pub fn lend(&mut self) -> Lent<'_>
        ensures { tables_in result ≡ held self.old }
    {
        let Room {
            marks,
            action_starts,
            branch_starts,
            destinations,
            weights,
            costs,
            claims,
            ranks,
        } = self;
        Lent {
            marks: &mut marks[..],
            action_starts: &mut action_starts[..],
            branch_starts: &mut branch_starts[..],
            destinations: &mut destinations[..],
            weights: &mut weights[..],
            costs: &mut costs[..],
            claims: &mut claims[..],
            ranks: &mut ranks[..],
        }
    }
}

// The most bytes that any file has.
#[derive(Clone, Copy)]
pub struct Whole {}

impl Whole {
    pub const BYTES: usize = Bytes::BESIDES
        + Model::MOST_STATES as usize * Bytes::STATE
        + Model::MOST_ACTIONS as usize * Bytes::ACTION
        + Model::MOST_BRANCHES as usize * Bytes::BRANCH;
}

// What was printed: its number in document 01, and its bytes.
#[derive(Clone, Copy)]
pub struct Told {
    pub number: u32,
    pub bytes: usize,
}

// Prints a refusal, of any number: an enum in its place would ask more of callers.
#[tactic(auto, unfolding(crate::specs::Printed::refused_text))]
pub fn refused(number: u32, place: u32, text: &mut [u8]) -> usize
    requires { 64 ≤ length text.old }
    ensures { Shows (refused_text number place) result text.old text.new }
{
    report::print(Verdict::Refused { number, place }, &[], text)
}

// Prints a verdict, and tells its number and the bytes.
fn tell(verdict: Verdict, choices: &[u32], text: &mut [u8]) -> Told
    requires { 64 + 32 * length choices.now ≤ length text.old }
    ensures number { result.number ≡ number verdict }
    ensures shows { Shows (text_of verdict choices.now) result.bytes text.old text.new }
{
    let bytes = report::print(verdict, choices, text);
    Told {
        number: verdict.number(),
        bytes,
    }
}

// Reads a file of at most so many bytes into lent tables.
#[tactic(auto, using(crate::proofs::Taken::taking), unfolding(certfile::specs::File::table_of))]
fn load(most: usize, file: &[u8], tables: &mut Lent) -> Result<Header, Fault>
    ensures answer { outcome_in result ≡ loaded_of most (lent (tables_in tables.old)) file.now }
    ensures filled { tables_in tables.new ≡ filled_by (outcome_in result) file.now (tables_in tables.old) }
    ensures same { SameTables tables.old tables.new }
    ensures roomy { IfOk result (λ h. Roomy h (lent (tables_in tables.new))) }
{
    Refusal::Counts.unless(file.len() <= most, 0)?;
    certfile::read(file, tables)
}

// The refusal over the first entries of tables that hold a file, the choice list aside, or a pass.
fn refusal(h: Header, tables: &Lent) -> Verdict
    requires { Roomy h (lent (tables_in tables.now)) }
    ensures { let t = tables_in tables.now in
        result ≡ refusal_of h.kind (model_cut h t) (claim_cut h t) (chosen_in h) }
{
    let chosen = model::choice_count(h.kind, h.n as usize);
    checker::refuse(h.kind, &tables.model(h), &tables.claim(h), chosen).into()
}

// The number where nothing can be printed: that of the refusal over the file or its tables, else 5.
pub fn unprinted(file: &[u8], tables: &mut Lent) -> u32
    ensures unprinted { let before = tables_in tables.old in
        let o = loaded_of most_file (lent before) file.now in
        Unprinted o file.now before result (tables_in tables.new) }
    ensures same { SameTables tables.old tables.new }
{
    match load(Whole::BYTES, file, tables) {
        Ok(h) => refusal(h, tables)
            .require(false, Refusal::Length.number(), 0)
            .number(),
        Err(fault) => fault.refusal.number(),
    }
}

// Reads a file into lent tables, checks it and prints the verdict at the beginning of the text.
pub fn answer_within(
    most: usize,
    file: &[u8],
    tables: &mut Lent,
    choices: &mut [u32],
    text: &mut [u8],
) -> Told
    requires { Long (length tables.old.marks.now) choices.old text.old }
    ensures answered { let before = tables_in tables.old in
        let o = loaded_of most (lent before) file.now in
        Answered o file.now before choices.old text.old result (tables_in tables.new) choices.new text.new }
    ensures same { SameTables tables.old tables.new }
{
    match load(most, file, tables) {
        Ok(h) => {
            let chosen = model::choice_count(h.kind, h.n as usize);
            let lent = &mut choices[..chosen];
            let answer = checker::check(h.kind, &tables.model(h), &tables.claim(h), lent);
            tell(answer.verdict, &choices[..chosen], text)
        }
        Err(fault) => tell(fault.into(), &[], text),
    }
}

// Puts what the check program prints for a file at the beginning of the text, and answers its length.
pub fn answer(file: &[u8], text: &mut [u8]) -> usize
    requires { Room.TEXT ≤ length text.old }
    ensures { Shows (printed_of file.now) result text.old text.new }
{
    let mut room = Room::new();
    let mut choices = [0u32; Room::STATES];
    answer_within(Room::BYTES, file, &mut room.lend(), &mut choices, text).bytes
}
