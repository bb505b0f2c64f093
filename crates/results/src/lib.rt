// What an exported function puts into the lists that take its results, and how long they are.
#![tactic(auto)]

ghost use Rattle.std.specs.Prelude.{◌≡◌, [], ◌∷◌, length};
ghost use Rattle.model.specs.Answers.{number, value, action};
ghost use Rattle.results.specs.declared.Numbered.{Numbered};
ghost use Rattle.results.specs.Lists.{numbers_of, numbered, refusal_or, read_by, written_by, header_after, pair_of, lists_right};

use certfile::Header;
use model::{Answer, Fault, Rank, Verdict};

// The length of the list that takes an answer.
#[derive(Clone, Copy)]
pub struct AnswerList {}

impl AnswerList {
    pub const COUNT: usize = 4;
}

// What a verdict has beside its number: R, the place or the state, and then the action or none.
fn values_of(v: Verdict) -> (u32, u32)
    ensures { (result.0 ≡ value v) × (result.1 ≡ action v) }
{
    match v {
        Verdict::Accepted { rank } => (rank, Rank::NONE),
        Verdict::Refused { place, .. } => (place, Rank::NONE),
        Verdict::Violated { state, action, .. } => (state, action),
    }
}

// Writes an answer into a list of four, and answers its number.
pub fn put(r: Answer, answer: &mut [u32]) -> u32
    requires { length answer.old ≡ 4 }
    ensures number { result ≡ number r.verdict }
    ensures answer { answer.new ≡ numbers_of r }
{
    let number = r.verdict.number();
    let (value, action) = values_of(r.verdict);
    answer.copy_from_slice(&[number, value, action, r.kind]);
    number
}

// The length of the list that takes what a file says before its tables.
#[derive(Clone, Copy)]
pub struct HeaderList {}

impl HeaderList {
    pub const COUNT: usize = 6;
}

// A refusal of any number, and its place.
#[derive(Clone, Copy, Debug, PartialEq, Eq)]
pub struct Numbered {
    pub number: u32,
    pub place: u32,
}

// What the lists take of a refusal: its number, which may be any and not only one of document 01's, and its place.
pub trait Refused: Copy {
    ghost numbered: { Self → Numbered };

    fn told(self) -> Numbered
        ensures { result ≡ numbered self };
}

impl Refused for Fault {
    ghost numbered = { numbered };

    fn told(self) -> Numbered {
        Numbered {
            number: self.refusal.number(),
            place: self.place,
        }
    }
}

impl Refused for Numbered {
    ghost numbered = { λ r. r };

    fn told(self) -> Numbered {
        self
    }
}

// The number of a refusal, or this one where a file is read or written.
pub fn number_or<T: Copy, E: Refused>(done: Result<T, E>, number: u32) -> u32
    ensures { result ≡ refusal_or E.numbered number done }
{
    match done {
        Ok(_) => number,
        Err(refusal) => refusal.told().number,
    }
}

// Writes what a file says before its tables into a list of six: a refusal leaves it alone.
#[tactic(auto, unfolding(crate::specs::Lists::header_after))]
pub fn put_header<E: Refused>(read: Result<Header, E>, header: &mut [u32])
    requires { length header.old ≡ 6 }
    ensures { header.new ≡ header_after (read_by E.numbered read) header.old }
{
    if let Ok(h) = read {
        header.copy_from_slice(&[h.kind, h.d, h.c, h.n, h.m, h.b]);
    }
}

// The length of the list that takes what writing answers.
#[derive(Clone, Copy)]
pub struct ResultList {}

impl ResultList {
    pub const COUNT: usize = 2;
}

// Writes two numbers into a list of two.
pub fn put_two(first: u64, second: u64, res: &mut [u64])
    requires { length res.old ≡ 2 }
    ensures { res.new ≡ first ∷ second ∷ [] }
{
    res.copy_from_slice(&[first, second]);
}

// Writes what writing answered into a list of two.
#[tactic(auto, unfolding(crate::specs::Lists::pair_of))]
pub fn put_written<E: Refused>(written: Result<usize, E>, res: &mut [u64])
    requires { length res.old ≡ 2 }
    ensures { res.new ≡ pair_of (written_by E.numbered written) }
{
    match written {
        Ok(bytes) => put_two(0, bytes as u64, res),
        Err(refusal) => {
            let told = refusal.told();
            put_two(told.number as u64, told.place as u64, res)
        }
    }
}

// Whether the lists that take what is answered have lengths with which it can be written.
pub fn lists_right(states: usize, choices: usize, text: usize, res: usize) -> bool
    ensures { result ≡ lists_right states choices text res }
{
    res == ResultList::COUNT && states <= choices && report::has_room(states, text)
}
