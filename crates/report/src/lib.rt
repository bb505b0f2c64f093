// What the check program prints: the verdict's line and, after acceptance, a line for each entry of the choice list.
#![tactic(auto)]

ghost use Rattle.std.specs.Prelude.{◌≡◌, ◌++◌, ◌+◌, ◌*◌, ◌≤◌, leb, length, drop, [], ◌∷◌};
ghost use Rattle.report.specs.Text.{decimal, dashed, field, head_of, line_of, lines_of, text_of};
ghost use Rattle.report.specs.Puts.{Same, Puts};
ghost use Rattle.walk.specs.Put.{Put};

use model::{Rank, Verdict};
use wire::Word;

// The most bytes that the verdict's line and the line of a choice take.
#[derive(Clone, Copy)]
pub struct Longest {}

impl Longest {
    pub const VERDICT: usize = 64;

    pub const CHOICE: usize = 32;
}

const BLANK: u8 = b' ';

const NEWLINE: u8 = b'\n';

const DASH: u8 = b'-';

// A lent text, and the place up to which it is written. Each method writes from there on.
// It is no fmt::Write: what std promises of `write!` holds where it answers Ok, and nothing says that it does, but `print` never fails.
#[derive(Drop)]
struct Text<'a> {
    bytes: &'a mut [u8],
    at: usize,
}

impl<'a> Text<'a> {
    fn byte(&mut self, x: u8)
        requires { self.old.at + 1 ≤ length self.old.bytes.now }
        ensures same { Same self.old self.new }
        ensures put { Puts self.old self.new (x ∷ []) }
    {
        self.at = x.put(self.bytes, self.at);
    }

    fn word(&mut self, word: &[u8])
        requires { self.old.at + length word.now ≤ length self.old.bytes.now }
        ensures same { Same self.old self.new }
        ensures put { Puts self.old self.new word.now }
    {
        self.at = wire::spell(self.bytes, self.at, word);
    }

    // The digits of a number, with no zero in front.
    #[tactic(auto, using(crate::proofs::Digits::decimal_is))]
    fn number(&mut self, n: u64)
        requires { self.old.at + length (decimal n) ≤ length self.old.bytes.now }
        ensures same { Same self.old self.new }
        ensures put { Puts self.old self.new (decimal n) }
    {
        self.word(itoa::Buffer::new().format(n).as_bytes());
    }

    // A blank, and then a number.
    #[tactic(auto, using(crate::proofs::Digits::short32))]
    fn spaced(&mut self, n: u32)
        requires { self.old.at + 11 ≤ length self.old.bytes.now }
        ensures same { Same self.old self.new }
        ensures put { Puts self.old self.new (field (decimal n)) }
        ensures short { self.new.at ≤ self.old.at + 11 }
    {
        self.byte(BLANK);
        self.number(n as u64);
    }

    // A blank, and then an action, or a dash for none.
    #[tactic(auto, using(crate::proofs::Digits::dashed_none, crate::proofs::Digits::dashed_number))]
    fn action(&mut self, n: u32)
        requires { self.old.at + 11 ≤ length self.old.bytes.now }
        ensures same { Same self.old self.new }
        ensures put { Puts self.old self.new (field (dashed n)) }
        ensures short { self.new.at ≤ self.old.at + 11 }
    {
        if n == Rank::NONE {
            self.byte(BLANK);
            self.byte(DASH);
        } else {
            self.spaced(n);
        }
    }

    // The line of a verdict.
    fn head(&mut self, verdict: Verdict)
        requires { self.old.at + 64 ≤ length self.old.bytes.now }
        ensures same { Same self.old self.new }
        ensures put { Puts self.old self.new (head_of verdict) }
        ensures short { self.new.at ≤ self.old.at + 64 }
    {
        match verdict {
            Verdict::Accepted { rank } => {
                self.word(b"accepted");
                self.spaced(rank);
            }
            Verdict::Refused { number, place } => {
                self.word(b"refused");
                self.spaced(number);
                self.spaced(place);
            }
            Verdict::Violated {
                number,
                state,
                action,
            } => {
                self.word(b"violated");
                self.spaced(number);
                self.spaced(state);
                self.action(action);
            }
        }
        self.byte(NEWLINE);
    }

    // The line of a state and its choice.
    #[tactic(auto, using(crate::proofs::Digits::short64))]
    fn line(&mut self, state: u64, choice: u32)
        requires { self.old.at + 32 ≤ length self.old.bytes.now }
        ensures same { Same self.old self.new }
        ensures put { Puts self.old self.new (line_of state choice) }
        ensures short { self.new.at ≤ self.old.at + 32 }
    {
        self.number(state);
        self.action(choice);
        self.byte(NEWLINE);
    }

    fn lines(&mut self, choices: &[u32])
        requires { self.old.at + 32 * length choices.now ≤ length self.old.bytes.now }
        ensures same { Same self.old self.new }
        ensures put { Puts self.old self.new (lines_of choices.now) }
        ensures short { self.new.at ≤ self.old.at + 32 * length choices.now }
    {
        for (i, choice) in choices.iter().enumerate() {
            self.line(i as u64, *choice);
        }
    }

    // All that is printed: the choices follow after acceptance, a case of the verdict and not of a Result that is handed on.
    fn all(&mut self, verdict: Verdict, choices: &[u32])
        requires { self.old.at + 64 + 32 * length choices.now ≤ length self.old.bytes.now }
        ensures same { Same self.old self.new }
        ensures put { Puts self.old self.new (text_of verdict choices.now) }
        ensures short { self.new.at ≤ self.old.at + 64 + 32 * length choices.now }
    {
        self.head(verdict);
        if verdict.accepts() {
            self.lines(choices);
        }
    }
}

// Puts a blank and a number into the text from a place on, and answers the next place, for a caller that has a text of its own.
pub fn spaced(text: &mut [u8], at: usize, n: u32) -> usize
    requires { at + 11 ≤ length text.old }
    ensures put { Put text.old text.new at result (field (decimal n)) }
    ensures short { result ≤ at + 11 }
{
    let mut text = Text { bytes: text, at };
    text.spaced(n);
    text.at
}

// Puts what is printed at the beginning of the text, and answers its length.
pub fn print(verdict: Verdict, choices: &[u32], text: &mut [u8]) -> usize
    requires { 64 + 32 * length choices.now ≤ length text.old }
    ensures length { result ≡ length (text_of verdict choices.now) }
    ensures text { text.new ≡ text_of verdict choices.now ++ drop result text.old }
{
    let mut text = Text { bytes: text, at: 0 };
    text.all(verdict, choices);
    text.at
}

// Whether a text so long has room for what may be printed of so many states.
pub fn has_room(states: usize, text: usize) -> bool
    ensures { result ≡ leb (64 + 32 * states) text }
{
    Longest::VERDICT <= text && states <= (text - Longest::VERDICT) / Longest::CHOICE
}
