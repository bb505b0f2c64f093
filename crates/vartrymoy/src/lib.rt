// The library to link: document 01's check, reader and writer, and a file's whole answer, for C and whatever calls C, in numbers and
// lists of numbers. C lends each table by itself.
#![tactic(auto)]

ghost use Rattle.std.specs.Prelude.{length};
ghost use Rattle.model.specs.Tables.{model_of, claim_of};
ghost use Rattle.certfile.specs.Tables.{tables};
ghost use Rattle.results.specs.Lists.{lists_right};
ghost use Rattle.vartrymoy.specs.Answered.{loaded, FileAnsweredInto};
ghost use Rattle.vartrymoy.specs.Exported.{CheckedInto};
ghost use Rattle.vartrymoy.specs.Filled.{FileReadInto};
ghost use Rattle.vartrymoy.specs.Written.{FileWrittenInto};

use certfile::Lent;
use model::{Claim, Model, Refusal, Verdict};
use program::Whole;
use results::{AnswerList, HeaderList, ResultList};

// Judges the claim that the lent tables make, as checker::check does, and answers its number.
#[tactic(auto, using(crate::proofs::Judged::shut), unfolding(model::specs::Answers::require))]
#[unsafe(no_mangle)]
pub extern "C" fn vartrymoy_check(
    kind: u32,
    d: u32,
    c: u32,
    marks: &[u8],
    action_starts: &[u32],
    branch_starts: &[u32],
    destinations: &[u32],
    weights: &[u32],
    costs: &[u32],
    claims: &[u64],
    ranks: &[u32],
    choices: &mut [u32],
    answer: &mut [u32],
) -> u32
    ensures { let t = model_of d marks.now action_starts.now branch_starts.now
        destinations.now weights.now in
        let u = claim_of c costs.now claims.now ranks.now in
        CheckedInto kind t u choices.old answer.old result choices.new answer.new }
{
    let t = Model {
        d,
        marks,
        action_starts,
        branch_starts,
        destinations,
        weights,
    };
    let u = Claim {
        c,
        costs,
        claims,
        ranks,
    };
    if answer.len() != AnswerList::COUNT {
        let refusal = Verdict::from(checker::refuse(kind, &t, &u, choices.len()));
        return refusal.require(false, Refusal::Length.number(), 0).number();
    }
    results::put(checker::check(kind, &t, &u, choices), answer)
}

// Reads a file into the lent tables, as certfile::read does, and answers 0 or the number of the refusal.
#[tactic(auto, using(results::proofs::Numbers::refusal_read, results::proofs::Numbers::read_fault))]
#[unsafe(no_mangle)]
pub extern "C" fn vartrymoy_read(
    file: &[u8],
    header: &mut [u32],
    marks: &mut [u8],
    action_starts: &mut [u32],
    branch_starts: &mut [u32],
    destinations: &mut [u32],
    weights: &mut [u32],
    costs: &mut [u32],
    claims: &mut [u64],
    ranks: &mut [u32],
) -> u32
    ensures { let before = tables marks.old action_starts.old branch_starts.old
        destinations.old weights.old costs.old claims.old ranks.old in
        let after = tables marks.new action_starts.new branch_starts.new
        destinations.new weights.new costs.new claims.new ranks.new in
        FileReadInto file.now header.old before result header.new after }
{
    let mut tables = Lent {
        marks,
        action_starts,
        branch_starts,
        destinations,
        weights,
        costs,
        claims,
        ranks,
    };
    if header.len() != HeaderList::COUNT {
        let would = certfile::preview(file, tables.lengths());
        return results::number_or(would, Refusal::Length.number());
    }
    let read = certfile::read(file, &mut tables);
    results::put_header(read, header);
    results::number_or(read, 0)
}

// Writes the file that the lent tables make into a lent buffer, as writer::write does, and answers 0 or the number of the refusal.
#[tactic(auto, using(results::proofs::Numbers::refusal_written, results::proofs::Numbers::written_fault))]
#[unsafe(no_mangle)]
pub extern "C" fn vartrymoy_write(
    kind: u32,
    d: u32,
    c: u32,
    marks: &[u8],
    action_starts: &[u32],
    branch_starts: &[u32],
    destinations: &[u32],
    weights: &[u32],
    costs: &[u32],
    claims: &[u64],
    ranks: &[u32],
    buffer: &mut [u8],
    res: &mut [u64],
) -> u32
    ensures { let t = model_of d marks.now action_starts.now branch_starts.now
        destinations.now weights.now in
        let u = claim_of c costs.now claims.now ranks.now in
        FileWrittenInto kind t u buffer.old res.old result buffer.new res.new }
{
    let t = Model {
        d,
        marks,
        action_starts,
        branch_starts,
        destinations,
        weights,
    };
    let u = Claim {
        c,
        costs,
        claims,
        ranks,
    };
    if res.len() != ResultList::COUNT {
        let would = writer::preview(kind, &t, &u, buffer.len());
        return results::number_or(would, Refusal::Length.number());
    }
    let written = writer::write(kind, &t, &u, buffer);
    results::put_written(written, res);
    results::number_or(written, 0)
}

// Reads a file into the lent tables, checks it, puts what is printed at the beginning of the text, and answers its number.
#[unsafe(no_mangle)]
pub extern "C" fn vartrymoy_answer(
    file: &[u8],
    marks: &mut [u8],
    action_starts: &mut [u32],
    branch_starts: &mut [u32],
    destinations: &mut [u32],
    weights: &mut [u32],
    costs: &mut [u32],
    claims: &mut [u64],
    ranks: &mut [u32],
    choices: &mut [u32],
    text: &mut [u8],
    res: &mut [u64],
) -> u32
    ensures { let before = tables marks.old action_starts.old branch_starts.old
        destinations.old weights.old costs.old claims.old ranks.old in
        let after = tables marks.new action_starts.new branch_starts.new
        destinations.new weights.new costs.new claims.new ranks.new in
        let right = lists_right (length marks.old) (length choices.old)
        (length text.old) (length res.old) in
        FileAnsweredInto right (loaded before file.now) file.now
        before choices.old text.old res.old result
        after choices.new text.new res.new }
{
    let right = results::lists_right(marks.len(), choices.len(), text.len(), res.len());
    let mut tables = Lent {
        marks,
        action_starts,
        branch_starts,
        destinations,
        weights,
        costs,
        claims,
        ranks,
    };
    if !right {
        return program::unprinted(file, &mut tables);
    }
    let told = program::answer_within(Whole::BYTES, file, &mut tables, choices, text);
    results::put_two(told.number as u64, told.bytes as u64, res);
    told.number
}
