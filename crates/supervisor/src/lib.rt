// Ask, and commit by value: what a handover would apply, and that handover, made if its receiver has not acted since.
#![tactic(auto)]

ghost use Rattle.std.specs.Prelude.{◌≡◌, ◌≤◌, IfOk};
ghost use Rattle.model.specs.Tables.{seats, capacity, messages_of};
ghost use Rattle.model.specs.Refusals.{refusal_number, refusal_in};
ghost use Rattle.model.specs.Questions.{first_no};
ghost use Rattle.model.specs.Handed.{all_of};
ghost use Rattle.previews.specs.Previews.{sends_by, reads_by, act_count, acts_of};
ghost use Rattle.supervisor.specs.Supervised.{Bounded, questions_of, no_preview, unchanged, Asks, Commits};

use model::refusal::Refusal;
use model::{Answer, AskAnswer, Controller, Messages, Name, Pair, Table, refusal};

// THE ACT COUNT

// How many of the messages c sent.
fn sends_by(messages: Messages, c: usize) -> usize
    requires { messages.count ≤ capacity }
    ensures { result ≡ sends_by (all_of messages.entry) c }
{
    messages
        .sent()
        .iter()
        .filter(|m| m.sender as usize == c)
        .count()
}

// How many entries of the logs of n controllers were read, by these read positions. (That n is at most 7 is asked here and of the count:
// the caller has it from question 4.)
fn reads_by(n: usize, read: &[usize; Table::CONTROLLERS]) -> usize
    requires { (n ≤ seats) × Bounded n read.now }
    ensures { result ≡ reads_by n read.now }
{
    read[..n].iter().sum()
}

// How often controller c, which is x, has acted: it sent a message, was the receiver of a handover or stopped.
#[tactic(auto, using(crate::proofs::ActCounts::acts_few, crate::proofs::ActCounts::bit_few, crate::proofs::ActCounts::acts_sum))]
fn act_count(t: &Table, x: &Controller, c: usize) -> usize
    requires { (t.now.n ≤ seats) × (t.now.count ≤ capacity) × Bounded t.now.n x.now.read }
    ensures { result ≡ act_count t.now.n (messages_of t.now) x.now c }
{
    let sends = sends_by(t.sent(), c);
    let reads = reads_by(t.n, &x.read);
    sends + reads + usize::from(!x.is_running())
}

// THE QUESTIONS

// The questions of an ask; and with an act count, those of a commit. Where they refuse nothing, how often the receiver has acted.
#[tactic(auto, using(crate::proofs::Pairs::receiver_some, crate::proofs::Pairs::receiver_low, crate::proofs::Pairs::owner_some, crate::proofs::Pairs::owner_low, crate::proofs::Pairs::countable), unfolding(model::specs::Questions::first_no, model::specs::Questions::lent_table, model::specs::Questions::unread, model::specs::Questions::scratch_room, model::specs::Questions::handover_questions, model::specs::Questions::event_questions, model::specs::Tables::controller_in, previews::specs::Previews::ask_questions, previews::specs::Previews::commit_questions))]
fn asked(t: &Table, pair: Pair, acts: Option<usize>, room: usize) -> Result<usize, Refusal>
    ensures refused { refusal_in result ≡ first_no (questions_of t.now pair acts room) }
    ensures counted { IfOk result (λ own. own ≡ acts_of t.now pair.receiver) }
{
    if !validity::well_formed(t) {
        return Err(Refusal::Table);
    }
    if !pair.is_among(t.n) {
        return Err(Refusal::Controller);
    }
    let x = &t.controllers[pair.receiver - 1];
    let own = act_count(t, x, pair.receiver);
    let o = pair.owner - 1;
    if !x.is_running() {
        return Err(Refusal::Stopped);
    }
    if acts.is_some_and(|acts| acts != own) {
        return Err(Refusal::ActCount);
    }
    if t.controllers[o].length <= x.read[o] {
        return Err(Refusal::NoEntry);
    }
    if room < Table::SCRATCH {
        return Err(Refusal::Scratch);
    }
    Ok(own)
}

// ASK

// A refused ask.
#[tactic(auto, unfolding(lists::specs::Build::overlay, previews::specs::Previews::ask_answer_of, crate::specs::Supervised::no_preview))]
fn no_preview(refusal: Refusal) -> AskAnswer
    ensures { result ≡ no_preview (refusal_number refusal) }
{
    AskAnswer {
        refusal: u8::from(refusal),
        acts: 0,
        size: 0,
        names: [Name::NONE; Table::MESSAGES],
    }
}

// What the handover to the receiver from the owner's log would apply, and the receiver's act count.
pub fn ask(t: &Table, pair: Pair, scratch: &mut [u8]) -> AskAnswer
    ensures { Asks t.now pair scratch.old result scratch.new }
{
    let acts = match asked(t, pair, None, scratch.len()) {
        Ok(acts) => acts,
        Err(refusal) => return no_preview(refusal),
    };
    let done = effects::act(t, effects::handover(pair), scratch);
    let names = done.answer.names;
    AskAnswer {
        refusal: refusal::ACCEPTED,
        acts,
        size: done.answer.size,
        names,
    }
}

// COMMIT

// What the call answers, and the table that it leaves (public; beside the dispatcher's, whose answer is another).
#[repr(C)]
#[derive(Clone, Copy)]
pub struct Committed {
    pub answer: Answer,
    pub table: Table,
}

// A refused commit: nothing is changed. The table goes by value, as in the call: a rule of the project.
#[tactic(auto, unfolding(crate::specs::Supervised::unchanged))]
fn refused(t: Table, refusal: Refusal) -> Committed
    ensures { result ≡ unchanged t (refusal_number refusal) }
{
    Committed {
        answer: effects::no_set(u8::from(refusal)),
        table: t,
    }
}

// Carries out the handover to the receiver from the owner's log, if the receiver has acted as often as this. The table goes by value: a
// rule of the project.
pub fn commit(mut t: Table, pair: Pair, acts: usize, scratch: &mut [u8]) -> Committed
    ensures { Commits t pair acts scratch.old result scratch.new }
{
    if let Err(refusal) = asked(&t, pair, Some(acts), scratch.len()) {
        return refused(t, refusal);
    }
    let e = effects::handover(pair);
    let done = effects::act(&t, e, scratch);
    effects::store(&mut t, e, done.controller);
    Committed {
        answer: done.answer,
        table: t,
    }
}
