// Questions 8 to 14 and 17 to 20, on every table. Past the last controller there is none, and the definitions read zeros (`or_none`).
#![tactic(auto)]

ghost use Rattle.std.specs.Prelude.{◌≡◌, ◌≤◌, ◌<◌, [], ◌∷◌, IfOk, IsSome, leb, get_or};
ghost use Rattle.lists.specs.Below.{all};
ghost use Rattle.model.specs.Fair.{named};
ghost use Rattle.model.specs.Handed.{all_of};
ghost use Rattle.model.specs.Tables.{seats, yes?, no_controller, at, messages_of};
ghost use Rattle.model.specs.Refusals.{refusal_in};
ghost use Rattle.model.specs.Questions.{ask, first_no, own_pending, latest, synced, unread, payload_questions, sender_questions, send_questions, handover_questions, stop_questions, read_questions, command_questions};
ghost use Rattle.questions.specs.Seats.{or_none};

use model::refusal::Refusal;
use model::{Command, Controller, Event, Kind, Messages, Payload, Pending, Table};

// Question 8: c is one of n controllers. (`Fair.named` is unfolded, so that a test by comparisons is proved too, and a wrong one refused.)
#[tactic(auto, unfolding(model::specs::Questions::first_no, model::specs::Fair::named))]
fn named(n: usize, c: u8) -> Result<(), Refusal>
    ensures { refusal_in result ≡ first_no (ask 8 (named n c) ∷ []) }
{
    if Controller::is_among(n, c as usize) {
        Ok(())
    } else {
        Err(Refusal::Controller)
    }
}

// Controller c of the table; past the last there is none.
#[tactic(auto, unfolding(model::specs::Tables::controller_in, crate::specs::Seats::or_none))]
fn controller(t: &Table, c: u8) -> Option<&Controller>
    ensures { or_none result ≡ at t.now c }
{
    t.controllers.get((c as usize).saturating_sub(1))
}

// Question 10: the controller, if it is there and runs.
#[tactic(auto, unfolding(model::specs::Questions::first_no, crate::specs::Seats::or_none))]
fn running(x: Option<&Controller>) -> Result<&Controller, Refusal>
    ensures asked { refusal_in result ≡ first_no (ask 10 (yes? (or_none x.entry).running) ∷ []) }
    ensures there { IfOk result (λ _. IsSome x.entry) }
    ensures found { IfOk result (λ y. y.now ≡ or_none x.entry) }
{
    x.filter(|x| x.is_running()).ok_or(Refusal::Stopped)
}

// Whether one of the messages is in this buffer and c's own. Past the end of the arrays none is.
fn own_pending(messages: Messages, pending: &[Pending; Table::MESSAGES], c: u8) -> bool
    ensures { result ≡ own_pending (all_of messages.entry) pending.now c }
{
    messages
        .sent()
        .iter()
        .zip(pending)
        .any(|(m, p)| p.is_held() && m.sender == c)
}

// A REPORT, SYNC OR WRITE

// The greatest number of c among the messages.
fn latest(messages: Messages, c: u8) -> u8
    ensures { result ≡ latest (all_of messages.entry) c }
{
    messages
        .sent()
        .iter()
        .filter(|m| m.sender == c)
        .map(|m| m.number.0)
        .max()
        .unwrap_or(0)
}

// Whether the latest message of c is a sync that is flagged as applied (a byte: the C interface).
fn synced(messages: Messages, applied: &[u8; Table::MESSAGES], c: u8) -> bool
    ensures { result ≡ synced (all_of messages.entry) applied.now c }
{
    let last = latest(messages, c);
    messages.sent().iter().zip(applied).any(|(m, flag)| {
        *flag != 0 && m.payload.is(Kind::Sync) && m.sender == c && m.number.0 == last
    })
}

// Questions 9, 17 and 19.
#[tactic(auto, unfolding(model::specs::Questions::first_no, model::specs::Questions::payload_questions))]
fn payload_refusal(version: usize, payload: Payload) -> Result<(), Refusal>
    ensures { refusal_in result ≡ first_no (payload_questions version payload) }
{
    if !payload.fair_amount() {
        return Err(Refusal::Amount);
    }
    if !payload.fair_class(version) {
        return Err(Refusal::Class);
    }
    if !payload.fair_register() {
        return Err(Refusal::Register);
    }
    Ok(())
}

// Questions 10 to 12 and 20, x being the sender. A report does not wait for messages of its sender's own, and a write alone
// follows on a sync.
#[tactic(auto, unfolding(model::specs::Questions::first_no, model::specs::Questions::sender_questions))]
fn sender_refusal(
    messages: Messages,
    x: Option<&Controller>,
    sender: u8,
    payload: Payload,
) -> Result<(), Refusal>
    ensures { refusal_in result ≡ first_no (sender_questions (all_of messages.entry) (or_none x.entry) sender payload) }
{
    let x = running(x)?;
    if !payload.is(Kind::Report) && own_pending(messages, &x.pending, sender) {
        return Err(Refusal::OwnPending);
    }
    if Table::MESSAGES <= messages.count {
        return Err(Refusal::Full);
    }
    if payload.is(Kind::Write) && !synced(messages, &x.applied, sender) {
        return Err(Refusal::NotSynced);
    }
    Ok(())
}

#[tactic(auto, unfolding(model::specs::Questions::first_no, model::specs::Questions::send_questions), using(crate::proofs::Answers::refused_first, crate::proofs::Answers::payload_passed))]
fn send_refusal(
    t: &Table,
    x: Option<&Controller>,
    sender: u8,
    payload: Payload,
) -> Result<(), Refusal>
    ensures { refusal_in result ≡ first_no (send_questions t.now.version t.now.n (messages_of t.now) (or_none x.entry) sender payload) }
{
    named(t.n, sender)?;
    payload_refusal(t.version, payload)?;
    sender_refusal(t.sent(), x, sender, payload)
}

// A HANDOVER

// Whether this log of controller o has an entry that x has not read.
#[tactic(auto, unfolding(model::specs::Questions::unread, crate::specs::Seats::or_none))]
fn has_unread(x: &Controller, y: Option<&Controller>, o: u8) -> bool
    ensures { result ≡ unread x.now (or_none y.entry) o }
{
    let index = (o as usize).saturating_sub(1);
    let place = x.read.get(index).copied().unwrap_or(0);
    y.is_some_and(|y| place < y.length)
}

#[tactic(auto, unfolding(model::specs::Questions::first_no, model::specs::Questions::handover_questions))]
fn handover_refusal(
    n: usize,
    x: Option<&Controller>,
    y: Option<&Controller>,
    receiver: u8,
    owner: u8,
) -> Result<(), Refusal>
    ensures { refusal_in result ≡ first_no (handover_questions n (or_none x.entry) (or_none y.entry) receiver owner) }
{
    named(n, receiver)?;
    named(n, owner)?;
    let x = running(x)?;
    if !has_unread(x, y, owner) {
        return Err(Refusal::NoEntry);
    }
    Ok(())
}

// A STOP

// Whether none of n controllers has read more than k entries of the log at index o.
fn none_past(n: usize, controllers: &[Controller; Table::CONTROLLERS], o: usize, k: usize) -> bool
    requires { o < seats }
    ensures { result ≡ all n (λ j. leb (get_or (get_or controllers.now j no_controller).read o 0) k) }
{
    controllers.iter().take(n).all(|x| x.read[o] <= k)
}

#[tactic(auto, unfolding(model::specs::Questions::first_no, model::specs::Questions::stop_questions, model::specs::Questions::keepable, model::specs::Tables::controller_in, crate::specs::Seats::or_none))]
fn stop_refusal(
    n: usize,
    controllers: &[Controller; Table::CONTROLLERS],
    controller: u8,
    kept: usize,
) -> Result<(), Refusal>
    ensures { refusal_in result ≡ first_no (stop_questions n controllers.now controller kept) }
{
    named(n, controller)?;
    let o = (controller as usize).saturating_sub(1);
    let x = running(controllers.get(o))?;
    if x.length < kept || !none_past(n, controllers, o, kept) {
        return Err(Refusal::Kept);
    }
    Ok(())
}

// A LOCAL READ

#[tactic(auto, unfolding(model::specs::Questions::first_no, model::specs::Questions::read_questions))]
fn read_refusal(t: &Table, x: Option<&Controller>, controller: u8) -> Result<(), Refusal>
    ensures { refusal_in result ≡ first_no (read_questions t.now.n (messages_of t.now) (or_none x.entry) controller) }
{
    named(t.n, controller)?;
    let x = running(x)?;
    if own_pending(t.sent(), &x.pending, controller) {
        return Err(Refusal::ReadPending);
    }
    Ok(())
}

// EVERY RECORD

// The first no of questions 8 to 14 and 17 to 20, in their order for each kind of record.
#[tactic(auto, unfolding(model::specs::Questions::command_questions, model::specs::Questions::event_questions))]
pub fn refusal(t: &Table, a: Command) -> Result<(), Refusal>
    ensures { refusal_in result ≡ first_no (command_questions t.now a) }
{
    match a {
        Command::Act(Event::Send { sender, payload }) => {
            send_refusal(t, controller(t, sender), sender, payload)
        }
        Command::Act(Event::Handover { receiver, owner }) => {
            let x = controller(t, receiver);
            handover_refusal(t.n, x, controller(t, owner), receiver, owner)
        }
        Command::Act(Event::Stop { controller, kept }) => {
            stop_refusal(t.n, &t.controllers, controller, kept)
        }
        Command::Read(c) => read_refusal(t, controller(t, c), c),
    }
}
