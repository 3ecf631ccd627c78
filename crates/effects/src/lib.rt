// What an accepted event does to a well-formed table: its answer, and the one controller that it changes. Each function is safe on
// every table: an index is bounded where it is read. On a well-formed table no bound changes anything.
#![tactic(auto)]

ghost use Rattle.std.specs.Prelude.{◌≡◌, true, cond, ◌<◌};
ghost use Rattle.model.specs.Tables.{seats, capacity, no_sums, unheld, first_of, messages_of, with_entry, with_mark, with_stop, Among};
ghost use Rattle.model.specs.Registers.{date_of};
ghost use Rattle.model.specs.Fair.{fair_register};
ghost use Rattle.model.specs.Events.{forward, received, deliver, subject, sums};
ghost use Rattle.model.specs.Handed.{all_of};
ghost use Rattle.model.specs.Sized.{SizedController};
ghost use Rattle.effects.specs.Conditions.{Receivable, Readable, Deliverable, Dated};
ghost use Rattle.effects.specs.Parties.{owner_of, seat_of, indices_of, both, hand_of};
ghost use Rattle.effects.specs.Effects.{with_applied, no_set, Quiet, Reads, HandsOver, CarriesOut, Acts, Sends, Adds, Stores};

use model::{
    Answer, Command, Controller, Event, ForwardNumber, Kind, Message, MessageNumber, Messages,
    Name, Pair, Panel, Parties, Payload, Pending, Sums, Table, refusal,
};

// THE CONTROLLERS

// The controller that an event changes.
#[tactic(auto, unfolding(model::specs::Events::subject))]
pub fn subject(e: Event) -> u8
    ensures { result ≡ subject e }
{
    match e {
        Event::Send { sender, .. } => sender,
        Event::Handover { receiver, .. } => receiver,
        Event::Stop { controller, .. } => controller,
    }
}

// The controller whose log a handover reads; the subject of any other event. (Beside `subject`: they differ in one arm, and one function
// for both is no plainer.)
#[tactic(auto, unfolding(crate::specs::Parties::owner_of))]
pub fn owner(e: Event) -> u8
    ensures { result ≡ owner_of e }
{
    match e {
        Event::Send { sender, .. } => sender,
        Event::Handover { owner, .. } => owner,
        Event::Stop { controller, .. } => controller,
    }
}

// The index of a controller, and of some controller where there is none of that number.
pub fn seat(controller: u8) -> usize
    ensures { result ≡ seat_of controller }
{
    (controller as usize)
        .saturating_sub(1)
        .min(Table::CONTROLLERS - 1)
}

// The indices of the controllers that a record names. A local read has its controller for both.
#[derive(Clone, Copy)]
pub struct Places {
    pub subject: usize,
    pub owner: usize,
}

#[tactic(auto, unfolding(crate::specs::Parties::indices_of))]
pub fn indices(a: Command) -> Places
    ensures { result ≡ indices_of a }
{
    match a {
        Command::Act(e) => Places {
            subject: seat(subject(e)),
            owner: seat(owner(e)),
        },
        Command::Read(c) => Places {
            subject: seat(c),
            owner: seat(c),
        },
    }
}

// The two controllers that a record names, out of all.
#[tactic(auto, using(crate::proofs::Seats::indices_low), unfolding(crate::specs::Parties::hand_of))]
pub fn at_hand(controllers: &[Controller; Table::CONTROLLERS], a: Command) -> Parties<'_>
    ensures { both result ≡ hand_of controllers.now a }
{
    let places = indices(a);
    Parties {
        subject: &controllers[places.subject],
        owner: &controllers[places.owner],
    }
}

// WHAT EACH KIND DOES. A slot is below 64 and a place below 256 in each: a type for either, with its own proof at each place that makes
// one, is no plainer than the two bounds.

// One entry more at the end of a log.
fn add_entry(c: &mut Controller, slot: usize)
    requires { slot < capacity }
    ensures { c.old.length < capacity → c.new ≡ with_entry c.old slot }
{
    let end = c.length.min(Table::MESSAGES - 1);
    c.log[end] = slot as u8;
    c.length = end + 1;
}

// A slot buffered with these marks, and a place in the owner's log marked. Marks go by value: a rule of the project.
fn set_mark(
    c: &mut Controller,
    slot: usize,
    mut marks: [ForwardNumber; Table::CONTROLLERS],
    owner: u8,
    place: usize,
)
    requires { (slot < capacity) × (place < 256) }
    ensures { Among seats owner → c.new ≡ with_mark c.old slot marks owner place }
{
    marks[seat(owner)] = ForwardNumber::of(place as u8);
    c.pending[slot] = Pending { held: 1, marks };
}

// A slot ends the log and is buffered, with one mark.
fn buffer(c: &mut Controller, slot: usize, owner: u8, place: usize)
    requires { (slot < capacity) × (place < 256) }
    ensures { c.old.length < capacity → Among seats owner → c.new ≡ with_mark (with_entry c.old slot) slot unheld.marks owner place }
{
    add_entry(c, slot);
    set_mark(c, slot, Pending::UNHELD.marks, owner, place);
}

// The controller runs no longer, and its log has the entries kept.
fn stop(c: &mut Controller, kept: usize)
    ensures { c.new ≡ with_stop c.old kept }
{
    c.running = 0;
    c.length = kept;
}

// An entry of the owner's log is passed over, marked, or buffered and forwarded.
#[tactic(auto, unfolding(model::specs::Events::forward))]
fn forward(c: &mut Controller, m: &Message, slot: usize, owner: u8, place: usize)
    requires { (slot < capacity) × (place < 256) }
    ensures { Receivable c.old m.now slot owner → c.new ≡ forward c.old m.now slot owner place }
{
    if m.number <= c.highest[seat(m.sender)] {
        return;
    }
    let entry = c.pending[slot];
    if entry.is_held() {
        set_mark(c, slot, entry.marks, owner, place);
    } else {
        buffer(c, slot, owner, place);
    }
}

// The receiver, which is the subject, after it has read the next entry of the owner's log, and before it applies.
fn received(messages: Messages, p: Parties, owner: u8) -> Controller
    ensures { Readable messages.entry.slots.now p.entry.subject.now p.entry.owner.now owner → result ≡ received (all_of messages.entry) p.entry.subject.now p.entry.owner.now owner }
{
    let i = seat(owner);
    let mut c = *p.subject;
    let place = c.read[i].min(Table::MESSAGES - 1);
    c.read[i] = place + 1;
    let slot = (p.owner.log[place] as usize).min(Table::MESSAGES - 1);
    forward(&mut c, &messages.slots[slot], slot, owner, place + 1);
    c
}

// A message leaves the buffer and is applied.
#[tactic(auto, using(crate::proofs::Greater::greater_number), unfolding(crate::specs::Effects::with_applied))]
fn apply(c: &mut Controller, m: &Message, slot: usize)
    requires { slot < capacity }
    ensures { Among seats m.now.sender → c.new ≡ with_applied c.old m.now slot }
{
    let i = seat(m.sender);
    c.pending[slot] = Pending::UNHELD;
    c.applied[slot] = 1;
    c.highest[i] = c.highest[i].max(m.number);
}

// The members leave the buffer as one.
fn deliver(messages: Messages, c: &mut Controller, members: &[bool; Table::MESSAGES])
    ensures { SizedController c.old → Deliverable (all_of messages.entry) members.now → c.new ≡ deliver (all_of messages.entry) c.old members.now }
{
    for (slot, m) in messages.sent().iter().enumerate() {
        if members[slot] {
            apply(c, m, slot);
        }
    }
}

// THE EFFECT

// What an event answers, and its subject afterwards.
#[derive(Clone, Copy)]
pub struct Effect {
    pub answer: Answer,
    pub controller: Controller,
}

// The answer of a refusal, or of what applies nothing. The refusal goes by its number: the C interface.
#[tactic(auto, unfolding(crate::specs::Effects::no_set, model::specs::Calls::answer_of, lists::specs::Build::overlay))]
pub fn no_set(refusal: u8) -> Answer
    ensures { result ≡ no_set refusal }
{
    Answer {
        refusal,
        finished: 0,
        sums: Sums::zero(),
        size: 0,
        names: [Name::NONE; Table::MESSAGES],
    }
}

// The sums that the panel of a controller shows, which may not be in the table yet.
pub fn sums(t: &Table, c: &Controller) -> Sums
    ensures { result ≡ sums (messages_of t.now) c.now.applied }
{
    totals::sums(t.sent(), &c.applied)
}

// The effect of a command that applies nothing and leaves its subject as c, which is moved in. Whatever is accepted leaves scratch zero: here, in
// `read_answer`, or by the delivery rule of a handover.
pub fn quiet(c: Controller, scratch: &mut [u8]) -> Effect
    ensures { Quiet c scratch.old result scratch.new }
{
    delivery::clear(scratch);
    Effect {
        answer: no_set(refusal::ACCEPTED),
        controller: c,
    }
}

// What a local read answers: the sums that the panel of its controller, which is x, shows.
#[tactic(auto, unfolding(crate::specs::Effects::no_set, crate::specs::Effects::read_answer, model::specs::Calls::answer_of))]
pub fn read_answer(t: &Table, x: &Controller, scratch: &mut [u8]) -> Answer
    ensures { Reads t.now x.now scratch.old result scratch.new }
{
    let sums = sums(t, x);
    delivery::clear(scratch);
    Answer {
        sums,
        ..no_set(refusal::ACCEPTED)
    }
}

// A finished sync's answer, where this was applied; zeros where none is finished (the C interface has the flag beside the sums).
fn sync_answer(messages: Messages, applied: &[u8; Table::MESSAGES], finished: bool) -> Sums
    ensures { result ≡ cond finished (sums (all_of messages.entry) applied.now) no_sums }
{
    if finished {
        totals::sums(messages, applied)
    } else {
        Sums::zero()
    }
}

// One handover, to the receiver, which is the subject, from the log of the owner: an entry is read, and a set that is not empty is
// named and applied.
pub fn hand_over(
    n: usize,
    messages: Messages,
    p: Parties,
    receiver: u8,
    owner: u8,
    scratch: &mut [u8],
) -> Effect
    ensures { HandsOver n (all_of messages.entry) p.entry.subject.now p.entry.owner.now receiver owner scratch.old result scratch.new }
{
    let mut c = received(messages, p, owner);
    let members = delivery::apply(n, &c.pending, scratch);
    let all = naming::names_of(messages, &members);
    if all.size == 0 {
        return Effect {
            answer: no_set(refusal::ACCEPTED),
            controller: c,
        };
    }
    let finished = totals::finishes(messages, &members, receiver);
    deliver(messages, &mut c, &members);
    let sums = sync_answer(messages, &c.applied, finished);
    let names = all.names;
    Effect {
        answer: Answer {
            refusal: refusal::ACCEPTED,
            finished: u8::from(finished),
            sums,
            size: all.size,
            names,
        },
        controller: c,
    }
}

// What an event does to its subject, which reads the log of the owner.
pub fn carry_out(t: &Table, p: Parties, e: Event, scratch: &mut [u8]) -> Effect
    ensures { CarriesOut t.now e p.entry.subject.now p.entry.owner.now scratch.old result scratch.new }
{
    match e {
        Event::Send { sender, .. } => {
            let slot = t.count.min(Table::MESSAGES - 1);
            let mut c = *p.subject;
            let place = c.length.min(Table::MESSAGES - 1) + 1;
            buffer(&mut c, slot, sender, place);
            quiet(c, scratch)
        }
        Event::Handover { receiver, owner } => {
            hand_over(t.n, t.sent(), p, receiver, owner, scratch)
        }
        Event::Stop { kept, .. } => {
            let mut c = *p.subject;
            stop(&mut c, kept);
            quiet(c, scratch)
        }
    }
}

// The handover of a pair of controllers.
pub fn handover(pair: Pair) -> Event
    ensures { Among seats pair.receiver → Among seats pair.owner → result ≡ Event.Handover pair.receiver pair.owner }
{
    Event::Handover {
        receiver: pair.receiver.min(Table::CONTROLLERS) as u8,
        owner: pair.owner.min(Table::CONTROLLERS) as u8,
    }
}

// What an event does to its subject, where the controllers that it names stand in the table.
#[tactic(auto, using(crate::proofs::Seats::allowed_hand))]
pub fn act(t: &Table, e: Event, scratch: &mut [u8]) -> Effect
    ensures { Acts t.now e scratch.old result scratch.new }
{
    let p = at_hand(&t.controllers, Command::Act(e));
    carry_out(t, p, e, scratch)
}

// THE TABLE

// The date of a message that follows these, whose sender has applied what is flagged: that of a write is one more than its register
// has there.
#[tactic(auto, using(crate::proofs::WriteDates::date_read), unfolding(model::specs::Registers::date_of))]
fn date_of(messages: Messages, applied: &[u8; Table::MESSAGES], p: Payload) -> u16
    ensures { Dated (all_of messages.entry) → fair_register p ≡ true → result ≡ date_of (all_of messages.entry) applied.now p }
{
    if !p.is(Kind::Write) {
        return 0;
    }
    let i = (p.reg as usize).saturating_sub(1).min(Panel::REGISTERS - 1);
    let registers = totals::registers(messages, applied);
    let date = (registers[i].stamp.date as usize).min(Table::MESSAGES);
    date as u16 + 1
}

// The message that a send adds to these, where its sender is then c.
fn sent_message(messages: Messages, c: &Controller, sender: u8, payload: Payload) -> Message
    ensures { Sends (all_of messages.entry) c.now sender payload result }
{
    let number = MessageNumber::of(c.length.min(Table::MESSAGES) as u8);
    let date = date_of(messages, &c.applied, payload);
    Message::of(sender, number, date, payload)
}

// The messages, and how many they are: an array with its length beside it (no heap).
#[derive(Clone, Copy)]
pub struct Sent {
    pub count: usize,
    pub messages: [Message; Table::MESSAGES],
}

// The messages after a send, whose sender is then c.
pub fn with_sent(messages: Messages, c: &Controller, sender: u8, payload: Payload) -> Sent
    ensures { Adds (all_of messages.entry) c.now sender payload result }
{
    let slot = messages.count.min(Table::MESSAGES - 1);
    let mut next = *messages.slots;
    next[slot] = sent_message(messages, c, sender, payload);
    Sent {
        count: slot + 1,
        messages: next,
    }
}

// Stores what an event leaves: its subject as c, which is moved in, and the message of a send.
pub fn store(t: &mut Table, e: Event, c: Controller)
    ensures { Stores t.old e c t.new }
{
    let i = seat(subject(e));
    if let Event::Send { sender, payload } = e {
        let sent = with_sent(t.sent(), &c, sender, payload);
        let messages = sent.messages;
        t.count = sent.count;
        t.messages = messages;
    }
    t.controllers[i] = c;
}

// The table after an event that leaves its subject as c. By value, as the by-value event call has it: a rule of the project.
pub fn stored(mut t: Table, e: Event, c: Controller) -> Table
    ensures { Stores t e c result }
{
    store(&mut t, e, c);
    t
}
