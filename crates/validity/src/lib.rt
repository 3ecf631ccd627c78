// Question 4: whether a table is well formed. What a clause asks of every message, log entry or slot is read in one pass
// into flags, so that no clause searches; a name, a stamp, a log entry and a sender each have a flag or a number of their own.
// Short tests of many places are joined by a `fold`: with no way out before the end, the compiler tests many places at once.
#![tactic(auto)]

ghost use Rattle.std.specs.Prelude.{◌≡◌, ◌&&◌, suc, ◌≤◌, length, get_or, eqb};
ghost use Rattle.lists.specs.Below.{all};
ghost use Rattle.lists.specs.Build.{tabulate};
ghost use Rattle.model.specs.Tables.{seats, capacity, none};
ghost use Rattle.model.specs.Facts.{greatest_applied};
ghost use Rattle.model.specs.Fair.{fair_date};
ghost use Rattle.model.specs.WellFormed.{good_message, good_messages, good_places, well_formed};
ghost use Rattle.validity.specs.Parts.{all_sent, keeps_own, good_alone, good_with};
ghost use Rattle.validity.specs.Flags.{own_test, good_entry, good_slot, slot_test};
ghost use Rattle.validity.specs.Reads.{each_write, ReadsWrites, ReadsLog, ReadsBuffer};

mod handed;

use handed::{AllowedMarks, Run, Writes};
use model::{Controller, Kind, Message, MessageNumber, Panel, Pending, Table};

// MESSAGES

// A write has a date from 1 to the count of messages; every other message has none.
#[tactic(auto, unfolding(model::specs::Fair::fair_date))]
fn fair_date(count: usize, m: &Message) -> bool
    ensures { result ≡ fair_date count m.now }
{
    let date = m.date as usize;
    if m.payload.is(Kind::Write) {
        return (1..=count).contains(&date);
    }
    date == 0
}

#[tactic(auto, unfolding(model::specs::WellFormed::good_message))]
fn good_message(version: usize, n: usize, count: usize, m: &Message) -> bool
    ensures { result ≡ good_message version n count m.now }
{
    let number = m.number.0 as usize;
    let named = Controller::is_among(n, m.sender as usize);
    let write = m.payload.fair_register() & fair_date(count, m);
    let fair = m.payload.fair_amount() & (m.payload.fair_class(version) & write);
    named & ((1..=Table::MESSAGES).contains(&number) & fair)
}

// Senders and numbers count from 1, and 0 has a place too.
const SENDERS: usize = Table::CONTROLLERS + 1;

const NUMBERS: usize = Table::MESSAGES + 1;

// A name has a code of its own, below this. (Books have the same of names that may be out of range, and clip them.)
const CODES: usize = SENDERS * NUMBERS;

// Makes what `Run` carries on, so that its two bounds are asked here alone. (Of names, stamps and log entries each has flags of its own:
// what the three have in common is one test, and a type for it is no plainer.)
fn good_messages(version: usize, n: usize, sent: &[Message]) -> bool
    requires { (n ≤ seats) × (length sent.now ≤ capacity) }
    ensures { result ≡ good_messages version n (all_sent sent.now) }
{
    let mut seen = [false; CODES];
    for m in sent {
        if !good_message(version, n, sent.len(), m) {
            return false;
        }
        let code = (m.sender as usize) * NUMBERS + (m.number.0 as usize);
        if seen[code] {
            return false;
        }
        seen[code] = true;
    }
    true
}

// WRITES

// Registers count from 1, and 0 has a place too.
const REGISTERS: usize = Panel::REGISTERS + 1;

// A write's sender, register and date have a code of their own, below this.
const STAMPS: usize = SENDERS * REGISTERS * NUMBERS;

// No two writes of one sender and register have the same date.
fn each_write(run: Run) -> bool
    ensures { result ≡ each_write (length run.entry.sent.now) run.entry.sent.now }
{
    let mut stamps = [false; STAMPS];
    for m in run.sent {
        if !m.payload.is(Kind::Write) {
            continue;
        }
        let pair = (m.sender as usize) * REGISTERS + (m.payload.reg as usize);
        let code = pair * NUMBERS + (m.date as usize);
        if stamps[code] {
            return false;
        }
        stamps[code] = true;
    }
    true
}

// The writes of a run, if no two of them have the same stamp. Dates are looked at only where there is a write.
fn read_writes(run: Run) -> Option<Writes>
    ensures { ReadsWrites run.entry.sent.now result }
{
    let mut senders = [0; Table::MESSAGES];
    let mut end = 0;
    for (s, m) in run.sent.iter().enumerate() {
        if !m.payload.is(Kind::Write) {
            continue;
        }
        senders[s] = m.sender;
        end = s + 1;
    }
    if (end != 0) && !each_write(run) {
        return None;
    }
    Some(Writes { end, senders })
}

// A running controller has each write that it sent pending or applied.
fn own_kept(
    writes: &Writes,
    who: usize,
    running: bool,
    held: &[bool; Table::MESSAGES],
    applied: &[u8; Table::MESSAGES],
) -> bool
    ensures { result ≡ all writes.now.end (own_test writes.now.senders who running held.now applied.now) }
{
    writes.senders[..writes.end]
        .iter()
        .zip(held)
        .zip(applied)
        .fold(true, |good, ((sender, held), applied)| {
            let own = (*sender as usize) == who;
            (!own | (!running | (*held | (0 < *applied)))) & good
        })
}

// LOGS

// Which slots a log names, if its entries are good.
fn read_log(run: Run, c: &Controller) -> Option<[bool; Table::MESSAGES]>
    ensures { ReadsLog (length run.entry.sent.now) c.now result }
{
    if Table::MESSAGES < c.length {
        return None;
    }
    let mut logged = [false; Table::MESSAGES];
    for entry in &c.log[..c.length] {
        let slot = *entry as usize;
        if (run.sent.len() <= slot) || logged[slot] {
            return None;
        }
        logged[slot] = true;
    }
    Some(logged)
}

// No read position passes the end of the log that it is in.
fn good_places(run: Run, controllers: &[Controller; Table::CONTROLLERS], c: &Controller) -> bool
    ensures { result ≡ good_places run.entry.n controllers.now c.now }
{
    c.read[..run.n].iter().zip(controllers).fold(
        true,
        |good, (place, owner)| (*place <= owner.length) & good,
    )
}

// BUFFERS

// The marks of a message that is not in the buffer are not read.
#[tactic(auto, unfolding(crate::specs::Flags::good_entry))]
fn good_entry(run: Run, allowed: &AllowedMarks, p: &Pending) -> bool
    ensures { result ≡ good_entry run.entry.n p.now }
{
    if !p.is_held() {
        return true;
    }
    p.marks
        .iter()
        .take(run.n)
        .fold(true, |good, mark| allowed.allows(*mark) & good)
}

// Which slots are in a buffer, if its entries are good.
fn read_buffer(
    run: Run,
    allowed: &AllowedMarks,
    pending: &[Pending; Table::MESSAGES],
) -> Option<[bool; Table::MESSAGES]>
    ensures { ReadsBuffer run.entry.n pending.now result }
{
    let mut held = [false; Table::MESSAGES];
    for (s, p) in pending.iter().enumerate() {
        if !good_entry(run, allowed, p) {
            return None;
        }
        held[s] = p.is_held();
    }
    Some(held)
}

// A slot is pending or applied and not both, only if it is of the run, and of a running controller's slots exactly those
// that are logged.
#[tactic(auto, unfolding(crate::specs::Flags::good_slot))]
fn good_slot(inside: bool, running: bool, held: bool, done: bool, logged: bool) -> bool
    ensures { result ≡ good_slot inside running held done logged }
{
    let known = held | done;
    let exact = (logged & known) | (!logged & !known);
    !(held & done) & ((inside | !known) & (!running | exact))
}

fn good_slots(
    count: usize,
    running: bool,
    held: &[bool; Table::MESSAGES],
    applied: &[u8; Table::MESSAGES],
    logged: &[bool; Table::MESSAGES],
) -> bool
    ensures { result ≡ all capacity (slot_test count running held.now applied.now logged.now) }
{
    held.iter()
        .zip(applied)
        .zip(logged)
        .enumerate()
        .fold(true, |good, (s, ((held, done), logged))| {
            good_slot(s < count, running, *held, 0 < *done, *logged) & good
        })
}

// NUMBERS

// For each sender the greatest number among the messages that are flagged.
fn greatest_numbers(run: Run, flags: &[u8; Table::MESSAGES]) -> [u8; Table::CONTROLLERS]
    ensures { result ≡ tabulate seats (λ x. greatest_applied (all_sent run.entry.sent.now) flags.now (suc x)) }
{
    let mut greatest = [0; Table::CONTROLLERS];
    for (m, flag) in run.sent.iter().zip(flags) {
        let number = if 0 < *flag { m.number.0 } else { 0 };
        let found = &mut greatest[(m.sender as usize) - 1];
        *found = (*found).max(number);
    }
    greatest
}

fn good_highest(
    run: Run,
    highest: &[MessageNumber; Table::CONTROLLERS],
    greatest: &[u8; Table::CONTROLLERS],
) -> bool
    ensures { result ≡ all run.entry.n (λ x. eqb (get_or highest.now x none).0 (get_or greatest.now x 0)) }
{
    highest[..run.n]
        .iter()
        .zip(greatest)
        .fold(true, |good, (stored, found)| (stored.0 == *found) & good)
}

// THE TEST

// A controller, whose greatest number sent is known, and its writes; its read positions are tested where the other logs are at hand.
fn good_controller(
    run: Run,
    allowed: &AllowedMarks,
    sent: u8,
    writes: &Writes,
    who: usize,
    c: &Controller,
) -> bool
    ensures { result ≡ (good_alone run.entry.n (all_sent run.entry.sent.now) sent c.now && keeps_own writes.now.end writes.now.senders who c.now) }
{
    let Some(logged) = read_log(run, c) else {
        return false;
    };
    let Some(held) = read_buffer(run, allowed, &c.pending) else {
        return false;
    };
    let running = c.is_running();
    let greatest = greatest_numbers(run, &c.applied);
    let slots = good_slots(run.sent.len(), running, &held, &c.applied, &logged);
    let long = !running | ((sent as usize) <= c.length);
    let kept = own_kept(writes, who, running, &held, &c.applied);
    (slots & (good_highest(run, &c.highest, &greatest) & long)) & kept
}

fn each_controller(
    run: Run,
    writes: &Writes,
    controllers: &[Controller; Table::CONTROLLERS],
) -> bool
    ensures { result ≡ all run.entry.n (λ i. good_with run.entry.n (all_sent run.entry.sent.now) controllers.now writes.now.end writes.now.senders (suc i)) }
{
    let sent = greatest_numbers(run, &[1; Table::MESSAGES]);
    let allowed = AllowedMarks::new();
    for (i, c) in controllers[..run.n].iter().enumerate() {
        let who = i + 1;
        let places = good_places(run, controllers, c);
        if !(places & good_controller(run, &allowed, sent[i], writes, who, c)) {
            return false;
        }
    }
    true
}

// Ranges first, so that no clause reads past an array.
pub fn well_formed(t: &Table) -> bool
    ensures { result ≡ well_formed t.now }
{
    let some = (0 < t.n) & ((t.n <= Table::CONTROLLERS) & (t.count <= Table::MESSAGES));
    if !(Table::known(t.version) & some) {
        return false;
    }
    let sent = &t.messages[..t.count];
    if !good_messages(t.version, t.n, sent) {
        return false;
    }
    let run = Run {
        version: t.version,
        n: t.n,
        sent,
    };
    match read_writes(run) {
        Some(writes) => each_controller(run, &writes, &t.controllers),
        None => false,
    }
}
