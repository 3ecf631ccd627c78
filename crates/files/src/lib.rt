// The file run: its records one after the other, each carried out, listed and stored in place, until the first refusal.
#![tactic(auto)]

ghost use Rattle.std.specs.Prelude.{◌≡◌, length, take};
ghost use Rattle.model.specs.Tables.{capacity, messages_of};
ghost use Rattle.model.specs.Events.{subject, sums};
ghost use Rattle.model.specs.Refusals.{refusal_in};
ghost use Rattle.model.specs.Questions.{first_no, file_questions};
ghost use Rattle.model.specs.Runs.{line_of};
ghost use Rattle.listing.specs.Writing.{Wrote};
ghost use Rattle.files.specs.FileRun.{Runs};
ghost use Rattle.files.specs.Turns.{header_of, file_refusal, opened_of, at_start, answer_at, SumsAnswered, Before, Turned, Ran};

use effects::Effect;
use model::refusal::Refusal;
use model::{Command, Event, RunAnswer, Sums, Table, refusal};

// How far a run has come: the events accepted and the bytes listed.
#[derive(Clone, Copy)]
struct Cursor {
    events: usize,
    written: usize,
}

impl Cursor {
    // Nothing is read yet.
    const START: Cursor = Cursor {
        events: 0,
        written: 0,
    };

    // What a run answers that has come so far.
    #[inline(always)]
    #[tactic(auto, unfolding(crate::specs::Turns::answer_at))]
    fn answered(self, outcome: Result<(), Refusal>, table: Table) -> RunAnswer
        ensures { result ≡ answer_at self (refusal_in outcome) table }
    {
        RunAnswer {
            refusal: refusal::number_of(&outcome),
            events: self.events,
            written: self.written,
            table,
        }
    }
}

// The sums that a line lists: a finished sync's answer has them already, and its flag says so (the C interface).
fn listed_sums(t: &Table, done: &Effect) -> Sums
    requires { SumsAnswered t.now done.now }
    ensures { result ≡ sums (messages_of t.now) done.now.controller.applied }
{
    if done.answer.finished != 0 {
        return done.answer.sums;
    }
    effects::sums(t, &done.controller)
}

// Lists what an event applied. No line for an empty set.
fn list_line(
    tail: &mut [u8],
    event: usize,
    e: Event,
    t: &Table,
    done: &Effect,
) -> Result<usize, Refusal>
    requires answered { SumsAnswered t.now done.now }
    requires whole { length done.now.answer.names ≡ capacity }
    ensures { Wrote (line_of event (subject e) (sums (messages_of t.now) done.now.controller.applied) (take done.now.answer.size done.now.answer.names)) tail.old tail.new result }
{
    let size = done.answer.size.min(Table::MESSAGES);
    if size == 0 {
        return Ok(0);
    }
    let names = &done.answer.names[..size];
    listing::put_line(
        tail,
        event,
        effects::subject(e),
        listed_sums(t, done),
        names,
    )
}

// Carries out the record that the bytes left begin with, lists it and stores it, and answers how many bytes it takes. A local read
// has no line, and its sums are not asked for. A refusal leaves the table and how far the run has come as they were.
fn turn(
    cursor: &mut Cursor,
    t: &mut Table,
    left: &[u8],
    listing: &mut [u8],
    scratch: &mut [u8],
) -> Result<usize, Refusal>
    requires { Before cursor.old t.old left.now listing.old }
    ensures { Turned cursor.old t.old left.now listing.old scratch.old result cursor.new t.new listing.new scratch.new }
{
    let found = records::read_record(t.version, left)?;
    events::step_refusal(t, found.command, scratch.len())?;
    match found.command {
        Command::Act(e) => {
            let p = effects::at_hand(&t.controllers, found.command);
            let done = effects::carry_out(t, p, e, scratch);
            let tail = &mut listing[cursor.written..];
            let line = list_line(tail, cursor.events + 1, e, t, &done)?;
            cursor.written += line;
            effects::store(t, e, done.controller);
        }
        Command::Read(_) => delivery::clear(scratch),
    }
    cursor.events += 1;
    Ok(found.used)
}

// Carries out the records of a file, from its third byte on, until the first refusal. The table of a run is not copied from record
// to record: an event's changes are stored in place.
fn run_records(
    cursor: &mut Cursor,
    table: &mut Table,
    bytes: &[u8],
    listing: &mut [u8],
    scratch: &mut [u8],
) -> Result<(), Refusal>
    requires asked { first_no (file_questions bytes.now) ≡ 0 }
    requires begun { cursor.old ≡ at_start }
    requires opened { table.old ≡ opened_of bytes.now }
    ensures { Ran bytes.now listing.old scratch.old (answer_at cursor.new (refusal_in result) table.new) listing.new scratch.new }
{
    let mut left = records::rest(bytes, 2);
    while !left.is_empty() {
        let used = turn(cursor, table, left, listing, scratch)?;
        left = records::rest(left, used);
    }
    Ok(())
}

// The first two bytes of a file: its version, and the number of controllers.
#[derive(Clone, Copy)]
struct Header {
    version: usize,
    n: usize,
}

#[tactic(auto, unfolding(crate::specs::Turns::header_of))]
fn read_header(bytes: &[u8]) -> Header
    ensures { result ≡ header_of bytes.now }
{
    Header {
        version: records::byte_at(bytes, 0) as usize,
        n: records::byte_at(bytes, 1) as usize,
    }
}

// The first no of questions 1 to 3, of a file with that many bytes, and its first two.
#[tactic(auto, unfolding(model::specs::Questions::first_no, crate::specs::Turns::file_refusal))]
fn file_refusal(size: usize, head: Header) -> Result<(), Refusal>
    ensures { refusal_in result ≡ file_refusal size head.version head.n }
{
    if !(2..=Table::LONGEST_FILE).contains(&size) {
        return Err(Refusal::FileLength);
    }
    events::fresh_refusal(head.version, head.n)
}

// Carries out a run file and lists the sets applied.
#[tactic(auto, unfolding(model::specs::Questions::file_questions, crate::specs::Turns::header_of, crate::specs::Turns::file_refusal))]
pub fn run(bytes: &[u8], listing: &mut [u8], scratch: &mut [u8]) -> RunAnswer
    ensures { Runs bytes.now listing.old scratch.old result listing.new scratch.new }
{
    let head = read_header(bytes);
    let mut cursor = Cursor::START;
    if let Err(refusal) = file_refusal(bytes.len(), head) {
        let table = Table::opened(u8::from(refusal), 0, 0);
        return cursor.answered(Err(refusal), table);
    }
    let mut table = Table::opened(refusal::ACCEPTED, head.version, head.n);
    let outcome = run_records(&mut cursor, &mut table, bytes, listing, scratch);
    cursor.answered(outcome, table)
}
