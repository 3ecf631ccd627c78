// The table of all controllers, the events, and what the calls answer. The functions and other limits of these types: constructors.rt.
#![tactic(auto)]

mod constructors;
pub mod refusal;

impl Table {
    pub const CONTROLLERS: usize = 7;

    pub const MESSAGES: usize = 64;
}

impl Panel {
    // The four weight classes, and the class of reports that name none.
    pub const CLASSES: usize = 5;

    pub const REGISTERS: usize = 8;
}

// A place in a log (the source's sn_g), 1 to 64; 255 is absent (the C interface has no `Option`).
#[repr(C)]
#[derive(Clone, Copy, PartialEq, Eq, PartialOrd, Ord)]
pub struct ForwardNumber(pub u8);

// The number that a sender gives its message (the source's sn), 1 to 64; 0 is none (the C interface).
#[repr(C)]
#[derive(Clone, Copy, PartialEq, Eq, PartialOrd, Ord)]
pub struct MessageNumber(pub u8);

// The kinds of records, by their numbers.
#[derive(Clone, Copy, Debug, PartialEq, Eq)]
pub enum Kind {
    Report = 1,
    Sync = 2,
    Handover = 3,
    Stop = 4,
    Read = 5,
    Write = 6,
}

// What a message says, as its record does: the number of its kind (the C interface has no enum), a report, a sync or a write; a report's weight class, 0 for none; the
// amount is two magnitudes, at most one of them not 0; the register that a write sets, 0 for none, and the value.
#[repr(C)]
#[derive(Clone, Copy)]
pub struct Payload {
    pub kind: u8,
    pub class: u8,
    pub added: u16,
    pub withdrawn: u16,
    pub reg: u16,
    pub value: u32,
}

// A message that is scd-broadcast. Its index in the table is its slot. Its sender gives it a number and, if it is a write, a date.
#[repr(C)]
#[derive(Clone, Copy)]
pub struct Message {
    pub sender: u8,
    pub number: MessageNumber,
    pub date: u16,
    pub payload: Payload,
}

// The name of a message outside the table. Names are ordered by sender and then number.
#[repr(C)]
#[derive(Clone, Copy, PartialEq, Eq, PartialOrd, Ord)]
pub struct Name {
    pub sender: u8,
    pub number: MessageNumber,
}

// A buffered message: each controller's forward number for it. Flags are 0 for no and anything else for yes (the C interface).
#[repr(C)]
#[derive(Clone, Copy)]
pub struct Pending {
    pub held: u8,
    pub marks: [ForwardNumber; Table::CONTROLLERS],
}

// A process: what it has forwarded, read, buffered and scd-delivered. Logs hold slots; pending and applied go by slot. Each part is an
// array, the log with its length beside it, and whether it runs a flag (the C interface; no heap).
#[repr(C)]
#[derive(Clone, Copy)]
pub struct Controller {
    pub length: usize,
    pub log: [u8; Table::MESSAGES],
    pub read: [usize; Table::CONTROLLERS],
    pub pending: [Pending; Table::MESSAGES],
    pub applied: [u8; Table::MESSAGES],
    pub highest: [MessageNumber; Table::CONTROLLERS],
    pub running: u8,
}

// The whole machine: the version that its records are read in, how many controllers and messages there are, the messages in
// the order sent, the controllers. No field of a table, or of what stands in it, has padding before or after it. Arrays have their
// lengths beside them (the C interface; no heap).
#[repr(C)]
#[derive(Clone, Copy)]
pub struct Table {
    pub version: usize,
    pub n: usize,
    pub count: usize,
    pub messages: [Message; Table::MESSAGES],
    pub controllers: [Controller; Table::CONTROLLERS],
}

// The messages of a run, as functions are handed them: how many were sent, and the array that has them, each in its slot. Not a slice:
// a count above 64, of a table that is not well formed, is part of what is promised.
#[derive(Clone, Copy)]
pub struct Messages<'a> {
    pub count: usize,
    pub slots: &'a [Message; Table::MESSAGES],
}

// Two sums of amounts: of those above 0, and of those below 0 with the sign dropped.
#[repr(C)]
#[derive(Clone, Copy)]
pub struct Sums {
    pub added: u32,
    pub withdrawn: u32,
}

// A stamp (the source's timestamp): the date of a write, and its writer. Dates decide before writers.
#[repr(C)]
#[derive(Clone, Copy, PartialEq, Eq, PartialOrd, Ord)]
pub struct Stamp {
    pub date: u16,
    pub writer: u16,
}

// A register (set point): its value, and the stamp of the write that gave it. All is 0 until then.
#[repr(C)]
#[derive(Clone, Copy)]
pub struct Register {
    pub value: u32,
    pub stamp: Stamp,
}

// What a panel shows (the local counter and registers): the sums over what its controller has applied, those of each class, from 0
// for none, and the registers, from 1.
#[repr(C)]
#[derive(Clone, Copy)]
pub struct Panel {
    pub sums: Sums,
    pub classes: [Sums; Panel::CLASSES],
    pub registers: [Register; Panel::REGISTERS],
}

// What the single-event call answers: the refusal number, 0 if accepted; whether a sync of the receiver's own is in the
// set applied, and then its answer, the sums after the set; or the sums that a local read gives; how many messages are in
// the set, and their names, zeros after them. The C interface has refusals by number, flags, and an array with its length beside it.
#[repr(C)]
#[derive(Clone, Copy)]
pub struct Answer {
    pub refusal: u8,
    pub finished: u8,
    pub sums: Sums,
    pub size: usize,
    pub names: [Name; Table::MESSAGES],
}

// A handover by its numbers: the receiver, and the owner of the log that it reads.
#[repr(C)]
#[derive(Clone, Copy)]
pub struct Pair {
    pub receiver: usize,
    pub owner: usize,
}

// The controllers that an event reads: its subject, and the one whose log a handover reads. An event of another kind has its
// subject for both.
#[derive(Clone, Copy)]
pub struct Parties<'a> {
    pub subject: &'a Controller,
    pub owner: &'a Controller,
}

// What the dispatcher answers: the pair that it served, 0 and 0 if it served none, and what the event call answers of the handover.
#[repr(C)]
#[derive(Clone, Copy)]
pub struct DispatchAnswer {
    pub pair: Pair,
    pub answer: Answer,
}

// What an ask answers (a struct of the C interface): the refusal number, 0 if accepted; how many acts of the receiver there were; how many messages are in the set
// that the handover would apply, and their names, zeros after them.
#[repr(C)]
#[derive(Clone, Copy)]
pub struct AskAnswer {
    pub refusal: u8,
    pub acts: usize,
    pub size: usize,
    pub names: [Name; Table::MESSAGES],
}

// What a request for a fresh table answers (a struct of the C interface).
#[repr(C)]
#[derive(Clone, Copy)]
pub struct FreshAnswer {
    pub refusal: u8,
    pub table: Table,
}

// What a panel look answers (a struct of the C interface).
#[repr(C)]
#[derive(Clone, Copy)]
pub struct LookAnswer {
    pub refusal: u8,
    pub panel: Panel,
}

// What the count of "goes before" answers (a struct of the C interface): how many controllers have a smaller forward number for the one message than for the other.
#[repr(C)]
#[derive(Clone, Copy)]
pub struct CountAnswer {
    pub refusal: u8,
    pub count: usize,
}

// What a file run answers (a struct of the C interface): the refusal number, the events accepted, the listing bytes written and the last table.
#[repr(C)]
#[derive(Clone, Copy)]
pub struct RunAnswer {
    pub refusal: u8,
    pub events: usize,
    pub written: usize,
    pub table: Table,
}

// The events of Algorithm 1: a message is broadcast, an entry of a log is fifo-delivered, a process crashes.
#[derive(Clone, Copy)]
pub enum Event {
    Send { sender: u8, payload: Payload },
    Handover { receiver: u8, owner: u8 },
    Stop { controller: u8, kept: usize },
}

// What a record asks for: an event of Algorithm 1, or a local read (Algorithm 5), which changes nothing.
#[derive(Clone, Copy)]
pub enum Command {
    Act(Event),
    Read(u8),
}
