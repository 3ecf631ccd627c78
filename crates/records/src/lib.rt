// The record cutter and the decoder: what the bytes of a run file say, before any table is asked.
#![tactic(auto)]

ghost use Rattle.std.specs.Prelude.{◌≡◌, ◌+◌, ◌<◌, [], ◌∷◌, drop, IfOk, IfErr};
ghost use Rattle.model.specs.Kinds.{kind_number};
ghost use Rattle.model.specs.Records.{byte, word, long, size_of, report_class, reported, decode};
ghost use Rattle.model.specs.Refusals.{refusal_in};
ghost use Rattle.model.specs.Questions.{first_no, kind_questions, record_questions};
ghost use Rattle.records.specs.Cuts.{cut, found, longest_record, record_of, record_refusal};

use model::refusal::Refusal;
use model::{Command, Event, Kind, Payload, Table};

// A record that was read: how many bytes it takes, its length byte among them, and what it asks for.
#[derive(Clone, Copy)]
pub struct Record {
    pub used: usize,
    pub command: Command,
}

// A record that question 5, 6 or 7 refuses, of which no byte is used: the refusal, and what the record would have asked for.
#[derive(Clone, Copy)]
pub struct RefusedRecord {
    pub refusal: Refusal,
    pub command: Command,
}

impl From<RefusedRecord> for Refusal {
    ghost from_gives = { λ e r. r ≡ e.refusal };

    fn from(refused: RefusedRecord) -> Refusal {
        refused.refusal
    }
}

// A byte; 0 past the end.
pub fn byte_at(bytes: &[u8], i: usize) -> u8
    ensures { result ≡ byte bytes.now i }
{
    bytes.get(i).copied().unwrap_or(0)
}

// Cuts off the record at the head of the bytes: if it is whole, this many bytes follow its length byte.
#[tactic(auto, unfolding(model::specs::Questions::first_no))]
fn cut_record(bytes: &[u8]) -> Option<usize>
    ensures { found result ≡ cut bytes.now }
{
    let size = byte_at(bytes, 0) as usize;
    if size < bytes.len() { Some(size) } else { None }
}

// What is left after that many bytes; nothing where there are fewer.
pub fn rest(bytes: &[u8], used: usize) -> &[u8]
    ensures { result.now ≡ drop used bytes.now }
{
    bytes.get(used..).unwrap_or(&[])
}

// The length of a record of a kind, in files of a version. A report of version 2 has a class byte more.
#[tactic(auto, unfolding(model::specs::Records::size_of))]
fn size_of_kind(version: usize, kind: Kind) -> usize
    ensures { result ≡ size_of version (kind_number kind) }
{
    match kind {
        Kind::Report if version == Table::CLASSED => 5,
        Kind::Report | Kind::Stop => 4,
        Kind::Sync | Kind::Read => 2,
        Kind::Handover => 3,
        Kind::Write => 7,
    }
}

// Questions 6 and 7, of a record of this many bytes after its length byte: is there a kind with this number, and is the length that of
// the kind?
#[tactic(auto, unfolding(model::specs::Questions::first_no, model::specs::Questions::kind_questions))]
fn kind_refusal(version: usize, size: usize, number: u8) -> Result<(), Refusal>
    ensures { refusal_in result ≡ first_no (kind_questions version size number) }
{
    if size == 0 {
        return Err(Refusal::Kind);
    }
    let kind = Kind::try_from(number)?;
    if size != size_of_kind(version, kind) {
        return Err(Refusal::RecordLength);
    }
    Ok(())
}

// Two bytes, the high one first; past the end a byte is 0, which no method of the library has. (`long_at` likewise: one of both is no
// plainer.)
fn word_at(bytes: &[u8], i: usize) -> u16
    requires { i < longest_record }
    ensures { result ≡ word bytes.now i }
{
    u16::from_be_bytes([byte_at(bytes, i), byte_at(bytes, i + 1)])
}

// Four bytes, the high one first.
fn long_at(bytes: &[u8], i: usize) -> u32
    requires { i + 2 < longest_record }
    ensures { result ≡ long bytes.now i }
{
    u32::from_be_bytes([
        byte_at(bytes, i),
        byte_at(bytes, i + 1),
        byte_at(bytes, i + 2),
        byte_at(bytes, i + 3),
    ])
}

// The class of a report: the byte after the amount in version 2, and 0 in version 1.
#[tactic(auto, unfolding(model::specs::Records::report_class))]
fn class_of(version: usize, bytes: &[u8]) -> u8
    ensures { result ≡ report_class version bytes.now }
{
    if version == Table::CLASSED {
        byte_at(bytes, 5)
    } else {
        0
    }
}

// A report of a class and of the amount that two bytes in two's complement name.
#[tactic(auto, unfolding(model::specs::Records::reported))]
fn report_of(class: u8, x: u16) -> Payload
    ensures { result ≡ reported class x }
{
    let amount = x.cast_signed();
    let magnitude = amount.unsigned_abs();
    if amount < 0 {
        Payload::report(class, 0, magnitude)
    } else {
        Payload::report(class, magnitude, 0)
    }
}

// What a record asks for, if it has a kind and that kind's length; what is no kind is taken for a local read.
#[tactic(auto, unfolding(model::specs::Records::decode))]
fn decode_record(version: usize, bytes: &[u8]) -> Command
    ensures { result ≡ decode version bytes.now }
{
    let first = byte_at(bytes, 2);
    match Kind::try_from(byte_at(bytes, 1)) {
        Ok(Kind::Report) => Command::Act(Event::Send {
            sender: first,
            payload: report_of(class_of(version, bytes), word_at(bytes, 3)),
        }),
        Ok(Kind::Sync) => Command::Act(Event::Send {
            sender: first,
            payload: Payload::sync(),
        }),
        Ok(Kind::Handover) => Command::Act(Event::Handover {
            receiver: first,
            owner: byte_at(bytes, 3),
        }),
        Ok(Kind::Stop) => Command::Act(Event::Stop {
            controller: first,
            kept: word_at(bytes, 3) as usize,
        }),
        Ok(Kind::Write) => Command::Act(Event::Send {
            sender: first,
            payload: Payload::write(byte_at(bytes, 3) as u16, long_at(bytes, 4)),
        }),
        Ok(Kind::Read) | Err(_) => Command::Read(first),
    }
}

// Cuts off the record at the head of the bytes, puts questions 5 to 7 to it and decodes it, as files of a version have it. A record that
// is refused is decoded too.
#[tactic(auto, unfolding(model::specs::Questions::first_no, model::specs::Questions::record_questions))]
pub fn read_record(version: usize, bytes: &[u8]) -> Result<Record, RefusedRecord>
    ensures asked { record_refusal result ≡ first_no (record_questions version bytes.now) }
    ensures found { IfOk result (λ r. r ≡ record_of version bytes.now) }
    ensures refused { IfErr result (λ r. r.command ≡ decode version bytes.now) }
{
    let command = decode_record(version, bytes);
    let Some(size) = cut_record(bytes) else {
        return Err(RefusedRecord {
            refusal: Refusal::Record,
            command,
        });
    };
    if let Err(refusal) = kind_refusal(version, size, byte_at(bytes, 1)) {
        return Err(RefusedRecord { refusal, command });
    }
    Ok(Record {
        used: size + 1,
        command,
    })
}
