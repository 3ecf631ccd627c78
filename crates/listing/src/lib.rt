// The lines of a listing, each written into the tail of the listing after the line before.
#![tactic(auto)]

ghost use Rattle.std.specs.Prelude.{◌≡◌, ℕ, List, [], ◌∷◌, ◌++◌, ◌+◌, ◌*◌, ◌≤◌, ◌<◌, length, take};
ghost use Rattle.model.specs.Tables.{capacity};
ghost use Rattle.model.specs.Runs.{sum_fields, name_fields, line, header, footer};
ghost use Rattle.listing.specs.Writing.{line_size, Wrote};

use itoa::{Buffer, Integer};
use model::refusal::Refusal;
use model::{Name, Sums, Table};
use std::marker::Model;

// The longest line: numbers of 20, 3, 10 and 10 bytes, three spaces, 8 bytes for each name, and the end of the line.
const LINE: usize = 47 + 8 * Table::MESSAGES;

// A line that is put together part by part, in an array that has room for the longest one (no heap): the bytes that stand in it so far.
// How much room a part needs differs from part to part, so each says it.
#[derive(Drop)]
struct Line {
    bytes: [u8; LINE],
    size: usize,
}

impl Model for Line {
    ghost Value = { List ℕ };

    ghost view = { λ l. take l.size l.bytes };

    ghost invariant = { λ l. l.size ≤ line_size };
}

impl Line {
    fn new() -> Line
        ensures { result ≡ [] }
    {
        Line {
            bytes: [0; LINE],
            size: 0,
        }
    }

    fn push_text(&mut self, text: &[u8])
        requires { length self.old + length text.now ≤ line_size }
        ensures { self.new ≡ self.old ++ text.now }
    {
        let end = self.size + text.len();
        self.bytes[self.size..end].copy_from_slice(text);
        self.size = end;
    }

    // A number in decimal. Its digits come from a buffer, since of `write!` no clause says that it succeeds where there is room.
    fn push_number<I: Integer>(&mut self, x: I)
        requires { length self.old + I.MAX_STR_LEN ≤ line_size }
        ensures text { self.new ≡ self.old ++ I.text x }
        ensures size { length self.new ≤ length self.old + I.MAX_STR_LEN }
    {
        let mut digits = Buffer::new();
        self.push_text(digits.format(x).as_bytes());
    }

    // A byte and then a number.
    fn push_field<I: Integer>(&mut self, b: u8, x: I)
        requires { length self.old + I.MAX_STR_LEN < line_size }
        ensures text { self.new ≡ self.old ++ (b ∷ I.text x) }
        ensures size { length self.new ≤ length self.old + I.MAX_STR_LEN + 1 }
    {
        self.push_text(&[b]);
        self.push_number(x);
    }

    // The two sums, with a space before each.
    fn push_sums(&mut self, sums: Sums)
        requires { length self.old + 22 ≤ line_size }
        ensures text { self.new ≡ self.old ++ sum_fields sums }
        ensures size { length self.new ≤ length self.old + 22 }
    {
        self.push_field(b' ', sums.added);
        self.push_field(b' ', sums.withdrawn);
    }

    // A name, with a space before it.
    fn push_name(&mut self, name: &Name)
        requires { length self.old + 8 ≤ line_size }
        ensures text { self.new ≡ self.old ++ name_fields (name.now ∷ []) }
        ensures size { length self.new ≤ length self.old + 8 }
    {
        self.push_field(b' ', name.sender);
        self.push_field(b'.', name.number.0);
    }

    fn push_names(&mut self, names: &[Name])
        requires { length self.old + 8 * length names.now ≤ line_size }
        ensures text { self.new ≡ self.old ++ name_fields names.now }
        ensures size { length self.new ≤ length self.old + 8 * length names.now }
    {
        for name in names {
            self.push_name(name);
        }
    }

    // Ends the line, and writes it at the front of the tail, where it fits.
    fn end(&mut self, tail: &mut [u8]) -> Result<usize, Refusal>
        requires { length self.old < line_size }
        ensures { Wrote (self.old ++ (10 ∷ [])) tail.old tail.new result }
    {
        self.push_text(b"\n");
        let text = &self.bytes[..self.size];
        if tail.len() < text.len() {
            return Err(Refusal::Listing);
        }
        tail[..text.len()].copy_from_slice(text);
        Ok(text.len())
    }
}

// Writes the line of an event whose set has these names, at most the first 64 of them, at the front of the tail.
#[tactic(auto, using(crate::proofs::Lines::line_printed, std::proofs::lemmas::List::take_min))]
pub fn put_line(
    tail: &mut [u8],
    event: usize,
    controller: u8,
    sums: Sums,
    names: &[Name],
) -> Result<usize, Refusal>
    ensures { Wrote (line event controller sums (take capacity names.now)) tail.old tail.new result }
{
    let mut line = Line::new();
    line.push_number(event);
    line.push_field(b' ', controller);
    line.push_sums(sums);
    line.push_names(&names[..Table::MESSAGES.min(names.len())]);
    line.end(tail)
}

// Writes the line that stands before the listing of n controllers. (Beside `put_footer`: each is a text of its own, and one of both is no
// plainer.)
#[tactic(auto, using(crate::proofs::Lines::printed), unfolding(model::specs::Runs::header))]
pub fn put_header(tail: &mut [u8], n: u8) -> Result<usize, Refusal>
    ensures { Wrote (header n) tail.old tail.new result }
{
    let mut line = Line::new();
    line.push_text(b"controllers ");
    line.push_number(n);
    line.end(tail)
}

// Writes the line that stands after the listing: the events accepted and the refusal number, 0 if there is none. Any number may be given,
// which may not change.
#[tactic(auto, using(crate::proofs::Lines::footer_printed))]
pub fn put_footer(tail: &mut [u8], events: usize, refusal: u8) -> Result<usize, Refusal>
    ensures { Wrote (footer events refusal) tail.old tail.new result }
{
    let mut line = Line::new();
    line.push_text(b"end ");
    line.push_number(events);
    line.push_field(b' ', refusal);
    line.end(tail)
}
