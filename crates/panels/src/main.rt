// Reads a run file on standard input and prints what each panel applied: the number of controllers, a line for each set,
// and the events accepted with the refusal number.
#![tactic(auto)]

ghost use Rattle.std.specs.Prelude.{◌≡◌, ◌≤◌, ◌&&◌, leb, length, take, IfOk};
ghost use Rattle.std.specs.Io.KnownBytes.{Consumes};
ghost use Rattle.model.specs.Tables.{scratch_size};
ghost use Rattle.panels.specs.Printed.{text_size, printed};

use model::Table;
use model::refusal::Refusal;
use std::io;
use std::io::{ErrorKind, Read, Write};

// The bytes that stand first, all of them where there are fewer.
#[tactic(auto, using(std::proofs::lemmas::List::take_min))]
fn first(bytes: &[u8], size: usize) -> &[u8]
    ensures { result.now ≡ take size bytes.now }
{
    &bytes[..size.min(bytes.len())]
}

// The header line of a number of one digit.
const HEADER: usize = 14;

const LISTING: usize = 16384;

// The longest end line: numbers of 20 and 3 bytes, a word of 3, two spaces and the end of the line.
const FOOTER: usize = 29;

const TEXT: usize = HEADER + LISTING + FOOTER;

// Whether it is the number (the run's answer has no more: the C interface) of one of questions 1 to 3, which are put to a file, and not to its records.
fn is_early(number: u8) -> bool
    ensures { result ≡ (leb 1 number && leb number 3) }
{
    (u8::from(Refusal::FileLength)..=u8::from(Refusal::ControllerCount)).contains(&number)
}

// Writes what is to be printed of a file, and answers how many bytes that is. The run comes first, since its refusal tells whether
// there is a header line: not of a file that questions 1 to 3 refuse. The number of controllers is the file's second byte. The run's
// table has it too, but with that read the compiler would keep a second table. The text has room for each line.
fn report(file: &[u8], text: &mut [u8], scratch: &mut [u8]) -> usize
    requires { (length text.old ≡ text_size) × (length scratch.old ≡ scratch_size) }
    ensures { take result text.new ≡ printed file.now }
{
    let run = files::run(file, &mut text[HEADER..HEADER + LISTING], scratch);
    if is_early(run.refusal) {
        return listing::put_footer(text, run.events, run.refusal).unwrap();
    }
    listing::put_header(text, records::byte_at(file, 1)).unwrap();
    let end = HEADER + run.written;
    let tail = listing::put_footer(&mut text[end..], run.events, run.refusal).unwrap();
    end + tail
}

// Reads until the buffer is full or the input ends, and answers how many bytes stand in the buffer then. A read that was interrupted
// is made again. The loop counts attempts: a `while` would have no measure, since any number of reads may be interrupted.
fn read_full<R: Read>(input: &mut R, buffer: &mut [u8]) -> io::Result<usize>
    ensures bound { IfOk result (λ n. n ≤ length buffer.new) }
    ensures bytes { IfOk result (λ n. Consumes (R.remaining input.old) (R.remaining input.new) (take n buffer.new)) }
{
    let mut done = 0;
    for _ in 0..u64::MAX {
        if done == buffer.len() {
            break;
        }
        match input.read(&mut buffer[done..]) {
            Ok(0) => break,
            Ok(n) => done += n,
            Err(e) if e.kind() == ErrorKind::Interrupted => {}
            Err(e) => return Err(e),
        }
    }
    Ok(done)
}

// One byte more than the longest file has, so that a longer one is seen to be too long.
const INPUT: usize = Table::LONGEST_FILE + 1;

fn main(rt: HostRuntime) -> io::Result<()> {
    let mut input = [0u8; INPUT];
    let size = read_full(&mut rt.reader(), &mut input)?;
    let mut text = [0u8; TEXT];
    let mut scratch = [0u8; Table::SCRATCH];
    let written = report(&input[..size], &mut text, &mut scratch);
    io::writer(&rt).write_all(first(&text, written))
}
