// The delivery rule: which buffered messages a controller applies (lines 15 and 16 of Algorithm 1).
#![tactic(auto)]

ghost use Rattle.std.specs.Prelude.{◌≡◌, length};
ghost use Rattle.model.specs.Tables.{capacity};
ghost use Rattle.model.specs.Delivery.{majority, mark_count, goes_before};
ghost use Rattle.model.specs.Calls.{cleared};
ghost use Rattle.delivery.specs.Apply.{Applied, Divided, Listed, Settled, named};

use model::{ForwardNumber, Pending, Table};

// More than half of n controllers.
#[tactic(auto, unfolding(model::specs::Delivery::majority))]
fn majority(n: usize) -> usize
    ensures { result ≡ majority n }
{
    n / 2 + 1
}

// How many of n controllers have forwarded the message, as far as is known here. This count and the next add up flags: `filter` with
// `count` branches at each mark, and takes a set found by many comparisons more than twice as long.
fn mark_count(n: usize, p: &Pending) -> usize
    ensures { result ≡ mark_count n p.now }
{
    p.marks
        .iter()
        .take(n)
        .map(|mark| usize::from(mark.0 < ForwardNumber::ABSENT))
        .sum()
}

// "Goes before": how many of n controllers have a smaller forward number for p than for q; absent is not smaller than absent.
pub fn goes_before(n: usize, p: &Pending, q: &Pending) -> usize
    ensures { result ≡ goes_before n p.now q.now }
{
    p.marks
        .iter()
        .zip(&q.marks)
        .take(n)
        .map(|(first, second)| usize::from(first < second))
        .sum()
}

// How many slots the 64 bytes name: candidates from byte 0 up, the rest of the buffer from byte 63 down.
#[derive(Clone, Copy)]
struct Split {
    candidates: usize,
    rest: usize,
}

// Line 15: each slot in the buffer goes to its end of the 64 bytes.
fn divide(n: usize, pending: &[Pending; Table::MESSAGES], slots: &mut [u8; Table::SCRATCH]) -> Split
    ensures { Divided n pending.now capacity slots.new result.candidates result.rest }
{
    let m = majority(n);
    let mut candidates = 0;
    let mut rest = 0;
    for (s, p) in pending.iter().enumerate() {
        if !p.is_held() {
            continue;
        }
        if m <= mark_count(n, p) {
            slots[candidates] = s as u8;
            candidates += 1;
        } else {
            rest += 1;
            slots[Table::SCRATCH - rest] = s as u8;
        }
    }
    Split { candidates, rest }
}

// Line 16: the others in the buffer are taken one after another, from byte 63 down, and each member is compared with the one taken.
// A member that does not go before it is removed: it gives its place to the last member, and joins the others. `taken` and
// `place` say how far this has come, so that it goes on where it was left, and no two slots are compared twice.
// A labelled nested loop over two counters: a rule of the project (docs/DECISIONS.md, "Forms").
fn settle(
    n: usize,
    pending: &[Pending; Table::MESSAGES],
    split: Split,
    slots: &mut [u8; Table::SCRATCH],
) -> usize
    requires { Divided n pending.now capacity slots.old split.candidates split.rest }
    ensures { Settled n pending.now slots.new result }
{
    let m = majority(n);
    let Split {
        candidates: mut members,
        rest: mut others,
    } = split;
    let mut taken = 0;
    let mut place = 0;
    'again: while taken < others {
        let q = &pending[slots[Table::SCRATCH - 1 - taken] as usize];
        while place < members {
            let s = slots[place];
            if goes_before(n, &pending[s as usize], q) < m {
                // The last member is read first: with 64 in the buffer, the removed one may go to its byte.
                members -= 1;
                slots[place] = slots[members];
                others += 1;
                slots[Table::SCRATCH - others] = s;
                continue 'again;
            }
            place += 1;
        }
        place = 0;
        taken += 1;
    }
    members
}

// The set of the slots that the bytes name.
fn set_of(slots: &[u8]) -> [bool; Table::MESSAGES]
    requires { Listed (length slots.now) slots.now }
    ensures { result ≡ named (length slots.now) slots.now }
{
    let mut members = [false; Table::MESSAGES];
    for &slot in slots {
        members[slot as usize] = true;
    }
    members
}

// The first 64 bytes become zero, or all where there are fewer.
pub fn clear(scratch: &mut [u8])
    ensures { scratch.new ≡ cleared scratch.old }
{
    let end = scratch.len().min(Table::SCRATCH);
    scratch[..end].fill(0);
}

// The set, and the first 64 bytes of scratch are zero afterwards; where there are fewer, no slot is answered and nothing
// is written.
pub fn apply(
    n: usize,
    pending: &[Pending; Table::MESSAGES],
    scratch: &mut [u8],
) -> [bool; Table::MESSAGES]
    ensures { Applied n pending.now scratch.old result scratch.new }
{
    let Some(slots) = scratch.first_chunk_mut() else {
        return [false; Table::MESSAGES];
    };
    let split = divide(n, pending, slots);
    let count = settle(n, pending, split, slots);
    let members = set_of(&slots[..count]);
    slots.fill(0);
    members
}
