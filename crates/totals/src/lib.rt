// What a panel shows, of all messages and of each class, and its registers; and whether a set holds a sync of a controller's own: on every
// table, what no array holds being zero.
#![tactic(auto)]

ghost use Rattle.std.specs.Prelude.{◌≡◌, ◌<◌, IfSome};
ghost use Rattle.lists.specs.Build.{tabulate};
ghost use Rattle.model.specs.Tables.{class_count, register_count};
ghost use Rattle.model.specs.Registers.{wins, written, registers};
ghost use Rattle.model.specs.Events.{plus, sums, class_sums, shown, panel_of, finishes};
ghost use Rattle.model.specs.Handed.{all_of};
ghost use Rattle.totals.specs.Shown.{index_of, amount_of, largest_amount, largest_sum, AtMost};

use model::{Kind, Message, Messages, Panel, Payload, Register, Stamp, Sums, Table};

// WHAT A PANEL SHOWS. Flags of what is applied are bytes (the C interface). The messages and these flags go side by side, and not as one
// struct: the flags of a controller that is not in the table yet are asked for too.

// Adds a message's amount, each part to its own sum.
fn add(sums: &mut Sums, p: Payload)
    requires { AtMost largest_sum sums.old }
    ensures added { sums.new ≡ plus sums.old (amount_of p) }
    ensures small { AtMost largest_amount (amount_of p) }
{
    sums.added += u32::from(p.added);
    sums.withdrawn += u32::from(p.withdrawn);
}

// The sums over the messages that are flagged as applied.
pub fn sums(messages: Messages, applied: &[u8; Table::MESSAGES]) -> Sums
    ensures { result ≡ sums (all_of messages.entry) applied.now }
{
    let mut sums = Sums::zero();
    for (m, flag) in messages.sent().iter().zip(applied) {
        if *flag != 0 {
            add(&mut sums, m.payload);
        }
    }
    sums
}

// The sums of each class, from 0, over the messages that are flagged as applied. A class above the last has none. The class is
// tested by hand: of what was written through a `get_mut` of an array a proof learns nothing.
fn classes(messages: Messages, applied: &[u8; Table::MESSAGES]) -> [Sums; Panel::CLASSES]
    ensures { result ≡ tabulate class_count (class_sums (all_of messages.entry) applied.now) }
{
    let mut classes = [Sums::zero(); Panel::CLASSES];
    for (m, flag) in messages.sent().iter().zip(applied) {
        let class = usize::from(m.payload.class);
        if *flag != 0 && class < Panel::CLASSES {
            add(&mut classes[class], m.payload);
        }
    }
    classes
}

// What is written, if its stamp exceeds that of what is held: dates decide before writers.
#[tactic(auto, using(std::proofs::lemmas::Bool::Decides::nat_tests), unfolding(model::specs::Registers::wins, model::specs::Registers::exceeds))]
fn wins(w: Register, y: Register) -> Register
    ensures { result ≡ wins w y }
{
    if w.stamp > y.stamp { w } else { y }
}

// What a write gives its register. (No `From`: both types are another crate's.)
fn written(m: &Message) -> Register
    ensures { result ≡ written m.now }
{
    Register {
        value: m.payload.value,
        stamp: Stamp {
            date: m.date,
            writer: u16::from(m.sender),
        },
    }
}

// The index of the register that a message writes, if it writes one.
#[tactic(auto, unfolding(crate::specs::Shown::index_of))]
fn register_index(p: Payload) -> Option<usize>
    ensures written { result ≡ index_of p }
    ensures within { IfSome result (λ i. i < register_count) }
{
    let i = usize::from(p.reg).checked_sub(1)?;
    (p.is(Kind::Write) && i < Panel::REGISTERS).then_some(i)
}

// The registers, from 1, by the messages that are flagged as applied.
pub fn registers(
    messages: Messages,
    applied: &[u8; Table::MESSAGES],
) -> [Register; Panel::REGISTERS]
    ensures { result ≡ registers (all_of messages.entry) applied.now }
{
    let mut registers = [Register::zero(); Panel::REGISTERS];
    for (m, flag) in messages.sent().iter().zip(applied) {
        if *flag != 0
            && let Some(i) = register_index(m.payload)
        {
            registers[i] = wins(written(m), registers[i]);
        }
    }
    registers
}

// The panel of a controller that has applied what is flagged.
#[tactic(auto, unfolding(model::specs::Events::shown))]
pub fn shown(messages: Messages, applied: &[u8; Table::MESSAGES]) -> Panel
    ensures { result ≡ shown (all_of messages.entry) applied.now }
{
    Panel {
        sums: sums(messages, applied),
        classes: classes(messages, applied),
        registers: registers(messages, applied),
    }
}

// The panel of controller c, from 1. Past the last it shows nothing.
pub fn panel(t: &Table, c: usize) -> Panel
    ensures { result ≡ panel_of t.now c }
{
    match t.controllers.get(c.saturating_sub(1)) {
        Some(x) => shown(t.sent(), &x.applied),
        None => Panel::zero(),
    }
}

// A FINISHED SYNC

// Whether a sync of c is among the members.
pub fn finishes(messages: Messages, members: &[bool; Table::MESSAGES], c: u8) -> bool
    ensures { result ≡ finishes (all_of messages.entry) members.now c }
{
    messages.sent().iter().zip(members).any(|(m, member)| *member
        && m.payload.is(Kind::Sync)
        && m.sender == c)
}
