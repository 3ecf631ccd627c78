// The calls that C and Rust make. Each hands what it is lent to the function that answers it and stores what comes back. Its
// contract is an equation for its result and for all that it may write. Calls that differ in their types are each their own, and a pair
// is two numbers: the C interface.
#![tactic(auto)]

ghost use Rattle.std.specs.Prelude.{◌≡◌};
ghost use Rattle.model.specs.Calls.{look, count_before, fresh_table};
ghost use Rattle.turns.specs.Dispatcher.{pair};
ghost use Rattle.files.specs.FileRun.{Runs};
ghost use Rattle.supervisor.specs.Supervised.{Asks};
ghost use Rattle.engine.specs.Called.{Counted, DispatchLeaves, CommitLeaves, interface};

use model::Pair;

// The state of the interface. It goes up whenever a struct, a constant, a refusal or a call changes that C or Rust see.
const INTERFACE: usize = 4;

// The number of the interface, by which a caller sees that its header is this library's.
#[unsafe(no_mangle)]
pub extern "C" fn furnacejade_interface() -> usize
    ensures { result ≡ interface }
{
    INTERFACE
}

// One event, of the record with which the bytes begin. No reference can be handed back to C: the result is how many bytes are
// unread.
#[unsafe(no_mangle)]
pub extern "C" fn furnacejade_event(
    t: &mut model::Table,
    bytes: &[u8],
    scratch: &mut [u8],
    answer: &mut model::Answer,
) -> usize
    ensures { Counted t.old bytes.now scratch.old t.new answer.new result scratch.new }
{
    let left = lent::event(t, bytes, scratch, answer);
    left.len()
}

// The panel look at controller c.
#[unsafe(no_mangle)]
pub extern "C" fn furnacejade_look(t: &model::Table, c: usize, answer: &mut model::LookAnswer)
    ensures { answer.new ≡ look t.now c }
{
    *answer = looks::look_at(t, c);
}

// How many controllers put the first message before the second, as controller c has it.
#[unsafe(no_mangle)]
pub extern "C" fn furnacejade_count_before(
    t: &model::Table,
    c: usize,
    first: &model::Name,
    second: &model::Name,
    answer: &mut model::CountAnswer,
)
    ensures { answer.new ≡ count_before t.now c first.now second.now }
{
    *answer = looks::count_before(t, c, *first, *second);
}

// The fresh table of a version, of n controllers.
#[unsafe(no_mangle)]
pub extern "C" fn furnacejade_fresh(version: usize, n: usize, answer: &mut model::FreshAnswer)
    ensures { answer.new ≡ fresh_table version n }
{
    *answer = events::fresh_table(version, n);
}

// The next handover after that of a pair: the receiver and the owner that were served last, n and n at first.
#[unsafe(no_mangle)]
pub extern "C" fn furnacejade_dispatch(
    t: &mut model::Table,
    receiver: usize,
    owner: usize,
    scratch: &mut [u8],
    answer: &mut model::DispatchAnswer,
)
    ensures { DispatchLeaves t.old (pair receiver owner) scratch.old t.new answer.new scratch.new }
{
    let s = dispatcher::dispatch(*t, Pair { receiver, owner }, scratch);
    *t = s.table;
    *answer = s.answer;
}

// What the handover to a receiver from the log of an owner would apply, and the receiver's act count.
#[unsafe(no_mangle)]
pub extern "C" fn furnacejade_ask(
    t: &model::Table,
    receiver: usize,
    owner: usize,
    scratch: &mut [u8],
    answer: &mut model::AskAnswer,
)
    ensures { Asks t.now (pair receiver owner) scratch.old answer.new scratch.new }
{
    *answer = supervisor::ask(t, Pair { receiver, owner }, scratch);
}

// That handover, made if the receiver's act count is the one given.
#[unsafe(no_mangle)]
pub extern "C" fn furnacejade_commit(
    t: &mut model::Table,
    receiver: usize,
    owner: usize,
    acts: usize,
    scratch: &mut [u8],
    answer: &mut model::Answer,
)
    ensures { CommitLeaves t.old (pair receiver owner) acts scratch.old t.new answer.new scratch.new }
{
    let s = supervisor::commit(*t, Pair { receiver, owner }, acts, scratch);
    *t = s.table;
    *answer = s.answer;
}

// The run of a whole file.
#[unsafe(no_mangle)]
pub extern "C" fn furnacejade_run(
    bytes: &[u8],
    listing: &mut [u8],
    scratch: &mut [u8],
    answer: &mut model::RunAnswer,
)
    ensures { Runs bytes.now listing.old scratch.old answer.new listing.new scratch.new }
{
    *answer = files::run(bytes, listing, scratch);
}
