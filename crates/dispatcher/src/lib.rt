// The dispatcher, by value: it goes round all pairs of a receiver and a log owner, and carries out the next handover.
#![tactic(auto)]

ghost use Rattle.std.specs.Prelude.{◌≡◌, ◌≤◌, IfOk};
ghost use Rattle.model.specs.Tables.{seats};
ghost use Rattle.model.specs.Refusals.{refusal_in};
ghost use Rattle.model.specs.Questions.{first_no};
ghost use Rattle.turns.specs.Dispatcher.{following, waits, next_pair, dispatch_questions};
ghost use Rattle.turns.specs.Claims.{InRange};
ghost use Rattle.dispatcher.specs.Handed.{if_some, next_of, unchanged, Dispatches};

use model::refusal::Refusal;
use model::{Controller, DispatchAnswer, Pair, Table, refusal};

// THE ORDER

// The pair after this one, by receiver and then owner; after the last comes the first.
#[tactic(auto, unfolding(turns::specs::Dispatcher::following))]
fn following(n: usize, p: Pair) -> Pair
    ensures { result ≡ following n p }
{
    if p.owner < n {
        Pair {
            owner: p.owner + 1,
            ..p
        }
    } else if p.receiver < n {
        Pair {
            receiver: p.receiver + 1,
            owner: 1,
        }
    } else {
        Pair {
            receiver: 1,
            owner: 1,
        }
    }
}

// Whether the receiver runs and has an entry of the owner's log to read.
#[tactic(auto, unfolding(turns::specs::Dispatcher::waits, model::specs::Questions::unread, model::specs::Tables::controller_in))]
fn waits(controllers: &[Controller; Table::CONTROLLERS], p: Pair) -> bool
    requires { InRange seats p }
    ensures { result ≡ waits controllers.now p }
{
    let o = p.owner - 1;
    let x = &controllers[p.receiver - 1];
    x.is_running() && x.read[o] < controllers[o].length
}

// The first pair after this one that waits, this one the last; n is at most 7, as the caller has it from question 4. The loop counts rounds and no index: each turn goes on from the pair before.
#[tactic(auto, using(crate::proofs::Search::starts, crate::proofs::Search::here, crate::proofs::Search::none_left))]
fn next_pair(n: usize, controllers: &[Controller; Table::CONTROLLERS], after: Pair) -> Option<Pair>
    requires { (n ≤ seats) × InRange n after }
    ensures { result ≡ if_some (next_pair n controllers.now after) }
{
    let mut p = after;
    for _ in 0..n * n {
        p = following(n, p);
        if waits(controllers, p) {
            return Some(p);
        }
    }
    None
}

// THE CALL

// Questions 4 and 8; then the next pair and, if there is one, question 15.
#[tactic(auto, using(crate::proofs::DispatchAnswers::in_range), unfolding(model::specs::Questions::first_no, model::specs::Questions::lent_table, turns::specs::Dispatcher::pair_questions, turns::specs::Dispatcher::dispatch_questions))]
fn choose(t: &Table, after: Pair, room: usize) -> Result<Option<Pair>, Refusal>
    ensures asked { refusal_in result ≡ first_no (dispatch_questions t.now after (next_of t.now after) room) }
    ensures chosen { IfOk result (λ next. next ≡ if_some (next_of t.now after)) }
{
    if !validity::well_formed(t) {
        return Err(Refusal::Table);
    }
    if !after.is_among(t.n) {
        return Err(Refusal::Controller);
    }
    let next = next_pair(t.n, &t.controllers, after);
    if next.is_some() && room < Table::SCRATCH {
        return Err(Refusal::Scratch);
    }
    Ok(next)
}

// What the call answers, and the table that it leaves.
#[repr(C)]
#[derive(Clone, Copy)]
pub struct Handed {
    pub answer: DispatchAnswer,
    pub table: Table,
}

// No handover is made, and nothing is changed: a refusal, or 0 where none waits (the number is the C interface's). The table goes by
// value, as in the call: a rule of the project.
#[tactic(auto, unfolding(crate::specs::Handed::unchanged))]
fn unserved(t: Table, refusal: u8) -> Handed
    ensures { result ≡ unchanged t refusal }
{
    Handed {
        answer: DispatchAnswer {
            pair: Pair {
                receiver: 0,
                owner: 0,
            },
            answer: effects::no_set(refusal),
        },
        table: t,
    }
}

// Carries out the next handover after this pair, or refuses, or finds that none waits. The table goes by value: a rule of the project.
pub fn dispatch(t: Table, after: Pair, scratch: &mut [u8]) -> Handed
    ensures { Dispatches t after scratch.old result scratch.new }
{
    let pair = match choose(&t, after, scratch.len()) {
        Ok(Some(pair)) => pair,
        Ok(None) => return unserved(t, refusal::ACCEPTED),
        Err(refusal) => return unserved(t, u8::from(refusal)),
    };
    let e = effects::handover(pair);
    let done = effects::act(&t, e, scratch);
    let answer = done.answer;
    Handed {
        answer: DispatchAnswer { pair, answer },
        table: effects::stored(t, e, done.controller),
    }
}
