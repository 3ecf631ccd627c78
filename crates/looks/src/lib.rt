// The calls that only read a table: the panel look, and the count of "goes before".
#![tactic(auto)]

ghost use Rattle.std.specs.Prelude.{◌≡◌, IfOk};
ghost use Rattle.model.specs.Tables.{at};
ghost use Rattle.model.specs.Refusals.{refusal_in};
ghost use Rattle.model.specs.Questions.{first_no, look_questions};
ghost use Rattle.model.specs.Calls.{look, count_before};

use model::refusal::Refusal;
use model::{Controller, CountAnswer, LookAnswer, Name, Panel, Table, refusal};

// The controller that is looked at: questions 4 and 8 are put to whoever looks.
#[tactic(auto, unfolding(model::specs::Questions::first_no, model::specs::Questions::look_questions, model::specs::Questions::lent_table, model::specs::Tables::controller_in))]
fn looked_at(t: &Table, c: usize) -> Result<&Controller, Refusal>
    ensures asked { refusal_in result ≡ first_no (look_questions t.now c) }
    ensures found { IfOk result (λ x. x.now ≡ at t.now c) }
{
    if !validity::well_formed(t) {
        return Err(Refusal::Table);
    }
    if !Controller::is_among(t.n, c) {
        return Err(Refusal::Controller);
    }
    Ok(&t.controllers[c - 1])
}

// What a panel shows.
#[tactic(auto, unfolding(model::specs::Calls::look))]
pub fn look_at(t: &Table, c: usize) -> LookAnswer
    ensures { result ≡ look t.now c }
{
    match looked_at(t, c) {
        Ok(_) => LookAnswer {
            refusal: refusal::ACCEPTED,
            panel: totals::panel(t, c),
        },
        Err(refusal) => LookAnswer {
            refusal: u8::from(refusal),
            panel: Panel::zero(),
        },
    }
}

// How many controllers put one message before another, as controller c has it.
#[tactic(auto, unfolding(model::specs::Calls::count_before))]
pub fn count_before(t: &Table, c: usize, first: Name, second: Name) -> CountAnswer
    ensures { result ≡ count_before t.now c first second }
{
    let x = match looked_at(t, c) {
        Ok(x) => x,
        Err(refusal) => {
            return CountAnswer {
                refusal: u8::from(refusal),
                count: 0,
            };
        }
    };
    let p = naming::pending_of(t.sent(), &x.pending, first);
    let q = naming::pending_of(t.sent(), &x.pending, second);
    CountAnswer {
        refusal: refusal::ACCEPTED,
        count: delivery::goes_before(t.n, &p, &q),
    }
}
