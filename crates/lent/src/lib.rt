// The event call on a table that is lent: the table goes by value to the function that answers it. The answer that comes back is
// stored, and then the table if bytes were used, which tells that the event was accepted (the by-value call: a rule of the project). A refused event uses none and leaves the table, so its table is not copied back.
#![tactic(auto)]

ghost use Rattle.lent.specs.Called.{Called};

// One event, of the record with which the bytes begin. The result is the part of the caller's bytes that is unread.
pub fn event<'t, 'a, 's, 'o>(
    t: &'t mut model::Table,
    bytes: &'a [u8],
    scratch: &'s mut [u8],
    answer: &'o mut model::Answer,
) -> &'a [u8]
    ensures { Called t.old bytes.now scratch.old t.new answer.new result.now scratch.new }
{
    let s = events::event(*t, bytes, scratch);
    *answer = s.answer;
    if 0 < s.used {
        *t = s.table;
    }
    records::rest(bytes, s.used)
}
