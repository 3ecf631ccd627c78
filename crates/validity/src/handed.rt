// What the tests are handed: types that carry the facts which the tests rely on.
ghost use Rattle.std.specs.Prelude.{◌≡◌, ◌≤◌, true, length};
ghost use Rattle.model.specs.Tables.{seats, capacity};
ghost use Rattle.model.specs.WellFormed.{good_mark, good_messages};
ghost use Rattle.validity.specs.Parts.{all_sent};
ghost use Rattle.validity.specs.Flags.{allowed_marks};

use model::{ForwardNumber, Message, Table};

// A run whose messages are good: the version of its records, how many controllers it has, and what was sent.
#[derive(Clone, Copy)]
pub struct Run<'a> {
    pub version: usize,
    pub n: usize,
    pub sent: &'a [Message],
    pub ghost few: { n ≤ seats },
    pub ghost fits: { length sent.now ≤ capacity },
    pub ghost good: { good_messages version n (all_sent sent.now) ≡ true },
}

// For each slot the sender of its write, 0 where there is none; and where the slots with a write end. (Bytes, which one pass compares with
// a sender; an array with its end beside it, since there is no heap.)
#[derive(Clone, Copy)]
pub struct Writes {
    pub end: usize,
    pub senders: [u8; Table::MESSAGES],
    pub ghost inside: { end ≤ capacity },
}

const BYTES: usize = 256;

// For each byte whether it is a good mark: a look is quicker than the comparisons, seven for each pending message.
#[derive(Clone, Copy)]
pub struct AllowedMarks {
    flags: [bool; BYTES],
    ghost right: { flags ≡ allowed_marks },
}

impl AllowedMarks {
    pub fn new() -> AllowedMarks {
        let mut flags = [false; BYTES];
        flags[1..=Table::MESSAGES].fill(true);
        flags[ForwardNumber::ABSENT as usize] = true;
        AllowedMarks { flags }
    }

    #[tactic(auto, using(crate::proofs::AllowedMarks::allowed_read))]
    pub fn allows(&self, mark: ForwardNumber) -> bool
        ensures { result ≡ good_mark mark.0 }
    {
        self.flags[mark.0 as usize]
    }
}
