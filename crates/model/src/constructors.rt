// The limits of the table, its constructors, and the tests of what a message says. What each function answers is a definition of specs/.
ghost use Rattle.std.specs.Prelude.{◌≡◌, ◌&&◌, cond, eqb, min, take, length};
ghost use Rattle.model.specs.Fair.{fair_magnitude, fair_amount, fair_class, fair_register, known, named};
ghost use Rattle.model.specs.Tables.{capacity, yes?, report, sync, write, message_of, forward_number, message_number, messages_of, start, fresh, zero_table, no_sums, no_panel, no_register};
ghost use Rattle.model.specs.Events.{name_of};
ghost use Rattle.model.specs.Kinds.{kind_number, KindOf};
ghost use Rattle.model.specs.Handed.{all_of, bare};

use crate::refusal::Refusal;
use crate::{
    Controller, ForwardNumber, Kind, Message, MessageNumber, Messages, Name, Pair, Panel, Payload,
    Pending, Register, Stamp, Sums, Table,
};

impl ForwardNumber {
    pub const ABSENT: u8 = 255;

    // A place in a log, from a count of its entries.
    pub fn of(place: u8) -> ForwardNumber
        ensures { result ≡ forward_number place }
    {
        ForwardNumber(place)
    }
}

impl MessageNumber {
    pub const NONE: u8 = 0;

    // A sender's number, from a count of its log's entries.
    pub fn of(number: u8) -> MessageNumber
        ensures { result ≡ message_number number }
    {
        MessageNumber(number)
    }
}

impl TryFrom<u8> for Kind {
    type Error = Refusal;

    ghost try_from_gives = { KindOf };

    fn try_from(number: u8) -> Result<Kind, Refusal> {
        match number {
            1 => Ok(Kind::Report),
            2 => Ok(Kind::Sync),
            3 => Ok(Kind::Handover),
            4 => Ok(Kind::Stop),
            5 => Ok(Kind::Read),
            6 => Ok(Kind::Write),
            _ => Err(Refusal::Kind),
        }
    }
}

// (A report's and a write's constructor, and the tests below, are alike only in shape: each has fields of its own.)
impl Payload {
    // The kinds that a message can have, as the C interface has them: by number.
    pub const REPORT: u8 = Kind::Report as u8;

    pub const SYNC: u8 = Kind::Sync as u8;

    pub const WRITE: u8 = Kind::Write as u8;

    pub const AMOUNT: u16 = 360;

    // The weight classes are 1 XL, 2 L, 3 M, 4 S.
    pub const LAST_CLASS: u8 = 4;

    pub const LAST_REGISTER: u16 = 8;

    // A message that says no more than its kind.
    fn bare(kind: u8) -> Payload
        ensures { result ≡ bare kind }
    {
        Payload {
            kind,
            class: 0,
            added: 0,
            withdrawn: 0,
            reg: 0,
            value: 0,
        }
    }

    pub fn report(class: u8, added: u16, withdrawn: u16) -> Payload
        ensures { result ≡ report class added withdrawn }
    {
        Payload {
            class,
            added,
            withdrawn,
            ..Payload::bare(Payload::REPORT)
        }
    }

    pub fn sync() -> Payload
        ensures { result ≡ sync }
    {
        Payload::bare(Payload::SYNC)
    }

    pub fn write(reg: u16, value: u32) -> Payload
        ensures { result ≡ write reg value }
    {
        Payload {
            reg,
            value,
            ..Payload::bare(Payload::WRITE)
        }
    }

    // Whether it is a message of this kind.
    pub fn is(self, kind: Kind) -> bool
        ensures { result ≡ eqb self.kind (kind_number kind) }
    {
        self.kind == kind as u8
    }

    #[tactic(auto, unfolding(crate::specs::Fair::fair_magnitude))]
    fn fair_magnitude(x: u16) -> bool
        ensures { result ≡ fair_magnitude x }
    {
        (0 < x) & (x <= Payload::AMOUNT)
    }

    // A report adds or withdraws a fair amount, and not both; a sync and a write have none.
    #[tactic(auto, unfolding(crate::specs::Fair::fair_amount))]
    pub fn fair_amount(self) -> bool
        ensures { result ≡ fair_amount self }
    {
        let a = Payload::fair_magnitude(self.added) & (self.withdrawn == 0);
        let w = (self.added == 0) & Payload::fair_magnitude(self.withdrawn);
        (self.is(Kind::Report) & (a | w))
            | ((self.is(Kind::Sync) | self.is(Kind::Write))
                & ((self.added == 0) & (self.withdrawn == 0)))
    }

    // A report of version 2 has one of the weight classes; every other message has none.
    #[tactic(auto, unfolding(crate::specs::Fair::fair_class))]
    pub fn fair_class(self, version: usize) -> bool
        ensures { result ≡ fair_class version self }
    {
        if (version == Table::CLASSED) & self.is(Kind::Report) {
            return (0 < self.class) & (self.class <= Payload::LAST_CLASS);
        }
        self.class == 0
    }

    // A write has one of the registers; every other message has none, and no value.
    #[tactic(auto, unfolding(crate::specs::Fair::fair_register))]
    pub fn fair_register(self) -> bool
        ensures { result ≡ fair_register self }
    {
        if self.is(Kind::Write) {
            return (0 < self.reg) & (self.reg <= Payload::LAST_REGISTER);
        }
        (self.reg == 0) & (self.value == 0)
    }
}

impl Sums {
    // The sums over no message.
    pub fn zero() -> Sums
        ensures { result ≡ no_sums }
    {
        Sums {
            added: 0,
            withdrawn: 0,
        }
    }
}

impl Register {
    // A register that was not written.
    pub fn zero() -> Register
        ensures { result ≡ no_register }
    {
        Register {
            value: 0,
            stamp: Stamp { date: 0, writer: 0 },
        }
    }
}

impl Panel {
    // The panel that shows nothing, which a refused look answers.
    pub fn zero() -> Panel
        ensures { result ≡ no_panel }
    {
        let none = Sums::zero();
        Panel {
            sums: none,
            classes: [none; Panel::CLASSES],
            registers: [Register::zero(); Panel::REGISTERS],
        }
    }
}

impl Message {
    pub fn of(sender: u8, number: MessageNumber, date: u16, payload: Payload) -> Message
        ensures { result ≡ message_of sender number date payload }
    {
        Message {
            sender,
            number,
            date,
            payload,
        }
    }
}

impl Name {
    // What stands after the names of a set in an answer.
    pub const NONE: Name = Name {
        sender: 0,
        number: MessageNumber(MessageNumber::NONE),
    };
}

impl From<&Message> for Name {
    ghost from_gives = { λ m name. name ≡ name_of m.now };

    fn from(m: &Message) -> Name {
        Name {
            sender: m.sender,
            number: m.number,
        }
    }
}

// The first of an array that has a place for each message that can be sent.
fn first(count: usize, slots: &[Message; Table::MESSAGES]) -> &[Message]
    ensures sent { result.now ≡ take (min count capacity) slots.now }
    ensures whole { length slots.now ≡ capacity }
{
    &slots[..count.min(Table::MESSAGES)]
}

impl<'a> Messages<'a> {
    // Those that were sent, in their order. No slot is past the array, which has one for each that can be sent.
    pub fn sent(self) -> &'a [Message]
        ensures sent { result.now ≡ take (min self.entry.count capacity) self.entry.slots.now }
        ensures whole { length self.entry.slots.now ≡ capacity }
    {
        first(self.count, self.slots)
    }
}

impl Pending {
    // What stands in the buffer for a message that is not in it: every mark is absent.
    pub const UNHELD: Pending = Pending {
        held: 0,
        marks: [ForwardNumber(ForwardNumber::ABSENT); Table::CONTROLLERS],
    };

    // Whether the message is in the buffer.
    pub fn is_held(&self) -> bool
        ensures { result ≡ yes? self.now.held }
    {
        self.held != 0
    }
}

impl Controller {
    pub fn is_running(&self) -> bool
        ensures { result ≡ yes? self.now.running }
    {
        self.running != 0
    }

    // Whether c is one of n controllers.
    #[tactic(auto, unfolding(crate::specs::Fair::named))]
    pub fn is_among(n: usize, c: usize) -> bool
        ensures { result ≡ named n c }
    {
        (1..=n).contains(&c)
    }
}

impl Pair {
    // Whether both are among n controllers.
    pub fn is_among(self, n: usize) -> bool
        ensures { result ≡ (named n self.receiver && named n self.owner) }
    {
        Controller::is_among(n, self.receiver) & Controller::is_among(n, self.owner)
    }
}

impl Table {
    // The version of files whose reports name a class, and the last version.
    pub const CLASSED: usize = 2;

    pub const SCRATCH: usize = Table::MESSAGES;

    pub const LONGEST_FILE: usize = 65535;

    // The messages of the run.
    pub fn sent(&self) -> Messages<'_>
        ensures { all_of result ≡ messages_of self.now }
    {
        Messages {
            count: self.count,
            slots: &self.messages,
        }
    }

    // A table of a version in which nothing was sent, of n controllers with this flag, every mark being `mark`.
    #[tactic(auto, unfolding(crate::specs::Tables::start, crate::specs::Tables::idle))]
    fn start(version: usize, n: usize, running: u8, mark: u8) -> Table
        ensures { result ≡ start version n running mark }
    {
        let none = Message {
            sender: 0,
            number: MessageNumber(MessageNumber::NONE),
            date: 0,
            payload: Payload::bare(0),
        };
        let unheld = Pending {
            held: 0,
            marks: [ForwardNumber(mark); Table::CONTROLLERS],
        };
        let idle = Controller {
            length: 0,
            log: [0; Table::MESSAGES],
            read: [0; Table::CONTROLLERS],
            pending: [unheld; Table::MESSAGES],
            applied: [0; Table::MESSAGES],
            highest: [MessageNumber(MessageNumber::NONE); Table::CONTROLLERS],
            running,
        };
        Table {
            version,
            n,
            count: 0,
            messages: [none; Table::MESSAGES],
            controllers: [idle; Table::CONTROLLERS],
        }
    }

    // A table of a version, of n controllers, in which nothing was sent.
    #[tactic(auto, unfolding(crate::specs::Tables::fresh))]
    pub fn fresh(version: usize, n: usize) -> Table
        ensures { result ≡ fresh version n }
    {
        Table::start(version, n, 1, ForwardNumber::ABSENT)
    }

    // The table with every field zero, which a refused request answers.
    #[tactic(auto, unfolding(crate::specs::Tables::zero_table))]
    pub fn zero() -> Table
        ensures { result ≡ zero_table }
    {
        Table::start(0, 0, 0, 0)
    }

    // A version of run files.
    #[tactic(auto, unfolding(crate::specs::Fair::known))]
    pub fn known(version: usize) -> bool
        ensures { result ≡ known version }
    {
        (version == 1) | (version == Table::CLASSED)
    }

    // The table that a run begins with: fresh, or zero in every field where its file is refused. The refusal goes by its number, which may
    // not change: `opened` answers for every number.
    #[tactic(auto, unfolding(crate::specs::Tables::fresh, crate::specs::Tables::zero_table))]
    pub fn opened(refusal: u8, version: usize, n: usize) -> Table
        ensures { result ≡ cond (eqb refusal 0) (fresh version n) zero_table }
    {
        if refusal != 0 {
            return Table::start(0, 0, 0, 0);
        }
        Table::start(version, n, 1, ForwardNumber::ABSENT)
    }
}
