// The refusals: above each, the question to which it is the no. A call answers its number, or 0 if it accepts.
ghost use Rattle.std.specs.Prelude.{◌≡◌};
ghost use Rattle.model.specs.Refusals.{refusal_number, refusal_in};

// none: accepted
pub const ACCEPTED: u8 = 0;

#[derive(Clone, Copy, Debug, PartialEq, Eq)]
pub enum Refusal {
    // Has the file 2 to 65,535 bytes?
    FileLength = 1,

    // Is the version 1 or 2?
    Version = 2,

    // Is the number of controllers from 1 to 7?
    ControllerCount = 3,

    // Is the table well formed?
    Table = 4,

    // Are the length byte and all the bytes it counts there?
    Record = 5,

    // Is there a kind, from 1 to 6?
    Kind = 6,

    // Is the length that of the kind?
    RecordLength = 7,

    // Is every controller named from 1 to n?
    Controller = 8,

    // Is a report's amount from -360 to 360 and not 0?
    Amount = 9,

    // Is the sender, receiver, or controller to be stopped or read still running?
    Stopped = 10,

    // Has the sender of a sync or write no message of its own pending?
    OwnPending = 11,

    // Has the run fewer than 64 messages?
    Full = 12,

    // Does the log have an entry that the receiver has not read?
    NoEntry = 13,

    // Is the length kept at most the log's, and at least every read position in it?
    Kept = 14,

    // Has the scratch area 64 bytes or more?
    Scratch = 15,

    // Does the line fit in what is left of the listing?
    Listing = 16,

    // Is the class of a report of version 2 from 1 to 4?
    Class = 17,

    // Has the controller of a local read no message of its own pending?
    ReadPending = 18,

    // Is the register of a write from 1 to 8?
    Register = 19,

    // Is the latest message of a write's sender a sync that it has applied?
    NotSynced = 20,

    // Is the act count of a commit its receiver's?
    ActCount = 21,
}

impl From<Refusal> for u8 {
    ghost from_gives = { λ r n. n ≡ refusal_number r };

    fn from(refusal: Refusal) -> u8 {
        refusal as u8
    }
}

// The number that a call answers: that of its refusal, 0 if it has none.
pub fn number_of<T: Drop>(outcome: &Result<T, Refusal>) -> u8
    ensures { result ≡ refusal_in outcome.now }
{
    match outcome {
        Ok(_) => ACCEPTED,
        Err(refusal) => u8::from(*refusal),
    }
}
