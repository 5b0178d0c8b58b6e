// What several crates are told or answer with: set-up, phase, type of message, fault, outcome, refusal, with the paper's number for each case; and
// the numbers that the paper says more than once.
#![tactic(auto)]

pub mod reasons;
pub mod tags;

ghost use Rattle.std.specs.Prelude.{◌≡◌};
ghost use Rattle.answer.specs.Numbers.{fault, counted, phase_number, refusal_number, outcome_number};
ghost use Rattle.answer.specs.Setup.{id_with, venue_id, is_emerald};

// "`|` below is byte 1".
pub const BAR: u8 = 1;

// E, O and the counts are kept in four bytes, and what is counted stops at the largest number of these.
pub const LARGEST: u32 = u32::MAX;

// "Numbers have digits only, 1 to 9": the largest of them. E, O and tag 36 stop there.
pub const NINE_DIGITS: u32 = 999_999_999;

// "The first `34=` field is 1 to 999,999,998".
pub const LAST_SEQUENCE: u32 = NINE_DIGITS - 1;

// "O above 999,999,997": what is left are the numbers of two messages.
pub const LAST_TO_SEND: u32 = NINE_DIGITS - 2;

// "38 and 32 are 1 to 999,999".
pub const MOST_CONTRACTS: u32 = 999_999;

// An agreed ID: the first len of bytes. It stays an array with a length: a set-up keeps it by value, where a slice would have to be lent.
#[derive(Clone, Copy, PartialEq, Eq)]
pub struct Id {
    pub bytes: [u8; 16],
    pub len: usize,
}

// The exchanges that have such a drop.
#[derive(Clone, Copy, PartialEq, Eq)]
pub enum Venue {
    Sapphire,
    Emerald,
}

// "the exchange's ID is EMLD where Sapphire's is SPHR".
const SAPPHIRE: Id = Id {
    bytes: *b"SPHR\0\0\0\0\0\0\0\0\0\0\0\0",
    len: 4,
};

const EMERALD: Id = Id {
    bytes: *b"EMLD\0\0\0\0\0\0\0\0\0\0\0\0",
    len: 4,
};

impl Venue {
    // The exchange's agreed ID.
    #[tactic(auto, unfolding(crate::specs::Setup::id_with, octet::specs::Splice::splice))]
    pub fn id(self) -> Id
        ensures { result ≡ id_with (venue_id self) }
    {
        match self {
            Venue::Sapphire => SAPPHIRE,
            Venue::Emerald => EMERALD,
        }
    }

    pub fn is_emerald(self) -> bool
        ensures { result ≡ is_emerald self }
    {
        self == Venue::Emerald
    }
}

// What a receiver is set up with. It is asked by its methods: where an answer comes from is nothing to those who ask.
#[derive(Clone, Copy, PartialEq, Eq)]
pub struct Setup {
    pub ours: Id,
    pub theirs: Id,
}

impl Setup {
    pub fn ours(self) -> Id
        ensures { result ≡ self.ours }
    {
        self.ours
    }

    pub fn theirs(self) -> Id
        ensures { result ≡ self.theirs }
    {
        self.theirs
    }
}

#[derive(Clone, Copy, PartialEq, Eq)]
pub enum Phase {
    Out,
    Sent,
    In,
    Ended,
    Closing,
}

impl Phase {
    // "Phases: 0 out, 1 logon sent, 2 in, 3 ended, 4 closing". The name stays, beside those of outcomes and refusals.
    pub fn number(self) -> u32
        ensures { result ≡ phase_number self }
    {
        self as u32
    }
}

// What a type of message is: A, 0, 1, 2, 4, 5, 8, UCC; 3 and j; any other.
#[derive(Clone, Copy, PartialEq, Eq)]
pub enum Kind {
    Logon,
    Heartbeat,
    Test,
    Resend,
    Reset,
    Logout,
    Report,
    Correction,
    Other,
    Unlisted,
}

// A Reject's reason, the tag that it names (0: none), and, of a bad form, how much of the value was well formed.
// Reason, tag and place stay numbers: a Reject is written with any of them, and in the definitions 0 names none.
#[derive(Clone, Copy, PartialEq, Eq)]
pub struct Fault {
    pub reason: u32,
    pub tag: u32,
    pub at: usize,
}

impl Fault {
    // A fault that is none of form.
    pub fn of(reason: u32, tag: u32) -> Fault
        ensures { result ≡ fault reason tag }
    {
        Fault { reason, tag, at: 0 }
    }
}

// A number counted on, no further than four bytes go.
pub fn count_on(n: u32, k: u32) -> u32
    ensures { result ≡ counted n k }
{
    n.saturating_add(k)
}

// What became of a framed message.
#[derive(Clone, Copy, PartialEq, Eq)]
pub enum Outcome {
    Ended,
    Rejected(Fault),
    RejectedEnded(Fault),
    Dropped,
    Gap,
    In,
    Heard,
    Echoed,
    Filled,
    Moved(u32),
    Aside,
    Already,
    Booked(u32, bool),
    Entered(u32),
}

impl Outcome {
    // The number of an outcome; one that is set aside is heard.
    pub fn number(self) -> u32
        ensures { result ≡ outcome_number self }
    {
        match self {
            Outcome::Ended => 1,
            Outcome::Rejected(_) => 2,
            Outcome::RejectedEnded(_) => 3,
            Outcome::Dropped => 4,
            Outcome::Gap => 5,
            Outcome::In => 6,
            Outcome::Heard | Outcome::Aside => 7,
            Outcome::Echoed => 8,
            Outcome::Filled => 9,
            Outcome::Moved(_) => 10,
            Outcome::Already => 11,
            Outcome::Booked(_, _) => 12,
            Outcome::Entered(_) => 13,
        }
    }
}

// Why a call was refused.
#[derive(Clone, Copy, PartialEq, Eq)]
pub enum Refusal {
    ShortBuffer,
    BadTime,
    WrongPhase,
    NumbersUsed,
    NoRoom,
    NotOffered,
    StillWaiting,
    Unlawful(usize),
    BadId,
}

impl Refusal {
    // The paper's number: the column No. of its table.
    pub fn number(self) -> u32
        ensures { result ≡ refusal_number self }
    {
        match self {
            Refusal::ShortBuffer => 1,
            Refusal::BadTime => 2,
            Refusal::WrongPhase => 3,
            Refusal::NumbersUsed => 4,
            Refusal::NoRoom => 5,
            Refusal::NotOffered => 6,
            Refusal::StillWaiting => 7,
            Refusal::Unlawful(_) => 8,
            Refusal::BadId => 9,
        }
    }
}
