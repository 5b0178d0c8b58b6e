// The messages that we write: what to say is an enum, and one function lays its fields out, whatever the opening.
#![tactic(auto)]

ghost use Rattle.std.specs.Prelude.{◌≡◌, [], ◌∷◌, ◌+◌, ◌≤◌, length};
ghost use Rattle.answer.specs.Setup.{id_of};
ghost use Rattle.text.specs.Fields.{◌is◌, field_bytes, layout};
ghost use Rattle.text.specs.Writing.{empty, puts};
ghost use Rattle.wire.specs.Messages.{framed, type_of, is_gap_fill, sequence_of, uses, named, placed, reject_of, lead_of, dated_of, others_of};
ghost use Rattle.wire.specs.Messages.{message_of, number_after, reply_of, used_by};
ghost use Rattle.wire.specs.Sending.{SmallFault, Small, Sent, Replied};

use answer::{BAR, Fault, Id, Setup, reasons, tags};
use frame::OPENING;
use text::{Text, byte_sum};

// What to write. Echo is the Heartbeat that answers a Test Request.
#[derive(Clone, Copy)]
pub enum Say {
    Logon,
    Heartbeat,
    Echo,
    Test,
    Logout,
    Resend(u32),
    Reject(u32, Fault),
    GapFill(u32, u32),
}

// What a call writes: at most two messages. Stays an enum: none, one and two are three answers.
#[derive(Clone, Copy)]
pub enum Reply {
    Nothing,
    One(Say),
    Two(Say, Say),
}

// A time has so many bytes; of a word that is repeated, 112 has at most so many, and a type (372) so many.
const TIME_WIDTH: usize = 21;

const MOST_WORD: usize = 32;

const MOST_TYPE: usize = 3;

// "reply buffer under 512": two messages fit.
pub const REPLY_ROOM: usize = 512;

impl Say {
    fn type_of(self) -> u8
        ensures { type_of self ≡ result ∷ [] }
    {
        match self {
            Say::Logon => b'A',
            Say::Heartbeat | Say::Echo => b'0',
            Say::Test => b'1',
            Say::Resend(_) => b'2',
            Say::Reject(_, _) => b'3',
            Say::GapFill(_, _) => b'4',
            Say::Logout => b'5',
        }
    }

    // "34 is O unless said"; "The gap fill is numbered by tag 7".
    fn sequence(self, o: u32) -> u32
        ensures { result ≡ sequence_of o self }
    {
        match self {
            Say::GapFill(from, _) => from,
            _ => o,
        }
    }

    fn is_gap_fill(self) -> bool
        ensures { result ≡ is_gap_fill self }
    {
        matches!(self, Say::GapFill(_, _))
    }

    // "It uses no O; every other message we write uses one".
    fn uses(self) -> u32
        ensures { (result ≡ uses self) × (result ≤ 1) }
    {
        if self.is_gap_fill() { 0 } else { 1 }
    }

    // O after a message.
    fn number_after(self, o: u32) -> u32
        ensures { result ≡ number_after o self }
    {
        answer::count_on(o, self.uses())
    }
}

// What follows puts more to a text, as text's methods do.

// tag=ID|
fn with_id(t: &mut Text, tag: u32, id: Id)
    ensures { t.new ≡ puts t.old (field_bytes (tag is id_of id)) }
{
    t.field(tag, &id.bytes, id.len);
}

// "35, 34, 49 (ours), 56".
#[tactic(auto, using(text::proofs::Layouts::laying))]
fn lead(t: &mut Text, setup: Setup, o: u32, say: Say)
    ensures { t.new ≡ puts t.old (layout (lead_of setup o say)) }
{
    t.letter(tags::TYPE, say.type_of());
    t.number(tags::SEQUENCE, say.sequence(o));
    with_id(t, tags::SENDER, setup.ours());
    with_id(t, tags::TARGET, setup.theirs());
}

// "43 where said, 52 (the given time), 122 where said".
#[tactic(auto, using(text::proofs::Layouts::laying))]
fn with_date(t: &mut Text, time: &[u8], say: Say)
    ensures { t.new ≡ puts t.old (layout (dated_of time.now say)) }
{
    if say.is_gap_fill() {
        t.letter(tags::AGAIN, b'Y');
        t.field(tags::SENT, time, TIME_WIDTH);
        t.field(tags::FIRST_SENT, time, TIME_WIDTH);
    } else {
        t.field(tags::SENT, time, TIME_WIDTH);
    }
}

// "371 where a tag is named".
#[tactic(auto, using(text::proofs::Layouts::laying))]
fn with_named(t: &mut Text, tag: u32)
    ensures { t.new ≡ puts t.old (layout (named tag)) }
{
    if tag != 0 {
        t.number(tags::NAMED, tag);
    }
}

// "Reject then carries 58 with `at ` and the place for reason 6".
#[tactic(auto, using(text::proofs::Layouts::laying), unfolding(text::specs::Fields::field_bytes))]
fn with_place(t: &mut Text, fault: Fault)
    ensures { t.new ≡ puts t.old (layout (placed fault)) }
{
    if fault.reason == reasons::WRONG_FORM {
        t.decimal(u64::from(tags::TEXT));
        t.all(b"=at ");
        t.decimal(fault.at as u64);
        t.put(BAR);
    }
}

// "Reject carries 45, 371 where a tag is named, 372, 373", and last 58 where a form is the fault.
#[tactic(auto, using(text::proofs::Layouts::laying))]
fn with_fault(t: &mut Text, n: u32, fault: Fault, word: &[u8])
    ensures { (t.new ≡ puts t.old (layout (reject_of n fault word.now))) × SmallFault fault }
{
    t.number(tags::REJECTED, n);
    with_named(t, fault.tag);
    t.field(tags::REJECTED_TYPE, word, MOST_TYPE);
    t.number(tags::REASON, fault.reason);
    with_place(t, fault);
}

// The tags after the header, "in the order this paper names them".
#[tactic(auto, using(text::proofs::Layouts::laying))]
fn with_others(t: &mut Text, o: u32, word: &[u8], say: Say)
    ensures { (t.new ≡ puts t.old (layout (others_of o word.now say))) × Small say }
{
    match say {
        Say::Logon => {
            t.number(tags::ENCRYPTION, 0);
            t.number(tags::INTERVAL, 30);
        }
        Say::Heartbeat | Say::Logout => {}
        Say::Echo => t.field(tags::WORD, word, MOST_WORD),
        Say::Test => t.number(tags::WORD, o),
        Say::Resend(from) => {
            t.number(tags::FROM, from);
            t.number(tags::UP_TO, 0);
        }
        Say::Reject(n, fault) => with_fault(t, n, fault, word),
        Say::GapFill(_, to) => {
            t.letter(tags::FILLING, b'Y');
            t.number(tags::TO, to);
        }
    }
}

// The message with this opening and this body, put to a text that is new: its sum is of all that the text holds.
fn frame(t: &mut Text, opening: &[u8], body: &[u8])
    requires fresh { t.old ≡ empty }
    requires short { length opening.now + length body.now ≤ 400 }
    ensures { t.new ≡ puts empty (framed opening.now body.now) }
{
    t.all(opening);
    t.number(9, body.len() as u32);
    t.all(body);
    let total = byte_sum(t.held());
    t.all(b"10=");
    t.fixed(3, u64::from(total));
    t.put(BAR);
}

// Writes a message into reply at a place, and says where it ends; where it does not fit, nothing.
pub fn write(
    setup: Setup,
    o: u32,
    time: &[u8],
    word: &[u8],
    say: Say,
    reply: &mut [u8],
    at: usize,
) -> usize
    ensures { Sent reply.old reply.new at result (message_of setup o time.now word.now say) }
{
    let mut body = Text::new();
    lead(&mut body, setup, o, say);
    with_date(&mut body, time, say);
    with_others(&mut body, o, word, say);
    let mut message = Text::new();
    frame(&mut message, &OPENING, body.held());
    message.place(reply, at)
}

// Writes the messages of a reply from the buffer's start, and says where they end; nothing into a buffer under 512 bytes, so 0
// bytes then.
#[tactic(auto, using(crate::proofs::Replies::replies), unfolding(crate::specs::Messages::reply_of))]
pub fn write_reply(
    setup: Setup,
    o: u32,
    time: &[u8],
    word: &[u8],
    r: Reply,
    reply: &mut [u8],
) -> usize
    ensures { Replied reply.old reply.new result (reply_of setup o time.now word.now r) }
{
    if reply.len() < REPLY_ROOM {
        return 0;
    }
    match r {
        Reply::Nothing => 0,
        Reply::One(a) => write(setup, o, time, word, a, reply, 0),
        Reply::Two(a, b) => {
            let at = write(setup, o, time, word, a, reply, 0);
            write(setup, a.number_after(o), time, word, b, reply, at)
        }
    }
}

// How many numbers a reply uses.
pub fn used_by(r: Reply) -> u32
    ensures { result ≡ used_by r }
{
    match r {
        Reply::Nothing => 0,
        Reply::One(a) => a.uses(),
        Reply::Two(a, b) => a.uses() + b.uses(),
    }
}
