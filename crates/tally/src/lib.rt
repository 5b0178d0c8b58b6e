// The tally: what the messages of a line came to, in four counts.
#![tactic(auto)]

ghost use Rattle.std.specs.Prelude.{◌≡◌};
ghost use Rattle.tally.specs.Tally.{up, none_yet, one, one_booked, one_already, one_rejected, one_garbled, count_of, tallied};

use answer::{Outcome, count_on};

#[derive(Clone, Copy, PartialEq, Eq, Default)]
pub struct Tally {
    pub booked: u32,
    pub already: u32,
    pub rejected: u32,
    pub garbled: u32,
}

// "booked, already booked, rejected (a Reject written) and garbled": a count that an answer raises.
#[derive(Clone, Copy, PartialEq, Eq)]
pub enum Which {
    Booked,
    Already,
    Rejected,
    Garbled,
}

// One more; a count stops at its last number.
#[tactic(auto, unfolding(crate::specs::Tally::up))]
fn up(n: u32) -> u32
    ensures { result ≡ up n }
{
    count_on(n, 1)
}

impl Tally {
    pub fn new() -> Tally
        ensures { result ≡ none_yet }
    {
        Tally::default()
    }

    // One more of that count.
    pub fn one(self, which: Which) -> Tally
        ensures { result ≡ one which self }
    {
        match which {
            Which::Booked => Tally {
                booked: up(self.booked),
                ..self
            },
            Which::Already => Tally {
                already: up(self.already),
                ..self
            },
            Which::Rejected => Tally {
                rejected: up(self.rejected),
                ..self
            },
            Which::Garbled => Tally {
                garbled: up(self.garbled),
                ..self
            },
        }
    }
}

// Which count a framed message raises, by what became of it, where it raises one.
pub fn count_of(outcome: Outcome) -> Option<Which>
    ensures { result ≡ count_of outcome }
{
    match outcome {
        Outcome::Booked(_, _) | Outcome::Entered(_) => Some(Which::Booked),
        Outcome::Already => Some(Which::Already),
        Outcome::Rejected(_) | Outcome::RejectedEnded(_) => Some(Which::Rejected),
        _ => None,
    }
}

// "lent by the caller and brought up to date": one thin function for each count, as the paper names the form.
pub fn count_booked(t: &mut Tally)
    ensures { t.new ≡ one_booked t.old }
{
    *t = t.one(Which::Booked);
}

pub fn count_already(t: &mut Tally)
    ensures { t.new ≡ one_already t.old }
{
    *t = t.one(Which::Already);
}

pub fn count_rejected(t: &mut Tally)
    ensures { t.new ≡ one_rejected t.old }
{
    *t = t.one(Which::Rejected);
}

pub fn count_garbled(t: &mut Tally)
    ensures { t.new ≡ one_garbled t.old }
{
    *t = t.one(Which::Garbled);
}

// The lent tally, "brought up to date": the count that is raised, by its thin function.
pub fn count(t: &mut Tally, which: Option<Which>)
    ensures { t.new ≡ tallied which t.old }
{
    match which {
        Some(Which::Booked) => count_booked(t),
        Some(Which::Already) => count_already(t),
        Some(Which::Rejected) => count_rejected(t),
        Some(Which::Garbled) => count_garbled(t),
        None => {}
    }
}
