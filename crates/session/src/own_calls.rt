// The session by value, and our own calls: each method hands back the next session.
ghost use Rattle.std.specs.Prelude.{◌≡◌};
ghost use Rattle.session.specs.Session.{fresh, into, expecting, asking, raised, sending, is_off, is_on, is_in, says, may_call, phase_after, own_call, line_lost};

use super::{Own, Session};
use answer::{Phase, count_on};
use wire::{Reply, Say};

// What each of our own calls says.
pub fn says(what: Own) -> Say
    ensures { result ≡ says what }
{
    match what {
        Own::Open => Say::Logon,
        Own::Beat => Say::Heartbeat,
        Own::Ask => Say::Test,
        Own::Close => Say::Logout,
    }
}

// "open (.. Logon with 98=0 and 108=30; phase 1), heartbeat, test request .., close (Logout; phase 4), the last three in phase 2".
fn phase_after(what: Own) -> Phase
    ensures { result ≡ phase_after what }
{
    match what {
        Own::Open => Phase::Sent,
        Own::Beat | Own::Ask => Phase::In,
        Own::Close => Phase::Closing,
    }
}

impl Session {
    // "fresh: phase 0, E = O = 1".
    pub fn fresh() -> Session
        ensures { result ≡ fresh }
    {
        Session {
            phase: Phase::Out,
            e: 1,
            o: 1,
            asked: None,
        }
    }

    pub(crate) fn into(self, phase: Phase) -> Session
        ensures { result ≡ into phase self }
    {
        Session { phase, ..self }
    }

    pub(crate) fn expecting(self, e: u32) -> Session
        ensures { result ≡ expecting e self }
    {
        Session { e, ..self }
    }

    // "raises E by 1".
    pub(crate) fn raised(self) -> Session
        ensures { result ≡ raised self }
    {
        self.expecting(count_on(self.e, 1))
    }

    // A Resend Request is written for this E.
    pub(crate) fn asking(self) -> Session
        ensures { result ≡ asking self }
    {
        Session {
            asked: Some(self.e),
            ..self
        }
    }

    // "every other message we write uses one".
    pub(crate) fn sending(self, reply: Reply) -> Session
        ensures { result ≡ sending reply self }
    {
        Session {
            o: count_on(self.o, wire::used_by(reply)),
            ..self
        }
    }

    // Phase 0 or 3.
    pub fn is_off(self) -> bool
        ensures { result ≡ is_off self.phase }
    {
        matches!(self.phase, Phase::Out | Phase::Ended)
    }

    // "a message needs 1, 2 or 4".
    pub fn is_on(self) -> bool
        ensures { result ≡ is_on self.phase }
    {
        !self.is_off()
    }

    // Phase 2.
    pub(crate) fn is_in(self) -> bool
        ensures { result ≡ is_in self.phase }
    {
        self.phase == Phase::In
    }

    // "open (phase 0 or 3 ..), heartbeat, test request .., close .., the last three in phase 2".
    pub fn may_call(self, what: Own) -> bool
        ensures { result ≡ may_call what self.phase }
    {
        match what {
            Own::Open => self.is_off(),
            Own::Beat | Own::Ask | Own::Close => self.is_in(),
        }
    }

    // The session after one of our own calls: "each uses one O".
    #[tactic(auto, unfolding(crate::specs::Session::own_call))]
    pub fn own(self, what: Own) -> Session
        ensures { result ≡ own_call what self }
    {
        self.into(phase_after(what)).sending(Reply::One(says(what)))
    }

    // "Line lost (phase 1, 2 or 4) gives phase 0 and writes nothing".
    pub fn line_lost(self) -> Session
        ensures { result ≡ line_lost self }
    {
        self.into(Phase::Out)
    }
}
