// The judging of a framed message, step by step, by what was read off it.
ghost use Rattle.std.specs.Prelude.{◌≡◌, cond};
ghost use Rattle.table.specs.Steps.{found};
ghost use Rattle.answer.specs.declared.Outcome.TheVariants as outcome;
ghost use Rattle.wire.specs.declared.Say.TheVariants as say;
ghost use Rattle.wire.specs.declared.Reply.TheVariants.{Nothing, One};
ghost use Rattle.session.specs.declared.Verdict.TheVariants.{Settled};
ghost use Rattle.session.specs.Session.{asking, raised, judged, is_in};
ghost use Rattle.session.specs.Reading.{facts};
ghost use Rattle.session.specs.Judging.{ended, rejected_ended, welcomed, step3, reset_mode, rejected_to, rejected, rejected_if, passed, heard, filled_to, gap_fill, moved};
ghost use Rattle.session.specs.Judging.{logged_out, effect, in_turn, below, due, answered, gap_reply, gap, step4, by_phase, judged_by, word_tag};

use super::{Findings, Judged, Session, Verdict};
use answer::{Fault, Kind, Outcome, Phase, reasons, tags};
use wire::{Reply, Say};

// "36 the smaller of O and tag 16 plus 1 (O for 16=0)".
#[tactic(auto, unfolding(crate::specs::Judging::filled_to))]
fn filled_to(o: u32, last: u32) -> u32
    ensures { result ≡ filled_to o last }
{
    if last == 0 {
        o
    } else {
        o.min(last.saturating_add(1))
    }
}

impl Findings {
    // "type 4 without `123=Y`": reset mode.
    fn is_reset(self) -> bool
        ensures { result ≡ reset_mode (facts self) }
    {
        self.kind == Kind::Reset && !self.filling
    }

    // "A faultless Resend Request above E is answered first".
    fn is_answered(self) -> bool
        ensures { result ≡ answered (facts self) }
    {
        self.kind == Kind::Resend && self.fault.is_ok()
    }
}

// ---- what a step answers

impl Session {
    // What a message came to and what is written, with the session after it.
    fn settled(self, outcome: Outcome, reply: Reply) -> Judged
        ensures { result ≡ judged outcome reply self }
    {
        Judged {
            outcome,
            next: self.sending(reply),
            reply,
        }
    }

    // "Else Logout, ended".
    fn ended(self) -> Judged
        ensures { result ≡ ended self }
    {
        self.into(Phase::Ended)
            .settled(Outcome::Ended, Reply::One(Say::Logout))
    }

    // "Reject .., then Logout, ended".
    fn rejected_ended(self, n: u32, f: Fault) -> Judged
        ensures { result ≡ rejected_ended self n f }
    {
        self.into(Phase::Ended).settled(
            Outcome::RejectedEnded(f),
            Reply::Two(Say::Reject(n, f), Say::Logout),
        )
    }

    fn rejected_to(self, n: u32, f: Fault) -> Judged
        ensures { result ≡ rejected_to self n f }
    {
        self.settled(Outcome::Rejected(f), Reply::One(Say::Reject(n, f)))
    }

    // "An in-order message raises E by 1, rejected ones included".
    pub fn rejected(self, n: u32, f: Fault) -> Judged
        ensures { result ≡ rejected self n f }
    {
        self.raised().rejected_to(n, f)
    }

    // "A rejected type 4 in reset mode leaves E".
    #[tactic(auto, unfolding(crate::specs::Judging::rejected_if))]
    fn rejected_if(self, reset: bool, n: u32, f: Fault) -> Judged
        ensures { result ≡ rejected_if reset self n f }
    {
        if reset {
            self.rejected_to(n, f)
        } else {
            self.rejected(n, f)
        }
    }

    // Nothing is written, and E rises by 1.
    pub fn passed(self, outcome: Outcome) -> Judged
        ensures { result ≡ passed outcome self }
    {
        self.raised().settled(outcome, Reply::Nothing)
    }

    fn heard(self) -> Verdict
        ensures { result ≡ Settled (heard self) }
    {
        Verdict::Settled(self.passed(Outcome::Heard))
    }

    // "Heartbeat with it".
    fn echoed(self) -> Verdict
        ensures { result ≡ Settled (judged outcome.Echoed (One say.Echo) (raised self)) }
    {
        Verdict::Settled(
            self.raised()
                .settled(Outcome::Echoed, Reply::One(Say::Echo)),
        )
    }

    // A message that changes nothing and is not answered.
    fn dropped(self) -> Verdict
        ensures { result ≡ Settled (judged outcome.Dropped Nothing self) }
    {
        Verdict::Settled(self.settled(Outcome::Dropped, Reply::Nothing))
    }

    // "Numbered E: E rises by 1. Above: E stays and a Resend Request follows. Both: phase 2."
    fn welcomed(self, n: u32) -> Judged
        ensures { result ≡ welcomed self n }
    {
        if n == self.e {
            return self
                .raised()
                .into(Phase::In)
                .settled(Outcome::In, Reply::Nothing);
        }
        self.asking()
            .into(Phase::In)
            .settled(Outcome::In, Reply::One(Say::Resend(self.e)))
    }

    // "Type 4 with 36 above E answers with 36 less the old E. At or below E it is Reject 5 tag 36, except equal to E in reset mode: heard, E stays."
    #[tactic(auto, unfolding(crate::specs::Judging::moved))]
    fn moved(self, to: u32, reset: bool, n: u32) -> Judged
        ensures { result ≡ moved to reset self n }
    {
        if self.e < to {
            return self
                .expecting(to)
                .settled(Outcome::Moved(to - self.e), Reply::Nothing);
        }
        if to == self.e && reset {
            return self.settled(Outcome::Heard, Reply::Nothing);
        }
        self.rejected_if(reset, n, Fault::of(reasons::WRONG_VALUE, tags::TO))
    }

    // "Logout in phase 2, none in 4; ended".
    #[tactic(auto, unfolding(crate::specs::Judging::logged_out))]
    fn logged_out(self) -> Verdict
        ensures { result ≡ Settled (logged_out self) }
    {
        let next = self.raised().into(Phase::Ended);
        Verdict::Settled(next.settled(Outcome::Ended, self.farewell()))
    }

    fn farewell(self) -> Reply
        ensures { result ≡ cond (is_in self.phase) (One say.Logout) Nothing }
    {
        if self.is_in() {
            Reply::One(Say::Logout)
        } else {
            Reply::Nothing
        }
    }

    // "below E: with `43=Y` dropped, else Logout, ended".
    fn below(self, m: Findings) -> Judged
        ensures { result ≡ below self (facts m) }
    {
        if m.again {
            self.settled(Outcome::Dropped, Reply::Nothing)
        } else {
            self.ended()
        }
    }

    // "unless one was written for this same E and the message neither has `43=Y` nor is a Heartbeat".
    #[tactic(auto, unfolding(crate::specs::Judging::due))]
    fn is_due(self, m: Findings) -> bool
        ensures { result ≡ due self (facts m) }
    {
        self.asked != Some(self.e) || m.again || m.kind == Kind::Heartbeat
    }
}

// ---- the steps

impl Session {
    // Step 3, in phase 1: "type A numbered E or more, else Logout, ended. Faulty by steps 5 to 7: Reject and Logout, ended."
    #[tactic(auto, unfolding(crate::specs::Judging::step3))]
    fn judge_logon(self, n: u32, m: Findings) -> Judged
        ensures { result ≡ step3 self n (facts m) }
    {
        if m.kind != Kind::Logon || n < self.e {
            return self.ended();
        }
        match m.fault {
            Err(f) => self.rejected_ended(n, f),
            Ok(()) => self.welcomed(n),
        }
    }

    // The gap fill that answers a Resend Request.
    fn gap_fill(self, m: Findings) -> Say
        ensures { result ≡ gap_fill self (facts m) }
    {
        Say::GapFill(m.from, filled_to(self.o, m.last))
    }

    // "gap fill".
    fn filled(self, m: Findings) -> Verdict
        ensures { result ≡ Settled (judged outcome.Filled (One (gap_fill self (facts m))) (raised self)) }
    {
        let fill = self.gap_fill(m);
        Verdict::Settled(self.raised().settled(Outcome::Filled, Reply::One(fill)))
    }

    // "E to 36's".
    fn reset(self, n: u32, m: Findings) -> Verdict
        ensures { result ≡ Settled (moved m.to (reset_mode (facts m)) self n) }
    {
        Verdict::Settled(self.moved(m.to, m.is_reset(), n))
    }

    // The table's column "Effect". Of a report the book is to be asked.
    #[tactic(auto, unfolding(crate::specs::Judging::effect))]
    fn effect(self, n: u32, m: Findings) -> Verdict
        ensures { result ≡ effect self n (facts m) m.kind }
    {
        match m.kind {
            Kind::Logon | Kind::Heartbeat | Kind::Other | Kind::Unlisted => self.heard(),
            Kind::Test => self.echoed(),
            Kind::Resend => self.filled(m),
            Kind::Reset => self.reset(n, m),
            Kind::Logout => self.logged_out(),
            Kind::Report => Verdict::Report(n),
            Kind::Correction => Verdict::Correction(n),
        }
    }

    // Steps 5 to 7, and the effect of a faultless message.
    #[tactic(auto, unfolding(crate::specs::Judging::in_turn))]
    fn in_turn(self, n: u32, m: Findings) -> Verdict
        ensures { result ≡ in_turn self n (facts m) (found m.fault) }
    {
        match m.fault {
            Err(f) => Verdict::Settled(self.rejected_if(m.is_reset(), n, f)),
            Ok(()) => self.effect(n, m),
        }
    }

    // "Above E: a gap, not applied, answered by a Resend Request (7=E, 16=0)".
    #[tactic(auto, unfolding(crate::specs::Judging::gap))]
    fn gap(self, m: Findings) -> Judged
        ensures { result ≡ gap self (facts m) }
    {
        let due = self.is_due(m);
        let next = if due { self.asking() } else { self };
        next.settled(Outcome::Gap, self.gap_reply(m, due))
    }

    // Our request, and before it the gap fill.
    fn gap_reply(self, m: Findings, due: bool) -> Reply
        ensures { result ≡ gap_reply self (gap_fill self (facts m)) (answered (facts m)) due }
    {
        match (m.is_answered(), due) {
            (true, true) => Reply::Two(self.gap_fill(m), Say::Resend(self.e)),
            (true, false) => Reply::One(self.gap_fill(m)),
            (false, true) => Reply::One(Say::Resend(self.e)),
            (false, false) => Reply::Nothing,
        }
    }

    // Step 4, in phase 2 or 4: "type 4 without `123=Y` ignores its number".
    #[tactic(auto, unfolding(crate::specs::Judging::step4))]
    fn judge_turn(self, n: u32, m: Findings) -> Verdict
        ensures { result ≡ step4 self n (facts m) }
    {
        if m.is_reset() || n == self.e {
            return self.in_turn(n, m);
        }
        if n < self.e {
            return Verdict::Settled(self.below(m));
        }
        Verdict::Settled(self.gap(m))
    }

    // Steps 3 and 4, by phase. A message in phase 0 or 3 is refused before it comes to this. Each step is called in one place, so that it is compiled
    // in place and copies no struct.
    #[tactic(auto, unfolding(crate::specs::Judging::by_phase))]
    fn by_phase(self, n: u32, m: Findings) -> Verdict
        ensures { result ≡ by_phase self.phase self n (facts m) }
    {
        match self.phase {
            Phase::Out | Phase::Ended => self.dropped(),
            Phase::Sent => Verdict::Settled(self.judge_logon(n, m)),
            Phase::In | Phase::Closing => self.judge_turn(n, m),
        }
    }

    // "A framed message is judged in this order".
    #[tactic(auto, unfolding(crate::specs::Judging::judged_by))]
    pub fn judge(self, m: Findings) -> Verdict
        ensures { result ≡ judged_by self (facts m) }
    {
        let Some(n) = m.seq else {
            return Verdict::Settled(self.ended());
        };
        match m.ids {
            Err(f) => Verdict::Settled(self.rejected_ended(n, f)),
            Ok(()) => self.by_phase(n, m),
        }
    }
}

// The tag whose value a reply repeats: 112 of the Test Request that is answered, or 35, the type that is rejected.
pub fn word_tag(reply: Reply) -> u32
    ensures { result ≡ word_tag reply }
{
    match reply {
        Reply::One(Say::Echo) => tags::WORD,
        _ => tags::TYPE,
    }
}
