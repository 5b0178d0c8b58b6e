// What a call answers, in words: a word for each case of an answer, and its values after it, as the transcript of `replay` has them.
// Not by Display: no clause could say which lent bytes that writes.
#![tactic(auto)]

ghost use Rattle.std.specs.Prelude.{◌≡◌};
ghost use Rattle.text.specs.Writing.{puts};
ghost use Rattle.words.specs.Words.{number_after, reject_text, booked_text, outcome_text, refusal_text, answer_text};

use answer::{Fault, Outcome, Refusal};
use receiver::Answer;
use text::Text;

// A word, with its space, and a number.
#[tactic(auto, using(text::proofs::Puts::putting))]
fn say_number(t: &mut Text, s: &[u8], n: u64)
    ensures { t.new ≡ puts t.old (number_after s.now n) }
{
    t.all(s);
    t.decimal(n);
}

// A Reject's reason, and the tag that it names.
#[tactic(auto, using(text::proofs::Puts::putting))]
fn say_rejected(t: &mut Text, f: Fault)
    ensures { t.new ≡ puts t.old (reject_text f) }
{
    say_number(t, b"rejected ", u64::from(f.reason));
    say_number(t, b" ", u64::from(f.tag));
}

// A fill's number, and whether it is in step.
#[tactic(auto, using(text::proofs::Puts::putting))]
fn say_booked(t: &mut Text, n: u32, in_step: bool)
    ensures { t.new ≡ puts t.old (booked_text n in_step) }
{
    say_number(t, b"booked ", u64::from(n));
    if in_step {
        t.all(b" in");
    } else {
        t.all(b" out");
    }
}

// What became of a framed message. A set-aside report is heard, not booked.
#[tactic(auto, using(text::proofs::Puts::putting))]
pub fn say_outcome(t: &mut Text, outcome: Outcome)
    ensures { t.new ≡ puts t.old (outcome_text outcome) }
{
    match outcome {
        Outcome::Ended => t.all(b"ended"),
        Outcome::Rejected(f) => say_rejected(t, f),
        Outcome::RejectedEnded(f) => {
            say_rejected(t, f);
            t.all(b" ended");
        }
        Outcome::Dropped => t.all(b"dropped"),
        Outcome::Gap => t.all(b"gap"),
        Outcome::In => t.all(b"in"),
        Outcome::Heard | Outcome::Aside => t.all(b"heard"),
        Outcome::Echoed => t.all(b"heartbeat"),
        Outcome::Filled => t.all(b"gapfill"),
        Outcome::Moved(n) => say_number(t, b"reset ", u64::from(n)),
        Outcome::Already => t.all(b"already"),
        Outcome::Booked(n, in_step) => say_booked(t, n, in_step),
        Outcome::Entered(n) => say_number(t, b"entered ", u64::from(n)),
    }
}

// A refusal: its number in the paper, and the place of an unlawful note, after a space: no other refusal has a value.
#[tactic(auto, using(text::proofs::Puts::putting))]
pub fn say_refusal(t: &mut Text, why: Refusal)
    ensures { t.new ≡ puts t.old (refusal_text why) }
{
    say_number(t, b"refused ", u64::from(why.number()));
    if let Refusal::Unlawful(place) = why {
        say_number(t, b" ", place as u64);
    }
}

// The answer of a call.
#[tactic(auto, using(text::proofs::Puts::putting))]
pub fn say_answer(t: &mut Text, answer: Answer)
    ensures { t.new ≡ puts t.old (answer_text answer) }
{
    match answer {
        Answer::Done => t.all(b"ok"),
        Answer::Refused(why) => say_refusal(t, why),
        Answer::More => t.all(b"more"),
        Answer::Garbled(skip) => say_number(t, b"garbled ", skip as u64),
        Answer::Framed(len, outcome) => {
            say_number(t, b"framed ", len as u64);
            t.put(b' ');
            say_outcome(t, outcome);
        }
        Answer::Offered => t.all(b"offered"),
        Answer::None => t.all(b"none"),
        Answer::Acked => t.all(b"acked"),
        Answer::Already => t.all(b"already"),
        Answer::Restarted(whole) => say_number(t, b"restarted ", whole as u64),
    }
}
