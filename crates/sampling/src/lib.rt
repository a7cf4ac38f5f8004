// A sample call: an open session is fed one sample a second.
#![tactic(auto)]

ghost use Rattle.std.specs.Prelude.{◌≡◌};
ghost use Rattle.prediction.specs.Steps.{Ready};
ghost use Rattle.session.specs.Session.{answer, call_told};
ghost use Rattle.learn.specs.Sound.{Sound};
ghost use Rattle.sampling.specs.Learning.{is_service, shown_of, in_force};
ghost use Rattle.sampling.specs.Sample.{decided_with, sample_call};
ghost use Rattle.sampling.specs.Steps.{after_of};

use brake::{Brake, State};
use consist::Consist;
use decision::Decision;
use learn::Shown;
use refusal::{Refusal, Verdict};
use sample::Sample;
use session::Session;

// What an admitted sample makes of the session, what is decided, and what of emergency.
#[derive(Clone, Copy, Debug, PartialEq, Eq)]
pub struct After {
    pub session: Session,
    pub decision: Decision,
    pub emergency: Decision,
}

// A record: its bit is set where there is a cause. It has the bit, and a cause of 0 for none, by `decided_with`.
fn decided(emergency: bool, time: u32, state: u8, cause: u8, stop: u32) -> Decision
    ensures { result ≡ decided_with emergency time state cause stop }
{
    Decision {
        emergency,
        time,
        state,
        penalty: cause != 0,
        cause,
        stop,
    }
}

// No twin of `air`'s test of emergency: one `matches!` each, of other states.
fn is_service(state: State) -> bool
    ensures { result ≡ is_service state }
{
    matches!(state, State::ApplyingService | State::HoldingService)
}

// What a sample shows the learner, after its update: field by field, since they come from three values.
fn shown(c: Consist, k: Brake, m: Sample) -> Shown
    ensures { result ≡ shown_of c k m }
{
    Shown {
        service: is_service(k.state),
        set: c.set,
        equalization: k.equalization,
        time: m.time,
        front: m.front,
        rear: m.rear,
    }
}

// The consist with the application time that is in force from the next sample on.
fn in_force(c: Consist, learnt: Option<u32>) -> Consist
    ensures { result ≡ in_force c learnt }
{
    match learnt {
        None => c,
        Some(application) => Consist { application, ..c },
    }
}

// The update, what the sample teaches, the prediction, the standing penalty and emergency, the two decisions. That the learner is
// sound is asked and no invariant: `is_open` answers for learners that are not.
fn advance(x: &Session, m: Sample, p: &[u8], t: &[u8]) -> After
    requires ready { Ready x.now.consist x.now.brake m p.now }
    requires learner { Sound x.now.learner }
    ensures { result ≡ after_of x.now m p.now t.now }
{
    let updated = update::updated(x.brake, x.consist, m);
    let lesson = learn::taught(x.learner, shown(x.consist, updated, m));
    let found = prediction::of_sample(x.consist, updated, m, p, t, x.cause);
    let cause = judge::standing(x.cause, found.called);
    let called = judge::standing(x.emergency, found.emergency_called);
    let number = updated.state.number();
    After {
        session: Session {
            opened: true,
            // from the next sample on: this one is predicted with the time that was in force
            consist: in_force(x.consist, lesson.learnt),
            brake: updated,
            learner: lesson.learner,
            cause,
            emergency: called,
        },
        decision: decided(false, m.time, number, cause, found.stop),
        emergency: decided(true, m.time, number, called, found.emergency_stop),
    }
}

// Judges a sample, with the profile and the targets lent for it, moves the session on and writes the two decisions to the front of `out`;
// where that is refused, the session and `out` stay as they were.
pub fn sample(x: &mut Session, s: &[u8], p: &[u8], t: &[u8], out: &mut [u8]) -> Verdict
    ensures { call_told (answer x.new result, out.new) ≡ call_told (sample_call x.old s.now p.now t.now out.old) }
{
    let Some(()) = refusal::unless(!session::is_open(*x)) else {
        return Err(Refusal::NoSession);
    };
    let m = admission::admit(x.consist, x.brake, s, p, t)?;
    let next = advance(x, m, p, t);
    decision::write_both(next.decision, next.emergency, out)?;
    *x = next.session;
    Ok(())
}
