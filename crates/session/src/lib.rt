// A session: what is held from call to call, and its opening.
#![tactic(auto)]

ghost use Rattle.std.specs.Prelude.{◌≡◌};
ghost use Rattle.session.specs.Session.{is_fresh, is_open, none_open, session_told, answer, answer_told};
ghost use Rattle.session.specs.Open.{open_of};

use blocks::Blocks;
use brake::{Brake, Choice};
use consist::Consist;
use learn::{Learner, Stage};
use refusal::Verdict;
use targets::Target;

// What is held from call to call. `opened` is a flag and a cause a number with 0 for none: `is_open` answers for each such value, and
// the record of an open session holds them so (`fields_of`).
#[derive(Clone, Copy, Debug, PartialEq, Eq)]
pub struct Session {
    // by an opening
    pub opened: bool,
    // its application time is the one in force: typed, or learnt since
    pub consist: Consist,
    pub brake: Brake,
    // what is kept of the application that is under way
    pub learner: Learner,
    // the standing penalty's: the target's place in the list, from 1, or 0 for none
    pub cause: u8,
    // the standing emergency's, likewise; it stands behind a penalty only
    pub emergency: u8,
}

// The value before any opening.
pub fn none() -> Session
    ensures { session_told result ≡ session_told none_open }
{
    let consist = Consist {
        cars: 0,
        axles: 0,
        weight: 0,
        length: 0,
        rated: 0,
        application: 0,
        recharge: 0,
        set: 0,
        offset: 0,
        blocks: Blocks::none(),
    };
    Session {
        opened: false,
        consist,
        brake: Brake::at_opening(consist, Choice::FiveSeconds),
        learner: Learner::bare(Stage::Waiting),
        cause: 0,
        emergency: 0,
    }
}

// Whether a session is as it was opened: no sample taken, nothing learnt, and no penalty.
fn is_fresh(x: &Session) -> bool
    ensures { result ≡ is_fresh x.now }
{
    x.brake.is_at_opening(x.consist)
        & x.learner.is_at_opening()
        & (x.cause == 0)
        & (x.emergency == 0)
}

// Whether a session is open, as far as a test on its value can tell: by value, as `session_is_open` in demands' `Calls` states it.
#[tactic(auto, unfolding(crate::specs::Session::is_open))]
pub fn is_open(x: Session) -> bool
    ensures { result ≡ is_open x }
{
    x.opened
        & consist::is_sound(x.consist)
        & x.brake.is_sound(x.consist)
        & x.learner.is_sound()
        & (x.cause as usize <= Target::MOST)
        & (x.emergency as usize <= Target::MOST)
        & ((x.emergency == 0) | (x.cause != 0))
        & (x.brake.sampled | is_fresh(&x))
}

// Opens a session anew with the consist that the bytes are, and the choice of what a lost rear counts as; where that is
// refused, the session stays as it was.
pub fn open(x: &mut Session, s: &[u8], choice: Choice) -> Verdict
    ensures { answer_told (answer x.new result) ≡ answer_told (open_of x.old s.now choice) }
{
    let consist = consist::read(s)?;
    *x = Session {
        opened: true,
        consist,
        brake: Brake::at_opening(consist, choice),
        learner: Learner::bare(Stage::Waiting),
        cause: 0,
        emergency: 0,
    };
    Ok(())
}
