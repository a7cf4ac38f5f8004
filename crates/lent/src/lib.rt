// A session in lent bytes, its buffer: its record, which crates `held` and `stored` read and write, stands at their start, and zeros behind it, 326 bytes
// in all. No call reads a byte past the record or writes one past these. Parameters and answers are as exported calls of crate `buongilach` have them: the
// number of a refusal, 0 for none, and a time of 0 for none.
#![tactic(auto)]

ghost use Rattle.std.specs.Prelude.{◌≡◌, true, ◌++◌, ◌≤◌, length, drop};
ghost use Rattle.session.specs.Session.{is_open};
ghost use Rattle.held.specs.Held.{most};
ghost use Rattle.lent.specs.Lent.{zeros, buffer_of, with_room, open_bytes, sample_bytes, is_open_bytes, application_bytes};

use brake::Choice;
use held::MOST;
use refusal::Refusal;
use session::Session;

// Sets every byte to zero.
fn clear(s: &mut [u8])
    ensures { s.new ≡ zeros (length s.old) }
{
    s.fill(0);
}

// Puts the session's buffer over the first 326 bytes. That the session is open is asked and no invariant: one that is not has a value too.
fn put(x: &Session, session: &mut [u8])
    requires opened { is_open x.now ≡ true }
    requires room { most ≤ length session.old }
    ensures { session.new ≡ buffer_of x.now ++ drop most session.old }
{
    clear(&mut session[..MOST]);
    // not refused: the session is open, and there is room for any
    let _ = stored::write(*x, session);
}

// What an opening is told, by number as C reads it, where its consist is told this: 12 is below 13, and given where a buffer has too few bytes and nothing lower is due.
fn with_room(told: u8, room: usize) -> u8
    ensures { result ≡ with_room told room }
{
    let full = Refusal::NoRoom.number();
    if (room < MOST) & ((told == 0) | (full <= told)) {
        return full;
    }
    told
}

// Opens a session anew with the consist and the choice: puts its buffer over the start of `session`.
pub fn open(session: &mut [u8], consist: &[u8], choice: Choice) -> u8
    ensures { (result, session.new) ≡ open_bytes consist.now session.old choice }
{
    let mut x = session::none();
    let told = refusal::verdict_number(session::open(&mut x, consist, choice));
    let number = with_room(told, session.len());
    if number != 0 {
        return number;
    }
    put(&x, session);
    0
}

// Judges a sample, with the profile and the targets lent for it, moves the session on and writes the two decisions to the start of `decision`.
pub fn sample(
    session: &mut [u8],
    sample: &[u8],
    profile: &[u8],
    targets: &[u8],
    decision: &mut [u8],
) -> u8
    ensures { (result, session.new, decision.new) ≡ sample_bytes session.old sample.now profile.now targets.now decision.old }
{
    let mut x = match held::read_start(&session[..]) {
        Ok(x) => x,
        Err(r) => return r.number(),
    };
    if let Err(r) = sampling::sample(&mut x, sample, profile, targets, decision) {
        return r.number();
    }
    put(&x, session);
    0
}

// Whether the buffer begins with an open session's record.
pub fn is_open(session: &[u8]) -> bool
    ensures { result ≡ is_open_bytes session.now }
{
    held::read_start(session).is_ok()
}

// The application time in force, in ms; 0 where the buffer begins with no open session's record.
pub fn application(session: &[u8]) -> u32
    ensures { result ≡ application_bytes session.now }
{
    let Ok(x) = held::read_start(session) else {
        return 0;
    };
    x.consist.application
}
