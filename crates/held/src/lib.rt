// The record of an open session, for a customer who keeps the session in bytes from call to call and across a restart: its constants and its reader.
// Crate `stored` writes it. It has a front of 66 bytes; where the consist has blocks, these follow it, with a check word of their own.
#![tactic(auto)]

ghost use Rattle.std.specs.Prelude.{◌≡◌, ◌≤◌, length, get_or};
ghost use Rattle.refusal.specs.Number.{answer_of};
ghost use Rattle.session.specs.Session.{none_open};
ghost use Rattle.held.specs.Held.{has_blocks, count_in, size_for, most, brake_of, learner_of, of_fields, fields_at, no_front, no_record, record_at, read_told, read_front, read_session};

use blocks::Blocks;
use brake::{Brake, Choice, State};
use consist::Consist;
use learn::{Learner, Stage};
use refusal::Refusal;
use session::Session;
use trend::Sums;

// Bytes of the front.
pub const SIZE: usize = 66;

// Bytes of its own fields; the consist without its blocks stands behind them, and the check word of both at the end.
pub const OWN: usize = 46;

pub const BODY: usize = OWN + Consist::SIZE;

// The mark of a record without blocks; with blocks it is their count and what is below it.
pub const MARK: u64 = 0x4655;

pub const LETTER: u64 = 0x4600;

// Bytes of the longest record; a session buffer has as many, or more.
pub const MOST: usize = SIZE + Blocks::SIZE * Blocks::MOST + seal::SIZE;

// Whether a mark tells of blocks, 1 to 64.
fn has_blocks(mark: u64) -> bool
    ensures { result ≡ has_blocks mark }
{
    (LETTER < mark) & (mark <= LETTER + Blocks::MOST as u64)
}

// Bytes of the record with this front.
fn size_at(front: &[u8]) -> usize
    ensures { (result ≡ size_for (count_in (get_or (fields_at front.now) 0 0))) × (result ≤ most) }
{
    let mark = bits::field(front, 0, 16);
    if !has_blocks(mark) {
        return SIZE;
    }
    SIZE + Blocks::SIZE * (mark - LETTER) as usize + seal::SIZE
}

// Not sealed, a wrong mark, a state above 5, or a stage of learning above 4.
#[tactic(auto, unfolding(crate::specs::Held::no_front, crate::specs::Held::wrong_mark))]
fn no_front(s: &[u8]) -> bool
    ensures { result ≡ no_front s.now }
{
    let mark = bits::field(s, 0, 16);
    let marked = (mark == MARK) | has_blocks(mark);
    !seal::is_sealed(s) | !marked | (bits::field(s, 26, 5) > 5) | (bits::field(s, 192, 4) > 4)
}

// Not as many bytes as there are with its blocks, no front, or blocks that are not sealed.
fn no_record(s: &[u8]) -> bool
    ensures { result ≡ no_record s.now }
{
    if s.len() < SIZE {
        return true;
    }
    if s.len() != size_at(&s[..SIZE]) {
        return true;
    }
    let front = no_front(&s[..SIZE]);
    if s.len() == SIZE {
        return front;
    }
    front | !seal::is_sealed(&s[SIZE..])
}

// Each reader below names its own fields and their places, as `brake_of`, `learner_of` and `of_fields` do: one over tables would hide them.

// The air brakes of a record's own fields.
fn brake_of(s: &[u8]) -> Brake
    ensures { result ≡ brake_of (fields_at s.now) }
{
    Brake {
        state: State::of_number(bits::field(s, 26, 5)),
        hold: bits::field(s, 56, 16) as u16,
        a: bits::field(s, 72, 16) as u16,
        b: bits::field(s, 88, 16) as u16,
        equalization: bits::field(s, 104, 16) as u16,
        fall: bits::field(s, 120, 16) as u16,
        last_front: bits::field(s, 136, 16) as u16,
        last_rear: bits::field(s, 152, 16) as u16,
        last_time: bits::field(s, 168, 24) as u32,
        sampled: bits::field(s, 24, 1) == 1,
        choice: Choice::of_number(bits::field(s, 25, 1)),
        heard: brake::heard_of(bits::field(s, 31, 25) as u32),
    }
}

// The sums of a record's own fields.
fn sums_of(s: &[u8]) -> Sums
    ensures { result ≡ (learner_of (fields_at s.now)).sums }
{
    Sums {
        count: bits::field(s, 260, 9) as u16,
        times: bits::field(s, 269, 18) as u32,
        squares: bits::field(s, 287, 27) as u32,
        pressures: bits::field(s, 314, 22) as u32,
        products: bits::field(s, 336, 32) as u32,
    }
}

// The learner of a record's own fields.
fn learner_of(s: &[u8]) -> Learner
    ensures { result ≡ learner_of (fields_at s.now) }
{
    Learner {
        stage: Stage::of_number(bits::field(s, 192, 4)),
        since: bits::field(s, 196, 24) as u32,
        init: bits::field(s, 220, 12) as u16,
        last: bits::field(s, 232, 12) as u16,
        pressure: bits::field(s, 244, 16) as u16,
        sums: sums_of(s),
    }
}

// The open session of a record's own fields and a consist, whatever the mark.
fn of_bytes(s: &[u8], consist: Consist) -> Session
    ensures { result ≡ of_fields (fields_at s.now) consist }
{
    Session {
        opened: true,
        consist,
        brake: brake_of(s),
        learner: learner_of(s),
        cause: bits::field(s, 16, 4) as u8,
        emergency: bits::field(s, 20, 4) as u8,
    }
}

// The session of a front's fields and this consist, where it is open.
fn read_front(s: &[u8], c: Consist) -> Result<Session, Refusal>
    ensures { read_told (answer_of none_open result) ≡ read_told (read_front s.now c) }
{
    let x = of_bytes(s, c);
    let Some(()) = refusal::unless(!session::is_open(x)) else {
        return Err(Refusal::NoSession);
    };
    Ok(x)
}

// The session of a record.
pub fn read(s: &[u8]) -> Result<Session, Refusal>
    ensures { read_told (answer_of none_open result) ≡ read_told (read_session s.now) }
{
    let Some(()) = refusal::unless(no_record(s)) else {
        return Err(Refusal::NoSession);
    };
    let Ok(c) = consist::read(&s[OWN..BODY]) else {
        return Err(Refusal::NoSession);
    };
    if s.len() == SIZE {
        return read_front(&s[..SIZE], c);
    }
    let end = s.len() - seal::SIZE;
    let Some(()) = refusal::unless(blocks::is_broken(&s[SIZE..end], c.length, c.weight)) else {
        return Err(Refusal::NoSession);
    };
    let b = Blocks::laid(&s[SIZE..end]);
    read_front(&s[..SIZE], c.with_blocks(b))
}

// The session of the record that a session buffer begins with; one of fewer bytes than the longest record has none.
#[tactic(auto, using(crate::proofs::Start::none_at_start))]
pub fn read_start(s: &[u8]) -> Result<Session, Refusal>
    ensures { read_told (answer_of none_open result) ≡ read_told (read_session (record_at s.now)) }
{
    if s.len() < MOST {
        return Err(Refusal::NoSession);
    }
    let size = size_at(&s[..SIZE]);
    read(&s[..size])
}
