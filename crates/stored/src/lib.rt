// The writer of an open session's record, which crate `held` defines and reads.
#![tactic(auto)]

ghost use Rattle.std.specs.Prelude.{◌≡◌, true, ◌++◌, ◌≤◌, length, take, drop};
ghost use Rattle.bits.specs.Places.{put_from};
ghost use Rattle.blocks.specs.Blocks as blocks;
ghost use Rattle.refusal.specs.Number.{told};
ghost use Rattle.learn.specs.Stage.{learner_told};
ghost use Rattle.session.specs.Session.{is_open};
ghost use Rattle.held.specs.Held.{size, mark_for, behind_for, size_for, size_of, widths, fields_of, front_of, behind_of, bytes_of, write_session};

use blocks::Blocks;
use held::{BODY, LETTER, MARK, OWN, SIZE};
use learn::Learner;
use refusal::{Refusal, Verdict};
use session::Session;

// The mark of a record with so many blocks.
fn mark_for(count: u8) -> u64
    ensures { result ≡ mark_for count }
{
    if count == 0 {
        return MARK;
    }
    LETTER + count as u64
}

// Bytes of the record with so many.
fn size_for(count: u8) -> usize
    ensures { result ≡ size_for count }
{
    if count == 0 {
        return SIZE;
    }
    SIZE + Blocks::SIZE * count as usize + seal::SIZE
}

// The fields are put in seven parts of at most six: so few are put without a loop (267 instructions to 999: docs/DECISIONS.md, 68). Their
// widths stand beside their values as in `put_from`, and what is put beside the bytes that it is put over, which are no part of it.

// The first four fields.
fn put_first(x: &Session, out: &mut [u8])
    ensures { out.new ≡ put_from 0 (take 4 widths) (take 4 (fields_of x.now)) out.old }
{
    let values = [
        mark_for(x.consist.blocks.count),
        x.cause as u64,
        x.emergency as u64,
        x.brake.sampled as u64,
    ];
    bits::put_fields(out, 0, &[16, 4, 4, 1], &values);
}

// The choice, the state, and when the rear was last present.
fn put_state(x: &Session, out: &mut [u8])
    ensures { out.new ≡ put_from 25 (take 3 (drop 4 widths)) (take 3 (drop 4 (fields_of x.now))) out.old }
{
    let values = [
        x.brake.choice.number(),
        x.brake.state.number() as u64,
        brake::heard_number(x.brake.heard),
    ];
    bits::put_fields(out, 25, &[1, 5, 25], &values);
}

// Hold, A, B and equalization.
fn put_pressures(x: &Session, out: &mut [u8])
    ensures { out.new ≡ put_from 56 (take 4 (drop 7 widths)) (take 4 (drop 7 (fields_of x.now))) out.old }
{
    let k = &x.brake;
    let values = [k.hold as u64, k.a as u64, k.b as u64, k.equalization as u64];
    bits::put_fields(out, 56, &[16, 16, 16, 16], &values);
}

// Fall, last front, last rear and last time.
fn put_back(x: &Session, out: &mut [u8])
    ensures { out.new ≡ put_from 120 (take 4 (drop 11 widths)) (take 4 (drop 11 (fields_of x.now))) out.old }
{
    let k = &x.brake;
    let values = [
        k.fall as u64,
        k.last_front as u64,
        k.last_rear as u64,
        k.last_time as u64,
    ];
    bits::put_fields(out, 120, &[16, 16, 16, 24], &values);
}

// The learner's stage, when the front fell, t_INIT and the last point's t.
fn put_stage(l: &Learner, out: &mut [u8])
    ensures { out.new ≡ put_from 192 (take 4 (drop 15 widths)) (take 4 (learner_told l.now)) out.old }
{
    let values = [
        l.stage.number() as u64,
        l.since as u64,
        l.init as u64,
        l.last as u64,
    ];
    bits::put_fields(out, 192, &[4, 24, 12, 12], &values);
}

// p0 or the last point's p, the count of points and the sum of their times.
fn put_points(l: &Learner, out: &mut [u8])
    ensures { out.new ≡ put_from 244 (take 3 (drop 19 widths)) (take 3 (drop 4 (learner_told l.now))) out.old }
{
    let values = [l.pressure as u64, l.sums.count as u64, l.sums.times as u64];
    bits::put_fields(out, 244, &[16, 9, 18], &values);
}

// The other three sums.
fn put_sums(l: &Learner, out: &mut [u8])
    ensures { out.new ≡ put_from 287 (drop 22 widths) (drop 7 (learner_told l.now)) out.old }
{
    let s = &l.sums;
    let values = [s.squares as u64, s.pressures as u64, s.products as u64];
    bits::put_fields(out, 287, &[27, 22, 32], &values);
}

// What is kept of learning.
fn put_learner(l: &Learner, out: &mut [u8])
    ensures { out.new ≡ put_from 192 (drop 15 widths) (learner_told l.now) out.old }
{
    put_stage(l, out);
    put_points(l, out);
    put_sums(l, out);
}

// The record's own fields.
fn put_own(x: &Session, out: &mut [u8])
    ensures { out.new ≡ put_from 0 widths (fields_of x.now) out.old }
{
    put_first(x, out);
    put_state(x, out);
    put_pressures(x, out);
    put_back(x, out);
    put_learner(&x.learner, out);
}

// Puts the front over the first 66 bytes of `out`. That the session is open is asked, here and in `put`, and no invariant: `write` takes any, and refuses 1.
fn put_front(x: &Session, out: &mut [u8])
    requires opened { is_open x.now ≡ true }
    requires room { size ≤ length out.old }
    ensures { out.new ≡ front_of x.now ++ drop size out.old }
{
    put_own(x, out);
    // not refused: an open session's consist is sound
    let _ = consist::write(x.consist.alone(), &mut out[OWN..BODY]);
    seal::put_check_word(&mut out[0..SIZE]);
}

// Puts blocks, where there are any, and their check word over `out`.
fn put_behind(b: Blocks, out: &mut [u8])
    requires few { b.count ≤ blocks.most }
    requires room { behind_for b.count ≡ length out.old }
    ensures { out.new ≡ behind_of b.count (blocks.bytes_of b) }
{
    if b.count == 0 {
        return;
    }
    blocks::put(b, out);
    seal::put_check_word(out);
}

// Puts the record over the first bytes of `out`.
fn put(x: &Session, out: &mut [u8])
    requires opened { is_open x.now ≡ true }
    requires room { size_of x.now ≤ length out.old }
    ensures { out.new ≡ bytes_of x.now ++ drop (size_of x.now) out.old }
{
    let end = size_for(x.consist.blocks.count);
    put_front(x, out);
    put_behind(x.consist.blocks, &mut out[SIZE..end]);
}

// Writes the record to the first bytes of `out`.
pub fn write(x: Session, out: &mut [u8]) -> Verdict
    ensures { told (result, out.new) ≡ told (write_session x out.old) }
{
    let Some(()) = refusal::unless(!session::is_open(x)) else {
        return Err(Refusal::NoSession);
    };
    let size = size_for(x.consist.blocks.count);
    let Some(()) = refusal::unless(out.len() < size) else {
        return Err(Refusal::NoRoom);
    };
    put(&x, out);
    Ok(())
}
