// The records from numbers: each record's writer over plain numbers and lent bytes. A reading is the 32 bits of a binary32; an answer is the
// refusal's number, 0 for none. Parameters, lists side by side and answers are as the exported calls of crate `buongilach` have them.
#![tactic(auto)]

ghost use Rattle.std.specs.Prelude.{◌≡◌, [], ◌∷◌, ltb};
ghost use Rattle.refusal.specs.Lowest.{lowest};
ghost use Rattle.refusal.specs.Number.{told};
ghost use Rattle.consist.specs.Consist.{rules};
ghost use Rattle.sample.specs.Sample.{rear_of};
ghost use Rattle.writes.specs.Written.{consist_written, size_with, are_listed, write_manifest, manifest_written, profile_written, targets_written, sample_fields, sample_written};

use blocks::Blocks;
use consist::Consist;
use refusal::{Refusal, Verdict};
use sample::{RawSample, Rear};

// A consist without blocks. It and `manifest` lay out C's nine numbers: a function of these nine for both would be no shorter.
pub fn consist(
    cars: u16,
    axles: u16,
    weight: u16,
    length: u16,
    rated: u32,
    application: u32,
    recharge: u16,
    set: u16,
    offset: u16,
    out: &mut [u8],
) -> u8
    ensures { (result, out.new) ≡ consist_written (cars ∷ axles ∷ weight ∷ length ∷ rated ∷ application ∷ recharge ∷ set ∷ offset ∷ []) out.old }
{
    let c = Consist {
        cars,
        axles,
        weight,
        length,
        rated,
        application,
        recharge,
        set,
        offset,
        blocks: Blocks::none(),
    };
    refusal::verdict_number(consist::write(c, out))
}

// What a consist is refused for whatever its blocks: it is written aside without them.
fn judge_front(c: Consist) -> Verdict
    ensures { result ≡ lowest (rules c) }
{
    let mut aside = [0u8; Consist::SIZE];
    consist::write(c.alone(), &mut aside)
}

// Whether `room` bytes are too few for a consist with `count` blocks. (4 * count may not fit a word.)
fn is_short(room: usize, count: usize) -> bool
    ensures { result ≡ ltb room (size_with count) }
{
    if room < Consist::SIZE {
        return true;
    }
    (room - Consist::SIZE) / Blocks::SIZE < count
}

// Whether two lists can be blocks: as many weights as lengths, and no more than there may be.
fn are_listed(lengths: &[u16], weights: &[u16]) -> bool
    ensures { result ≡ are_listed lengths.now weights.now }
{
    (weights.len() == lengths.len()) & (lengths.len() <= Blocks::MOST)
}

// Writes a consist with the blocks of two lists in place of its own.
fn write_manifest(c: Consist, lengths: &[u16], weights: &[u16], out: &mut [u8]) -> Verdict
    ensures { told (result, out.new) ≡ told (write_manifest c lengths.now weights.now out.old) }
{
    judge_front(c)?;
    let Some(()) = refusal::unless(is_short(out.len(), lengths.len())) else {
        return Err(Refusal::NoRoom);
    };
    let Some(()) = refusal::unless(!are_listed(lengths, weights)) else {
        return Err(Refusal::BrokenBlocks);
    };
    let listed = c.with_blocks(Blocks::of_lists(lengths, weights));
    consist::write(listed, out)
}

// A consist with a block for each length and weight, head end first.
pub fn manifest(
    cars: u16,
    axles: u16,
    weight: u16,
    length: u16,
    rated: u32,
    application: u32,
    recharge: u16,
    set: u16,
    offset: u16,
    lengths: &[u16],
    weights: &[u16],
    out: &mut [u8],
) -> u8
    ensures { (result, out.new) ≡ manifest_written (cars ∷ axles ∷ weight ∷ length ∷ rated ∷ application ∷ recharge ∷ set ∷ offset ∷ []) lengths.now weights.now out.old }
{
    let front = Consist {
        cars,
        axles,
        weight,
        length,
        rated,
        application,
        recharge,
        set,
        offset,
        blocks: Blocks::none(),
    };
    refusal::verdict_number(write_manifest(front, lengths, weights, out))
}

// This and `targets` each hand lists on to the writer of their record.
pub fn profile(starts: &[u32], grades: &[i16], curvatures: &[u16], out: &mut [u8]) -> u8
    ensures { (result, out.new) ≡ profile_written starts.now grades.now curvatures.now out.old }
{
    refusal::verdict_number(profile::write(starts, grades, curvatures, out))
}

pub fn targets(locations: &[u32], speeds: &[u16], out: &mut [u8]) -> u8
    ensures { (result, out.new) ≡ targets_written locations.now speeds.now out.old }
{
    refusal::verdict_number(targets::write(locations, speeds, out))
}

// As C gives it: whether it is lost, and the bits of its reading. The sample's own `rear_of` is no public call: made one, it would be a call
// more to promise and to try, for three lines.
fn rear_of(lost: bool, bits: u32) -> Rear
    ensures { result ≡ rear_of lost bits }
{
    if lost {
        Rear::Lost
    } else {
        Rear::Present(hundredths::float_of(bits))
    }
}

// Any `present` but 0 says that the rear is present.
pub fn sample(
    time: u32,
    head: u32,
    speed: u32,
    front: u32,
    present: u32,
    rear: u32,
    out: &mut [u8],
) -> u8
    ensures { (result, out.new) ≡ sample_written (sample_fields time present head speed front rear) out.old }
{
    let lost = present == 0;
    let Some(()) = refusal::unless(lost & (rear != 0)) else {
        return Refusal::WrongMark.number();
    };
    let raw = RawSample {
        time,
        head,
        speed: hundredths::float_of(speed),
        front: hundredths::float_of(front),
        rear: rear_of(lost, rear),
    };
    refusal::verdict_number(sample::write(raw, out))
}
