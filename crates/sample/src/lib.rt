// The sample: a record of 20 bytes. Its layout is read first, the readings as raw floats, and the readings are judged after that.
#![tactic(auto)]

ghost use Rattle.std.specs.Prelude.{◌≡◌};
ghost use Rattle.bits.specs.Fields.{Fit};
ghost use Rattle.bits.specs.Places.{fields_from, put_from};
ghost use Rattle.refusal.specs.Number.{told, answer_of};
ghost use Rattle.sample.specs.Sample.{reading_widths, widths, present_bit, rear_bits, readings_of, fields_of, rear_of, of_fields, wrong_mark, none, answer_told, lay_out, read_sample, no_sample, judged_told, judge_sample, write_sample};

use refusal::{Refusal, Verdict};

// No `Option`, here and wherever it is matched: document 01 names this form.
#[derive(Clone, Copy, Debug, PartialEq)]
pub enum Rear {
    // psi
    Present(f32),
    Lost,
}

// The readings as received.
#[derive(Clone, Copy, Debug, PartialEq)]
pub struct RawSample {
    // seconds
    pub time: u32,
    // feet
    pub head: u32,
    // mph
    pub speed: f32,
    // psi
    pub front: f32,
    pub rear: Rear,
}

impl RawSample {
    // Bytes of the record.
    pub const SIZE: usize = 20;

    pub const MARK: u64 = 0x53;
}

// Not one generic with `Rear`: document 01 names the form of that.
// No `Option`, here and wherever it is matched, in other crates too: it has the two cases of `Rear`, by document 01's names.
#[derive(Clone, Copy, Debug, PartialEq, Eq)]
pub enum RearPressure {
    Present(u16),
    Lost,
}

// The readings in hundredths: a type beside `RawSample`, whose form document 01 names.
#[derive(Clone, Copy, Debug, PartialEq, Eq)]
pub struct Sample {
    pub time: u32,
    pub head: u32,
    pub speed: u16,
    pub front: u16,
    pub rear: RearPressure,
}

// A rear as it is read: whether the bit says that it is lost, and the bits of its reading, as the record has them side by side.
// No `From`, here and in `rear_fields`: a bit and a word have no type of their own.
fn rear_of(lost: bool, bits: u32) -> Rear
    ensures { result ≡ rear_of lost bits }
{
    if lost {
        Rear::Lost
    } else {
        Rear::Present(hundredths::float_of(bits))
    }
}

// The raw sample of a record's bits, whatever the mark.
// All records are read by `bits::field`: names, places and types are each one's own.
fn of_bytes(s: &[u8]) -> RawSample
    ensures { result ≡ of_fields (fields_from 0 widths s.now) }
{
    RawSample {
        time: bits::field(s, 8, 24) as u32,
        head: bits::field(s, 40, 24) as u32,
        speed: hundredths::float_of(bits::field(s, 64, 32) as u32),
        front: hundredths::float_of(bits::field(s, 96, 32) as u32),
        rear: rear_of(bits::field(s, 32, 1) == 0, bits::field(s, 128, 32) as u32),
    }
}

// A wrong mark, a spare bit set, or a lost rear with bits.
#[tactic(auto, unfolding(crate::specs::Sample::wrong_mark))]
fn wrong_mark(s: &[u8]) -> bool
    ensures { result ≡ wrong_mark (fields_from 0 widths s.now) }
{
    let mark = bits::field(s, 0, 8);
    let lost = bits::field(s, 32, 1) == 0;
    let spare = bits::field(s, 33, 7);
    let rear = bits::field(s, 128, 32);
    (mark != RawSample::MARK) | (spare != 0) | (lost & (rear != 0))
}

// The record's layout alone: the readings may be anything.
pub fn lay_out(s: &[u8]) -> Result<RawSample, Refusal>
    ensures { answer_told (answer_of none result) ≡ answer_told (lay_out s.now) }
{
    let Some(()) = refusal::unless(s.len() != RawSample::SIZE) else {
        return Err(Refusal::WrongLength);
    };
    let Some(()) = refusal::unless(wrong_mark(s)) else {
        return Err(Refusal::WrongMark);
    };
    Ok(of_bytes(s))
}

// The readings of a raw sample; a lost rear is not judged. Time and head are copied by name, as the types differ.
pub fn judge(raw: RawSample) -> Result<Sample, Refusal>
    ensures { judged_told (answer_of no_sample result) ≡ judged_told (judge_sample raw) }
{
    let Some(speed) = hundredths::speed(raw.speed) else {
        return Err(Refusal::BadReading);
    };
    let Some(front) = hundredths::pressure(raw.front) else {
        return Err(Refusal::BadReading);
    };
    let rear = match raw.rear {
        Rear::Present(x) => {
            let Some(pressure) = hundredths::pressure(x) else {
                return Err(Refusal::BadReading);
            };
            RearPressure::Present(pressure)
        }
        Rear::Lost => RearPressure::Lost,
    };
    Ok(Sample {
        time: raw.time,
        head: raw.head,
        speed,
        front,
        rear,
    })
}

pub fn read(s: &[u8]) -> Result<RawSample, Refusal>
    ensures { answer_told (answer_of none result) ≡ answer_told (read_sample s.now) }
{
    let raw = lay_out(s)?;
    judge(raw)?;
    Ok(raw)
}

// A rear as it is written: whether it is present, and the bits of its reading.
fn rear_fields(rear: Rear) -> (u64, u32)
    ensures { (result.0 ≡ present_bit rear) × (result.1 ≡ rear_bits rear) }
{
    match rear {
        Rear::Present(x) => (1, hundredths::bits_of(x)),
        Rear::Lost => (0, 0),
    }
}

// Puts the fields in their places; the readings' bits fit their 32.
// All records are put by `bits::put_fields`, which takes widths beside values: those are each record's own.
fn put(raw: RawSample, out: &mut [u8])
    ensures { (out.new ≡ put_from 0 widths (fields_of raw) out.old) × Fit reading_widths (readings_of raw) }
{
    let (present, rear) = rear_fields(raw.rear);
    let widths = [8, 24, 1, 7, 24, 32, 32, 32];
    let values = [
        RawSample::MARK,
        raw.time as u64,
        present,
        0,
        raw.head as u64,
        hundredths::bits_of(raw.speed) as u64,
        hundredths::bits_of(raw.front) as u64,
        rear as u64,
    ];
    bits::put_fields(out, 0, &widths, &values);
}

// Writes the record to the first 20 bytes of `out`.
pub fn write(raw: RawSample, out: &mut [u8]) -> Verdict
    ensures { told (result, out.new) ≡ told (write_sample raw out.old) }
{
    let Some(()) = refusal::unless((raw.time >= 0x100_0000) | (raw.head >= 0x100_0000)) else {
        return Err(Refusal::OutOfRange);
    };
    judge(raw)?;
    let Some(()) = refusal::unless(out.len() < RawSample::SIZE) else {
        return Err(Refusal::NoRoom);
    };
    put(raw, out);
    Ok(())
}
