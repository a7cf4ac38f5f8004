// The decision: a record of 8 bytes, of which a sample call writes two.
#![tactic(auto)]

ghost use Rattle.std.specs.Prelude.{◌≡◌};
ghost use Rattle.bits.specs.Places.{fields_from, put_from};
ghost use Rattle.refusal.specs.Number.{told, answer_of};
ghost use Rattle.decision.specs.Decision.{widths, mark_of, fields_of, of_fields, out_of_range, none, read_decision, write_decision, write_both};

use refusal::{Refusal, Verdict};

// Flags beside numbers, and numbers for none: `out_of_range` tells of a penalty and a cause that don't agree, and `write` refuses them.
#[derive(Clone, Copy, Debug, PartialEq, Eq)]
pub struct Decision {
    // the second record of a sample call, where penalty, cause and stop are the emergency's
    pub emergency: bool,
    // seconds
    pub time: u32,
    // brake state
    pub state: u8,
    pub penalty: bool,
    // the target's place in the list, from 1, or 0
    pub cause: u8,
    // stopping location, feet
    pub stop: u32,
}

impl Decision {
    // Bytes of the record.
    pub const SIZE: usize = 8;

    // Bytes of a sample call's two records.
    pub const BOTH: usize = 16;

    pub const MARK: u64 = 0x44;

    pub const EMERGENCY_MARK: u64 = 0x45;

    #[tactic(auto, unfolding(crate::specs::Decision::out_of_range))]
    fn is_out_of_range(&self) -> bool
        ensures { result ≡ out_of_range self.now }
    {
        (self.time >= 0x100_0000)
            | (self.state > 5)
            | (self.cause > 8)
            | (self.penalty != (self.cause != 0))
            | !((self.stop <= record::FARTHEST) | (self.stop == record::NO_STOP))
    }

    // All records are put by `bits::put_fields`, which takes widths beside values: those are each record's own.
    fn put(&self, out: &mut [u8])
        ensures { out.new ≡ put_from 0 widths (fields_of self.now) out.old }
    {
        let widths = [8, 24, 3, 1, 4, 24];
        let values = [
            mark_of(self.emergency),
            self.time as u64,
            self.state as u64,
            self.penalty as u64,
            self.cause as u64,
            self.stop as u64,
        ];
        bits::put_fields(out, 0, &widths, &values);
    }
}

// No `From`: both types are std's.
fn mark_of(emergency: bool) -> u64
    ensures { result ≡ mark_of emergency }
{
    if emergency {
        Decision::EMERGENCY_MARK
    } else {
        Decision::MARK
    }
}

// The decision of a record's bits, whatever the mark: one that is wrong counts as the first record's.
// All records are read by `bits::field`: names, places and types are each one's own.
fn of_bytes(s: &[u8]) -> Decision
    ensures { result ≡ of_fields (fields_from 0 widths s.now) }
{
    Decision {
        emergency: bits::field(s, 0, 8) == Decision::EMERGENCY_MARK,
        time: bits::field(s, 8, 24) as u32,
        state: bits::field(s, 32, 3) as u8,
        penalty: bits::field(s, 35, 1) == 1,
        cause: bits::field(s, 36, 4) as u8,
        stop: bits::field(s, 40, 24) as u32,
    }
}

pub fn read(s: &[u8]) -> Result<Decision, Refusal>
    ensures { told (answer_of none result) ≡ told (read_decision s.now) }
{
    let Some(()) = refusal::unless(s.len() != Decision::SIZE) else {
        return Err(Refusal::WrongLength);
    };
    let mark = bits::field(s, 0, 8);
    let right = (mark == Decision::MARK) | (mark == Decision::EMERGENCY_MARK);
    let Some(()) = refusal::unless(!right) else {
        return Err(Refusal::WrongMark);
    };
    let d = of_bytes(s);
    let Some(()) = refusal::unless(d.is_out_of_range()) else {
        return Err(Refusal::OutOfRange);
    };
    Ok(d)
}

// Writes the record to the first 8 bytes of `out`.
pub fn write(d: Decision, out: &mut [u8]) -> Verdict
    ensures { told (result, out.new) ≡ told (write_decision d out.old) }
{
    let Some(()) = refusal::unless(d.is_out_of_range()) else {
        return Err(Refusal::OutOfRange);
    };
    let Some(()) = refusal::unless(out.len() < Decision::SIZE) else {
        return Err(Refusal::NoRoom);
    };
    d.put(out);
    Ok(())
}

// Writes a sample call's two records to the first 16 bytes of `out`. Not `write` twice: nothing is put where the second is refused.
pub fn write_both(first: Decision, second: Decision, out: &mut [u8]) -> Verdict
    ensures { told (result, out.new) ≡ told (write_both first second out.old) }
{
    let Some(()) = refusal::unless(first.is_out_of_range() | second.is_out_of_range()) else {
        return Err(Refusal::OutOfRange);
    };
    let Some(()) = refusal::unless(out.len() < Decision::BOTH) else {
        return Err(Refusal::NoRoom);
    };
    first.put(out);
    second.put(&mut out[Decision::SIZE..]);
    Ok(())
}
