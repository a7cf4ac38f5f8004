// The consist: a record of 16 bytes, and the blocks that may follow it.
#![tactic(auto)]

ghost use Rattle.std.specs.Prelude.{◌≡◌, take, drop};
ghost use Rattle.bits.specs.Places.{fields_from, put_from};
ghost use Rattle.refusal.specs.Number.{told, answer_of};
ghost use Rattle.consist.specs.Consist.{widths, fields_of, of_fields, with_blocks, alone, size_of, in_range, too_light, sound_blocks, is_sound, none, read_consist, write_consist};

use blocks::Blocks;
use refusal::{Refusal, Verdict};

#[derive(Clone, Copy, Debug, PartialEq, Eq)]
pub struct Consist {
    pub cars: u16,
    pub axles: u16,
    // whole tons
    pub weight: u16,
    // feet
    pub length: u16,
    // rated brake force, lb
    pub rated: u32,
    // application time, ms
    pub application: u32,
    // hundredths of a psi per second
    pub recharge: u16,
    // set pressure, hundredths of a psi
    pub set: u16,
    // target offset, feet
    pub offset: u16,
    pub blocks: Blocks,
}

impl Consist {
    // Bytes of the record before its blocks.
    pub const SIZE: usize = 16;

    // The consist with other blocks.
    pub fn with_blocks(self, blocks: Blocks) -> Consist
        ensures { result ≡ with_blocks self blocks }
    {
        Consist { blocks, ..self }
    }

    // The consist without its blocks.
    pub fn alone(self) -> Consist
        ensures { result ≡ alone self }
    {
        self.with_blocks(Blocks::none())
    }

    // Bytes of the record with its blocks.
    fn size(&self) -> usize
        ensures { result ≡ size_of self.now }
    {
        Consist::SIZE + Blocks::SIZE * self.blocks.count as usize
    }

    #[tactic(auto, using(crate::proofs::Ranges::tested))]
    fn is_in_range(&self) -> bool
        ensures { result ≡ in_range self.now }
    {
        (1 <= self.cars)
            & (self.cars <= 250)
            & (2 <= self.axles)
            & (self.axles <= 2_000)
            & (10 <= self.weight)
            & (self.weight <= 30_000)
            & (50 <= self.length)
            & (self.length <= 20_000)
            & (self.rated <= 10_000_000)
            & (1_000 <= self.application)
            & (self.application <= 240_000)
            & (1 <= self.recharge)
            & (self.recharge <= 1_000)
            & (7_000 <= self.set)
            & (self.set <= 11_000)
            & (self.offset <= 4_000)
    }

    #[tactic(auto, unfolding(crate::specs::Consist::too_light))]
    fn is_too_light(&self) -> bool
        ensures { result ≡ too_light self.now }
    {
        (self.weight as u32) < 10 * self.cars as u32
    }

    #[tactic(auto, unfolding(crate::specs::Consist::sound_blocks))]
    fn has_sound_blocks(&self) -> bool
        ensures { result ≡ sound_blocks self.now }
    {
        blocks::is_sound(self.blocks, self.length, self.weight)
    }

    // The first five fields. The bytes before the blocks are put in two parts, each short enough to be put without a loop.
    // All records are put by `bits::put_fields`, which takes widths beside values: those are each record's own.
    fn put_front(&self, out: &mut [u8])
        ensures { out.new ≡ put_from 0 (take 5 widths) (take 5 (fields_of self.now)) out.old }
    {
        let widths = [9, 11, 15, 15, 24];
        let values = [
            self.cars as u64,
            self.axles as u64,
            self.weight as u64,
            self.length as u64,
            self.rated as u64,
        ];
        bits::put_fields(out, 0, &widths, &values);
    }

    // The other four.
    fn put_back(&self, out: &mut [u8])
        ensures { out.new ≡ put_from 74 (drop 5 widths) (drop 5 (fields_of self.now)) out.old }
    {
        let widths = [18, 10, 14, 12];
        let values = [
            self.application as u64,
            self.recharge as u64,
            self.set as u64,
            self.offset as u64,
        ];
        bits::put_fields(out, 74, &widths, &values);
    }
}

// The consist of the bytes before its blocks. All records are read by `bits::field`: names, places and types are each one's own.
fn of_bytes(s: &[u8]) -> Consist
    ensures { result ≡ of_fields (fields_from 0 widths s.now) }
{
    Consist {
        cars: bits::field(s, 0, 9) as u16,
        axles: bits::field(s, 9, 11) as u16,
        weight: bits::field(s, 20, 15) as u16,
        length: bits::field(s, 35, 15) as u16,
        rated: bits::field(s, 50, 24) as u32,
        application: bits::field(s, 74, 18) as u32,
        recharge: bits::field(s, 92, 10) as u16,
        set: bits::field(s, 102, 14) as u16,
        offset: bits::field(s, 116, 12) as u16,
        blocks: Blocks::none(),
    }
}

// Whether a consist is one that is not refused.
#[tactic(auto, unfolding(crate::specs::Consist::is_sound))]
pub fn is_sound(c: Consist) -> bool
    ensures { result ≡ is_sound c }
{
    c.is_in_range() & !c.is_too_light() & c.has_sound_blocks()
}

pub fn read(s: &[u8]) -> Result<Consist, Refusal>
    ensures { told (answer_of none result) ≡ told (read_consist s.now) }
{
    let Some(()) = refusal::unless(s.len() < Consist::SIZE) else {
        return Err(Refusal::WrongLength);
    };
    let c = of_bytes(&s[..Consist::SIZE]);
    let Some(()) = refusal::unless(!c.is_in_range()) else {
        return Err(Refusal::OutOfRange);
    };
    let Some(()) = refusal::unless(c.is_too_light()) else {
        return Err(Refusal::TooLight);
    };
    let behind = &s[Consist::SIZE..];
    let Some(()) = refusal::unless(blocks::is_broken(behind, c.length, c.weight)) else {
        return Err(Refusal::BrokenBlocks);
    };
    Ok(c.with_blocks(Blocks::laid(behind)))
}

// Writes the record to the front of `out`.
pub fn write(c: Consist, out: &mut [u8]) -> Verdict
    ensures { told (result, out.new) ≡ told (write_consist c out.old) }
{
    let Some(()) = refusal::unless(!c.is_in_range()) else {
        return Err(Refusal::OutOfRange);
    };
    let Some(()) = refusal::unless(c.is_too_light()) else {
        return Err(Refusal::TooLight);
    };
    let Some(()) = refusal::unless(out.len() < c.size()) else {
        return Err(Refusal::NoRoom);
    };
    let Some(()) = refusal::unless(!c.has_sound_blocks()) else {
        return Err(Refusal::BrokenBlocks);
    };
    c.put_front(out);
    c.put_back(out);
    blocks::put(c.blocks, &mut out[Consist::SIZE..]);
    Ok(())
}
