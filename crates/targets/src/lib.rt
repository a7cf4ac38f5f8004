//! The targets: records of 5 bytes, each a place and the speed asked for there.
#![tactic(auto)]

ghost use Rattle.std.specs.Prelude.{◌≡◌, length, true};
ghost use Rattle.refusal.specs.Number.{told, answer_of};
ghost use Rattle.targets.specs.Targets.{targets, target_at, judge_targets, target_of, same, write_targets};
ghost use Rattle.targets.specs.Laws.{sizes};

use refusal::{Refusal, Verdict};
use table::rows::{Record, Rows};

#[derive(Clone, Copy, Debug, PartialEq, Eq)]
pub struct Target {
    // feet
    pub location: u32,
    // hundredths of a mph
    pub speed: u16,
}

impl Target {
    // Bytes of a record.
    pub const SIZE: usize = 5;
    // The most records.
    pub const MOST: usize = 8;

    // The greatest speed.
    pub const FASTEST: u16 = 10_000;
}

impl Record for Target {
    ghost layout = { targets };

    const SIZE: usize = Target::SIZE;

    ghost SIZE = { 5 };

    const FEWEST: usize = 0;

    ghost FEWEST = { 0 };

    const MOST: usize = Target::MOST;

    ghost MOST = { 8 };

    fn at(s: &[u8], k: usize) -> Target {
        let s = table::record(s, Target::SIZE, k);
        Target {
            location: bits::field(s, 0, 24) as u32,
            speed: bits::field(s, 24, 16) as u16,
        }
    }

    // No bit is spare.
    #[tactic(auto, unfolding(table::specs::Table::clean_at))]
    fn is_clean_at(_s: &[u8], _k: usize) -> bool {
        true
    }

    #[tactic(auto, unfolding(crate::specs::Targets::in_range))]
    fn is_in_range(&self) -> bool {
        (self.location <= record::FARTHEST) & (self.speed <= Target::FASTEST)
    }

    fn key(&self) -> u32 {
        self.location
    }

    // The last one is as the others.
    fn may_end(&self) -> bool {
        true
    }

    // All records are put by `bits::put_fields`, which takes widths beside values: those are each record's own.
    fn put_at(&self, out: &mut [u8], k: usize) {
        let at = Target::SIZE * k;
        let widths = [24, 16];
        let values = [self.location as u64, self.speed as u64];
        bits::put_fields(&mut out[at..], 0, &widths, &values);
    }

    fn broken() -> Refusal {
        Refusal::BrokenTargets
    }

    ghost sizes = { sizes };
}

// Targets as lists: a location and a speed for each.
#[derive(Clone, Copy)]
struct Lists<'a> {
    locations: &'a [u32],
    speeds: &'a [u16],
}

impl<'a> Rows for Lists<'a> {
    type Item = Target;

    ghost whole = { λ t. same t.locations.now t.speeds.now };

    ghost count = { λ t. length t.locations.now };

    ghost nth = { λ t k. target_of t.locations.now t.speeds.now k };

    ghost clean = { λ t k. true };

    fn are_whole(&self) -> bool {
        self.speeds.len() == self.locations.len()
    }

    fn count(&self) -> usize {
        self.locations.len()
    }

    fn row(&self, k: usize) -> Target {
        Target {
            location: self.locations[k],
            speed: self.speeds[k],
        }
    }

    fn is_clean(&self, _k: usize) -> bool {
        true
    }
}

// Record k; past the last whole record, one of zeros. This, `judge` and `write` are `table`'s, by their public names.
pub fn target_at(t: &[u8], k: usize) -> Target
    ensures { result ≡ target_at t.now k }
{
    Target::at(t, k)
}

// How many records there are.
pub fn judge(t: &[u8]) -> Result<usize, Refusal>
    ensures { told (answer_of 0 result) ≡ told (judge_targets t.now) }
{
    table::rows::judge::<Target>(t)
}

// Writes the records to the front of `out`, a record for each location and speed: lists, as C gives them (`buongilach_write_targets`).
#[tactic(auto, using(crate::proofs::Sound::facts))]
pub fn write(locations: &[u32], speeds: &[u16], out: &mut [u8]) -> Verdict
    ensures { told (result, out.new) ≡ told (write_targets locations.now speeds.now out.old) }
{
    let lists = Lists { locations, speeds };
    table::rows::write(&lists, out)
}
