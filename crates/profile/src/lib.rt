//! The profile: records of 6 bytes, each a segment of track.
#![tactic(auto)]

ghost use Rattle.std.specs.Prelude.{◌≡◌, true, ◌^◌, ◌<◌, length};
ghost use Rattle.std.specs.Int.Signed.{mag};
ghost use Rattle.refusal.specs.Number.{told, answer_of};
ghost use Rattle.profile.specs.Grade.{grade_of, grade_bits};
ghost use Rattle.profile.specs.Laws.{sizes};
ghost use Rattle.profile.specs.Profile.{segments, segment_at, judge_profile, segment_of, same, write_profile};

use refusal::{Refusal, Verdict};
use table::rows::{Record, Rows};

// The track from a record's start to the next one's.
#[derive(Clone, Copy, Debug, PartialEq, Eq)]
pub struct Segment {
    // feet
    pub start: u32,
    // hundredths of a percent, negative downhill
    pub grade: i16,
    // hundredths of a degree
    pub curvature: u16,
}

impl Segment {
    // Bytes of a record.
    pub const SIZE: usize = 6;
    // The fewest and the most records.
    pub const FEWEST: usize = 2;

    pub const MOST: usize = 257;

    // The least and the greatest grade.
    pub const STEEPEST_DOWN: i16 = -500;

    pub const STEEPEST_UP: i16 = 500;
    // The greatest curvature.
    pub const SHARPEST: u16 = 2_000;
}

// The grade that eleven bits are. No `From` to or from bits: both types are std's.
fn grade_of(n: u64) -> i16
    requires { n < 2 ^ 11 }
    ensures { result ≡ grade_of n }
{
    if n < 0x400 {
        n as i16
    } else {
        n as i16 - 0x800
    }
}

// The eleven bits of a grade.
fn grade_bits(grade: i16) -> u64
    requires { mag grade < 2 ^ 10 }
    ensures { result ≡ grade_bits grade }
{
    (grade + 0x800) as u64 % 0x800
}

impl Record for Segment {
    ghost layout = { segments };

    const SIZE: usize = Segment::SIZE;

    ghost SIZE = { 6 };

    const FEWEST: usize = Segment::FEWEST;

    ghost FEWEST = { 2 };

    const MOST: usize = Segment::MOST;

    ghost MOST = { 257 };

    fn at(s: &[u8], k: usize) -> Segment {
        let s = table::record(s, Segment::SIZE, k);
        Segment {
            start: bits::field(s, 0, 24) as u32,
            grade: grade_of(bits::field(s, 24, 11)),
            curvature: bits::field(s, 35, 11) as u16,
        }
    }

    fn is_clean_at(s: &[u8], k: usize) -> bool {
        bits::field(table::record(s, Segment::SIZE, k), 46, 2) == 0
    }

    fn is_in_range(&self) -> bool {
        (Segment::STEEPEST_DOWN <= self.grade)
            & (self.grade <= Segment::STEEPEST_UP)
            & (self.curvature <= Segment::SHARPEST)
            & (self.start <= record::FARTHEST)
    }

    fn key(&self) -> u32 {
        self.start
    }

    // The last one only ends the profile.
    fn may_end(&self) -> bool {
        (self.grade == 0) & (self.curvature == 0)
    }

    // All records are put by `bits::put_fields`, which takes widths beside values: those are each record's own.
    fn put_at(&self, out: &mut [u8], k: usize) {
        let at = Segment::SIZE * k;
        let widths = [24, 11, 11, 2];
        let values = [
            self.start as u64,
            grade_bits(self.grade),
            self.curvature as u64,
            0,
        ];
        bits::put_fields(&mut out[at..], 0, &widths, &values);
    }

    fn broken() -> Refusal {
        Refusal::BrokenProfile
    }

    ghost sizes = { sizes };
}

// Segments as lists: a start, a grade and a curvature for each.
#[derive(Clone, Copy)]
struct Lists<'a> {
    starts: &'a [u32],
    grades: &'a [i16],
    curvatures: &'a [u16],
}

impl<'a> Rows for Lists<'a> {
    type Item = Segment;

    ghost whole = { λ t. same t.starts.now t.grades.now t.curvatures.now };

    ghost count = { λ t. length t.starts.now };

    ghost nth = { λ t k. segment_of t.starts.now t.grades.now t.curvatures.now k };

    ghost clean = { λ t k. true };

    fn are_whole(&self) -> bool {
        (self.grades.len() == self.starts.len()) & (self.curvatures.len() == self.starts.len())
    }

    fn count(&self) -> usize {
        self.starts.len()
    }

    fn row(&self, k: usize) -> Segment {
        Segment {
            start: self.starts[k],
            grade: self.grades[k],
            curvature: self.curvatures[k],
        }
    }

    fn is_clean(&self, _k: usize) -> bool {
        true
    }
}

// Record k; past the last whole record, one of zeros. This, `judge` and `write` are `table`'s, by their public names.
pub fn segment_at(p: &[u8], k: usize) -> Segment
    ensures { result ≡ segment_at p.now k }
{
    Segment::at(p, k)
}

// How many records a profile has.
pub fn judge(p: &[u8]) -> Result<usize, Refusal>
    ensures { told (answer_of 0 result) ≡ told (judge_profile p.now) }
{
    table::rows::judge::<Segment>(p)
}

// Writes the records to the front of `out`, a record for each start, grade and curvature: lists, as C gives them (`buongilach_write_profile`).
#[tactic(auto, using(crate::proofs::Sound::facts))]
pub fn write(starts: &[u32], grades: &[i16], curvatures: &[u16], out: &mut [u8]) -> Verdict
    ensures { told (result, out.new) ≡ told (write_profile starts.now grades.now curvatures.now out.old) }
{
    let lists = Lists {
        starts,
        grades,
        curvatures,
    };
    table::rows::write(&lists, out)
}
