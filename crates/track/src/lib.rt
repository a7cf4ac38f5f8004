// A profile laid out as a track, its running totals, and the average grade and curvature of the track under a train.
// `Route::reached_at` and `Route::under_train` ask for a gentle track; the other public functions answer for every input.
#![tactic(auto)]

ghost use Rattle.std.specs.Prelude.{◌≡◌, ◌-◌, ◌/◌, ◌≤◌, ◌<◌, min, get_or, pos, nat_abs, ◌*ℤ◌};
ghost use Rattle.whole.specs.Floor.{floor_div};
ghost use Rattle.profile.specs.Profile.{most};
ghost use Rattle.track.specs.Track.{lay_of, segments};
ghost use Rattle.track.specs.Gentle.{Gentle};
ghost use Rattle.track.specs.Totals.{totals_of, AreTotals, holding_to, found_of};
ghost use Rattle.track.specs.Steps.{Sized, Plus, kept_in, Rises, From, place_of, reached_of, Behind, difference_most, averages_of};

use profile::Segment;

// A profile laid out: record k at place k of each array, since an array of records was slower. Arrays, as there is no heap, with one count,
// where an `ArrayVec` each would have its own; for the same reasons no one type, nor one `laid`, with `blocks::Blocks` and `judge::Listed`.
#[derive(Clone, Copy)]
pub struct Track {
    pub count: usize,
    pub starts: [u32; Segment::MOST],
    pub grades: [i16; Segment::MOST],
    pub curvatures: [u16; Segment::MOST],
}

// Running totals of grade × feet and curvature × feet: in place k those of a track's first k segments; past the last, zeros.
// Arrays side by side, as a track's.
#[derive(Clone, Copy)]
pub struct Totals {
    pub grades: [i64; Segment::MOST],
    pub curvatures: [u64; Segment::MOST],
}

// A track with its running totals, both lent, so that a call copies neither. That the track is gentle is no part of it: `Walkable` has
// that beside curve, head and speed, and under it the walk calls all that ask for a gentle track.
#[derive(Clone, Copy)]
pub struct Route<'a> {
    pub track: &'a Track,
    pub totals: &'a Totals,
    ghost summed: { AreTotals track.now totals.now },
}

// A sum of grade × feet and one of curvature × feet.
#[derive(Clone, Copy, Debug, PartialEq, Eq)]
pub struct Sums {
    pub grade: i64,
    pub curvature: u64,
}

// Where a location is: the segment that it is in, and the feet that it is past that segment's start.
#[derive(Clone, Copy, Debug, PartialEq, Eq)]
struct Place {
    segment: usize,
    feet: u32,
}

// The totals at a location, and the segment that it is in.
#[derive(Clone, Copy, Debug, PartialEq, Eq)]
pub struct Reached {
    pub sums: Sums,
    pub segment: usize,
}

// G and C: the averages under a train. A type beside `Sums`: an average is no sum, and has no feet to add.
#[derive(Clone, Copy, Debug, PartialEq, Eq)]
pub struct Under {
    pub grade: i64,
    pub curvature: u64,
}

// What is found under a train: G and C, and the segments that its head and its rear are in.
#[derive(Clone, Copy, Debug, PartialEq, Eq)]
pub struct Found {
    pub under: Under,
    pub head_in: usize,
    pub rear_in: usize,
}

// The feet from a segment's start to a location; past the profile's end, none.
fn feet_to(start: u32, end: u32, location: u32) -> u32
    ensures { result ≡ min location end - start }
{
    location.min(end).saturating_sub(start)
}

impl Track {
    // The records of a profile, each in its place; past the last, zeros. By an index: a record is read by its number, into three arrays.
    pub fn laid(p: &[u8]) -> Track
        ensures { result ≡ lay_of p.now }
    {
        let mut track = Track {
            count: (p.len() / Segment::SIZE).min(Segment::MOST),
            starts: [0u32; Segment::MOST],
            grades: [0i16; Segment::MOST],
            curvatures: [0u16; Segment::MOST],
        };
        for k in 0..track.count {
            let g = profile::segment_at(p, k);
            track.starts[k] = g.start;
            track.grades[k] = g.grade;
            track.curvatures[k] = g.curvature;
        }
        track
    }

    // The record at which the profile ends: as many segments lie before it.
    fn last(&self) -> usize
        ensures { result ≡ segments self.now }
    {
        self.count.min(Segment::MOST).saturating_sub(1)
    }

    // Of the records up to `from`, the one that holds at a location: the last that starts at or before it, or the first.
    fn back_from(&self, location: u32, from: usize) -> usize
        requires { from < most }
        ensures { result ≡ holding_to self.now.starts location from }
    {
        for k in (1..=from).rev() {
            if self.starts[k] <= location {
                return k;
            }
        }
        0
    }

    // Of the records up to the last, from one on that does not start past the location.
    fn on_from(&self, location: u32, from: usize) -> usize
        requires { From self.now.starts (segments self.now) location from }
        ensures { result ≡ holding_to self.now.starts location (segments self.now) }
    {
        let last = self.last();
        for k in from..last {
            if location < self.starts[k + 1] {
                return k;
            }
        }
        last
    }

    // Of the records up to the last, looked for from `near` on: whatever `near` is, the answer is the same.
    // By hand, here, in `back_from`, in `on_from` and in `place_of`: most often the segment is `near` or the next one, where a
    // binary search takes eight looks. A location goes beside `near`, which is no part of it.
    fn segment_of(&self, location: u32, near: usize) -> usize
        requires { Rises self.now.starts (segments self.now) }
        ensures { result ≡ holding_to self.now.starts location (segments self.now) }
    {
        let from = near.min(self.last());
        let k = self.back_from(location, from);
        self.on_from(location, k)
    }

    // Where a location is, up to the record at which the profile ends. Most often it still is in segment `near`.
    fn place_of(&self, location: u32, near: usize) -> Place
        requires { Rises self.now.starts (segments self.now) }
        ensures { result ≡ place_of self.now.starts (segments self.now) location }
    {
        let last = self.last();
        if near < last {
            let start = self.starts[near];
            if (start <= location) & (location < self.starts[near + 1]) {
                return Place {
                    segment: near,
                    feet: location - start,
                };
            }
        }
        let segment = self.segment_of(location, near);
        Place {
            segment,
            feet: feet_to(self.starts[segment], self.starts[last], location),
        }
    }
}

impl Sums {
    // Some feet more.
    fn plus(self, feet: u32, grade: i16, curvature: u16) -> Sums
        requires { Sized most self }
        ensures { Plus self feet grade curvature result }
    {
        Sums {
            grade: self.grade + feet as i64 * grade as i64,
            curvature: self.curvature + feet as u64 * curvature as u64,
        }
    }

    // Some feet of segment k more.
    fn along(self, feet: u32, track: &Track, k: usize) -> Sums
        requires { Sized most self × (k < most) }
        ensures { Plus self feet (get_or track.now.grades k (pos 0)) (get_or track.now.curvatures k 0) result }
    {
        self.plus(feet, track.grades[k], track.curvatures[k])
    }
}

impl Totals {
    // Of a track. By an index: a segment's feet are from its start to the next one's, and its sums stand in the next place.
    pub fn summed(track: &Track) -> Totals
        ensures { result ≡ totals_of track.now }
    {
        let mut totals = Totals {
            grades: [0i64; Segment::MOST],
            curvatures: [0u64; Segment::MOST],
        };
        let mut sums = Sums {
            grade: 0,
            curvature: 0,
        };
        let last = track.last();
        for k in 0..last {
            let feet = track.starts[k + 1].saturating_sub(track.starts[k]);
            sums = sums.along(feet, track, k);
            totals.grades[k + 1] = sums.grade;
            totals.curvatures[k + 1] = sums.curvature;
        }
        totals
    }

    // Both in place k.
    fn at(&self, k: usize) -> Sums
        requires { k < most }
        ensures { result ≡ kept_in self.now.grades self.now.curvatures k }
    {
        Sums {
            grade: self.grades[k],
            curvature: self.curvatures[k],
        }
    }
}

// G in ten-thousandths of a percent: a sum in hundredths over the train's length, down. Here and in C no weight comes in, as it does in `shares`.
fn grade_over(sum: i64, length: u32) -> i64
    requires { nat_abs sum ≤ difference_most }
    ensures { result ≡ floor_div (pos 100 *ℤ sum) (pos length) }
{
    whole::floor_div(100 * sum, length as i64)
}

// C.
fn curvature_over(sum: u64, length: u32) -> u64
    requires { 0 < length }
    ensures { result ≡ sum / length }
{
    sum / length as u64
}

// What the totals gain from rear to head, over the train's length.
fn averages(rear: Sums, head: Sums, length: u32) -> Under
    requires { Behind rear head }
    ensures { result ≡ averages_of rear head length }
{
    if length == 0 {
        return Under {
            grade: 0,
            curvature: 0,
        };
    }
    Under {
        grade: grade_over(head.grade - rear.grade, length),
        curvature: curvature_over(head.curvature - rear.curvature, length),
    }
}

impl<'a> Route<'a> {
    // The totals at a location; its segment is looked for from `near` on.
    pub fn reached_at(self, location: u32, near: usize) -> Reached
        requires gentle { Gentle self.track.now }
        ensures { result ≡ reached_of self.entry.track.now location }
    {
        let place = self.track.place_of(location, near);
        let total = self.totals.at(place.segment);
        Reached {
            sums: total.along(place.feet, self.track, place.segment),
            segment: place.segment,
        }
    }

    // G and C under a train; a train longer than where its head is begins at 0. `head_near` and `rear_near` are where the segments are looked for first.
    pub fn under_train(self, head: u32, length: u32, head_near: usize, rear_near: usize) -> Found
        requires gentle { Gentle self.track.now }
        ensures { result ≡ found_of self.entry.track.now head length }
    {
        let at_head = self.reached_at(head, head_near);
        let at_rear = self.reached_at(head.saturating_sub(length), rear_near);
        Found {
            under: averages(at_rear.sums, at_head.sums, length),
            head_in: at_head.segment,
            rear_in: at_rear.segment,
        }
    }
}
