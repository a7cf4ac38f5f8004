// The walk: the train's predicted run, in steps of 16 ft, with the brakes applied from its start.
// `predict` asks for the ranges of specs/Range.antt, in which every number fits its word.
#![tactic(auto)]

ghost use Rattle.std.specs.Prelude.{◌≡◌, ◌&&◌, ◌*◌, leb, ltb};
ghost use Rattle.step.specs.Curve.{force_at};
ghost use Rattle.step.specs.Step.{ground_of};
ghost use Rattle.walk.specs.Walk.{start, predict_of};
ghost use Rattle.walk.specs.Range.{Walkable};
ghost use Rattle.walk.specs.Marks.{mark_of, Marked, Kept, Inside, Quiet, ended_with};

use consist::Consist;
use step::{Curve, Load, Run};
use targets::Target;
use track::Route;

// The most steps of a walk.
const STEPS_MOST: u32 = 2_048;

// How far they go, at 16 ft each.
pub const REACH: u64 = 32_768;

// What a walk finds: the stopping location, and the location for each target speed.
// Here and in all that marks, `record::NO_STOP` for none, a number beyond every target, and arrays of a place for each target: no heap.
#[derive(Clone, Copy, Debug, PartialEq, Eq)]
pub struct Prediction {
    pub stop: u32,
    pub arrivals: [u32; Target::MOST],
}

// While q is above `low` and not above `high`, no arrival changes.
#[derive(Clone, Copy, Debug, PartialEq, Eq)]
struct Band {
    low: u64,
    high: u64,
}

fn square(speed: u16) -> u64
    ensures { result ≡ speed * speed }
{
    let u = speed as u64;
    u * u
}

// The arrival of a target speed as the run comes by: open until the run is slow enough, and again where it speeds up.
#[tactic(auto, unfolding(crate::specs::Marks::mark_of))]
fn mark(arrival: u32, speed: u16, run: Run) -> u32
    ensures { result ≡ mark_of run speed arrival }
{
    if run.q > square(speed) {
        return record::NO_STOP;
    }
    if arrival == record::NO_STOP {
        run.head
    } else {
        arrival
    }
}

// By index: of what is written through `iter_mut` and `zip` nothing is known afterwards.
fn mark_all(arrivals: &mut [u32; Target::MOST], speeds: [u16; Target::MOST], run: Run)
    ensures { Marked run speeds arrivals.old arrivals.new }
{
    for i in 0..Target::MOST {
        arrivals[i] = mark(arrivals[i], speeds[i], run);
    }
}

// The band in which this arrival stays as it is, too.
fn narrowed(band: Band, arrival: u32, speed: u16) -> Band
    ensures { Inside result band × Kept result (speed * speed) arrival }
{
    if arrival == record::NO_STOP {
        Band {
            low: band.low.max(square(speed)),
            ..band
        }
    } else {
        Band {
            high: band.high.min(square(speed)),
            ..band
        }
    }
}

// Between the greatest square of an open arrival and the least of a closed one.
fn quiet_band(arrivals: [u32; Target::MOST], speeds: [u16; Target::MOST]) -> Band
    ensures { Quiet speeds arrivals result }
{
    let mut band = Band {
        low: 0,
        high: u64::MAX,
    };
    for (&arrival, &speed) in arrivals.iter().zip(&speeds) {
        band = narrowed(band, arrival, speed);
    }
    band
}

fn lies_in(band: Band, q: u64) -> bool
    ensures { result ≡ (ltb band.low q && leb q band.high) }
{
    (band.low < q) & (q <= band.high)
}

// A walk that is cut, with q above 0, has no location.
fn ended(run: Run, arrivals: [u32; Target::MOST]) -> Prediction
    ensures { result ≡ ended_with run arrivals }
{
    if run.q == 0 {
        Prediction {
            stop: run.head,
            arrivals,
        }
    } else {
        Prediction {
            stop: record::NO_STOP,
            arrivals: [record::NO_STOP; Target::MOST],
        }
    }
}

fn started(head: u32, speed: u16) -> Run
    ensures { result ≡ start head speed }
{
    Run {
        head,
        clock: 0,
        q: square(speed),
    }
}

// Where the train stops, and from where on it stays at or below each speed, from `head` on at `speed`, in one pass.
// `Walkable` is no type's: it is of a curve with all the rest, and each of a sample's two walks has its own.
pub fn predict<'a>(
    c: Consist,
    curve: Curve,
    route: Route<'a>,
    head: u32,
    speed: u16,
    speeds: [u16; Target::MOST],
) -> Prediction
    requires { Walkable c curve route.track.now head speed }
    ensures { result ≡ predict_of c (force_at c.rated curve) (ground_of route.entry.track.now c) head speed speeds }
{
    // by name, as a load is another type than a consist
    let load = Load {
        cars: c.cars,
        axles: c.axles,
        weight: c.weight,
        rated: c.rated,
    };
    let mut run = started(head, speed);
    let mut arrivals = [record::NO_STOP; Target::MOST];
    let mut band = quiet_band(arrivals, speeds);
    // the segments of the last step, where those of the next are looked for
    let mut near = [0usize; shares::ENDS];
    let mut n: u32 = 0;
    // no `for` over the steps, since arrivals are marked once more than there are steps
    loop {
        if !lies_in(band, run.q) {
            mark_all(&mut arrivals, speeds, run);
            band = quiet_band(arrivals, speeds);
        }
        if (run.q == 0) | (n == STEPS_MOST) {
            return ended(run, arrivals);
        }
        let under = shares::under(route, run.head, c.length, c.weight, &c.blocks, &mut near);
        run = run.stepped(load, curve, under);
        n += 1;
    }
}
