// The predictions that a sample makes: the walk from the brake and the sample on, judged by the targets, and behind a penalty the same by emergency air.
#![tactic(auto)]

ghost use Rattle.std.specs.Prelude.{◌≡◌};
ghost use Rattle.step.specs.Curve.{penalty_curve};
ghost use Rattle.walk.specs.Range.{Walkable};
ghost use Rattle.judge.specs.Emergency.{emergency_stop};
ghost use Rattle.prediction.specs.Prediction.{approach_of, emergency_over, emergency_of, outcome_of, outcome_over};
ghost use Rattle.prediction.specs.Steps.{listed_of, emergency_curve_of, Ready};

use air::Air;
use brake::Brake;
use consist::Consist;
use judge::Listed;
use sample::Sample;
use step::Curve;
use targets::Target;
use track::{Route, Totals, Track};

// The stopping location, and the cause that is called for, 0 for none; and the same of emergency, both 0 where no penalty stands.
// Numbers for none, here and where they are made, as a decision's record has them.
#[derive(Clone, Copy, Debug, PartialEq, Eq)]
pub struct Outcome {
    pub stop: u32,
    pub called: u8,
    pub emergency_stop: u32,
    pub emergency_called: u8,
}

// By an index: a target is read by its number, into two arrays. No one `laid` with blocks or a track, and arrays here: see `judge::Listed`.
fn list_targets(t: &[u8]) -> Listed
    ensures { result ≡ listed_of t.now }
{
    let mut listed = Listed {
        count: t.len() / Target::SIZE,
        locations: [0u32; Target::MOST],
        speeds: [0u16; Target::MOST],
    };
    for k in 0..Target::MOST {
        let target = targets::target_at(t, k);
        listed.locations[k] = target.location;
        listed.speeds[k] = target.speed;
    }
    listed
}

// Where emergency air stops the train.
fn stop_in_emergency<'a>(c: Consist, k: Brake, m: Sample, route: Route<'a>) -> u32
    requires { Walkable c (emergency_curve_of c k) route.track.now m.head m.speed }
    ensures { result ≡ emergency_stop (emergency_over c k m route.entry.track.now) }
{
    let air = Air::in_emergency(k, c);
    let curve = Curve::emergency(air.a, air.b, air.equalization);
    // no target's speed is asked for
    walk::predict(c, curve, route, m.head, m.speed, [0u16; Target::MOST]).stop
}

// The same predictions over a route that both walks share.
fn over_route<'a>(c: Consist, k: Brake, m: Sample, route: Route<'a>, t: &[u8], stood: u8) -> Outcome
    requires walkable { Walkable c (penalty_curve c k.a k.b) route.track.now m.head m.speed }
    requires walkable_2 { Walkable c (emergency_curve_of c k) route.track.now m.head m.speed }
    ensures { result ≡ outcome_over c k m route.entry.track.now stood t.now }
{
    let targets = list_targets(t);
    let curve = Curve::penalty(c, k.a, k.b);
    let found = walk::predict(c, curve, route, m.head, m.speed, targets.speeds);
    let called = judge::cause(c.offset, m.head, m.speed, &targets, found.arrivals);
    if judge::standing(stood, called) == 0 {
        return Outcome {
            stop: found.stop,
            called,
            emergency_stop: 0,
            emergency_called: 0,
        };
    }
    let emergency_stop = stop_in_emergency(c, k, m, route);
    Outcome {
        stop: found.stop,
        called,
        emergency_stop,
        emergency_called: judge::emergency_cause(m.head, &targets, emergency_stop),
    }
}

// From an updated brake: under a penalty application, and, where a penalty stands or is called for, under emergency air.
pub fn of_sample(c: Consist, k: Brake, m: Sample, p: &[u8], t: &[u8], stood: u8) -> Outcome
    requires { Ready c k m p.now }
    ensures { result ≡ outcome_of (approach_of c k m p.now) (emergency_of c k m p.now) stood t.now }
{
    let track = Track::laid(p);
    let totals = Totals::summed(&track);
    let route = Route {
        track: &track,
        totals: &totals,
    };
    over_route(c, k, m, route, t, stood)
}
