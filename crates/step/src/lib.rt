// One step of the walk, 16 ft, under the brake force that a curve makes as the clock runs.
// `stepped` asks for the ranges of specs/Range.antt, in which every number fits its word.
#![tactic(auto)]

ghost use Rattle.std.specs.Prelude.{◌≡◌, pos, ◌-ℤ◌};
ghost use Rattle.whole.specs.Floor.{cut};
ghost use Rattle.step.specs.Curve.{force_at, penalty_curve, emergency_curve};
ghost use Rattle.step.specs.Step.{carrying, opposing, loss, step_of, even};
ghost use Rattle.step.specs.Range.{Applied, Opposed, Moving};

use consist::Consist;
use track::Under;

// What the cylinder pressure does as the clock runs: base + gain × min(slope × t / per, most) / 2.
#[derive(Clone, Copy, Debug, PartialEq, Eq)]
pub struct Curve {
    pub base: u64,
    pub gain: u64,
    pub slope: u64,
    pub per: u64,
    pub most: u64,
}

// What a step reads of a consist.
#[derive(Clone, Copy, Debug, PartialEq, Eq)]
pub struct Load {
    pub cars: u16,
    pub axles: u16,
    // whole tons
    pub weight: u16,
    // rated brake force, lb
    pub rated: u32,
}

// The moving part of a walk: head location, clock in ms, squared speed.
#[derive(Clone, Copy, Debug, PartialEq, Eq)]
pub struct Run {
    pub head: u32,
    pub clock: u64,
    pub q: u64,
}

impl Curve {
    // The service application that a penalty makes, from the pressures A and B.
    // Pressures by themselves, here and in `emergency`: this is made from a brake, that from an `Air`.
    #[tactic(auto, unfolding(crate::specs::Curve::penalty_curve))]
    pub fn penalty(c: Consist, a: u16, b: u16) -> Curve
        ensures { result ≡ penalty_curve c a b }
    {
        Curve {
            base: b as u64,
            gain: 5,
            slope: 2 * c.set as u64,
            per: 7 * c.application as u64,
            most: a.saturating_sub(brake::equalization_service(a, b)) as u64,
        }
    }

    // Emergency air, from A as it is applied, B and the equalization that A falls to.
    #[tactic(auto, unfolding(crate::specs::Curve::emergency_curve))]
    pub fn emergency(a: u16, b: u16, equalization: u16) -> Curve
        ensures { result ≡ emergency_curve a b equalization }
    {
        let most = a.saturating_sub(equalization) as u64;
        Curve {
            base: b as u64,
            gain: 12,
            slope: most,
            per: 10_000,
            most,
        }
    }

    // F in lb, of a train with this rated force, t ms after the brakes are applied.
    #[tactic(auto, unfolding(crate::specs::Curve::force_at, crate::specs::Curve::cylinder_at, crate::specs::Curve::drop_at))]
    fn force(self, rated: u32, t: u64) -> u64
        requires { Applied self t }
        ensures { result ≡ force_at rated self t }
    {
        let drop = (self.slope * t / self.per).min(self.most);
        let p = self.base + self.gain * drop / 2;
        rated as u64 * p / 6_400
    }
}

// In millionths of a lb, at s and q, over the ground u.
// `Opposed` and its numbers stand here, in `lost` and in `slowed`, as the definitions take them, load and ground in `stepped` too:
// a type would be made once, for these calls alone.
fn opposing_force(load: Load, f: u64, s: u64, q: u64, u: Under) -> i64
    requires { Opposed f s q u }
    ensures { result ≡ opposing (carrying load) f s q u.grade u.curvature }
{
    let w = load.weight as u64;
    let drag = 1_000_000 * f
        + 600_000 * w
        + 20_000_000 * load.axles as u64
        + 100 * (w * s)
        + 7 * (load.cars as u64 * q);
    let pull = (2_000 * w) as i64 * u.grade;
    let bend = 8_000 * (w * u.curvature);
    drag as i64 + pull + bend as i64
}

// What q loses in a step; below zero it gains.
fn lost(load: Load, f: u64, s: u64, q: u64, u: Under) -> i64
    requires { Opposed f s q u }
    ensures { result ≡ loss (carrying load) f s q u.grade u.curvature }
{
    let w = load.weight as u64;
    whole::floor_div(
        1_449 * opposing_force(load, f, s, q, u),
        (605_000 * w) as i64,
    )
}

// q after a step; below zero counts as zero: a branch says which case it is, as `max` before the cast would not.
fn slowed(load: Load, f: u64, s: u64, q: u64, u: Under) -> u64
    requires { Opposed f s q u }
    ensures { result ≡ cut (pos q -ℤ loss (carrying load) f s q u.grade u.curvature) }
{
    let rest = q as i64 - lost(load, f, s, q, u);
    if rest <= 0 { 0 } else { rest as u64 }
}

impl Run {
    // After a step over the ground that is under the train at its start.
    pub fn stepped(self, load: Load, curve: Curve, u: Under) -> Run
        requires { Moving load curve u self }
        ensures { result ≡ step_of (carrying load) (force_at load.rated curve) (even u) self }
    {
        let s = whole::isqrt(self.q);
        let f = curve.force(load.rated, self.clock);
        let q = slowed(load, f, s, self.q, u);
        let head = self.head + 16;
        let clock = self.clock + 12_000_000 / (11 * s);
        Run { head, clock, q }
    }
}
