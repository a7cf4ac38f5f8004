// Learning the application time from the rear pressure in a service application. Of the points their sums are kept.
#![tactic(auto)]

ghost use Rattle.std.specs.Prelude.{◌≡◌, ◌<◌};
ghost use Rattle.learn.specs.Stage.{stage_number, stage_of, without_points, bare, is_at_opening};
ghost use Rattle.learn.specs.Sound.{Sound, is_sound};
ghost use Rattle.learn.specs.Learn.{is_front_down, timer};
ghost use Rattle.learn.specs.Kept.{without, added_to, further_to, first_to, heard_in, timed_to, started_by, waited_in, stayed_in, taught_of};

use sample::RearPressure;
use trend::Sums;

// With its number in a session's record.
#[derive(Clone, Copy, Debug, PartialEq, Eq)]
pub enum Stage {
    Waiting = 0,
    // the front fell, and no rear was present since
    FrontFell = 1,
    // p0 is known
    Initial = 2,
    // points are
    Falling = 3,
    Done = 4,
}

// What is kept from sample to sample; what a stage has no use for is 0.
// Neither its invariant nor a stage's use of a field is part of the type: `is_sound` answers for every value, beside every stage.
#[derive(Clone, Copy, Debug, PartialEq, Eq)]
pub struct Learner {
    pub stage: Stage,
    // when the front fell, seconds
    pub since: u32,
    // t_INIT: seconds from then to the first point
    pub init: u16,
    // the last point's t: seconds since the first
    pub last: u16,
    // p0, or the last point's p
    pub pressure: u16,
    // of all points
    pub sums: Sums,
}

// What a sample shows, after its update.
#[derive(Clone, Copy, Debug, PartialEq, Eq)]
pub struct Shown {
    // whether the brake applies or holds service
    pub service: bool,
    pub set: u16,
    pub equalization: u16,
    // seconds
    pub time: u32,
    pub front: u16,
    pub rear: RearPressure,
}

// What a sample teaches.
#[derive(Clone, Copy, Debug, PartialEq, Eq)]
pub struct Lesson {
    pub learner: Learner,
    pub learnt: Option<u32>,
}

impl Stage {
    pub fn number(self) -> u8
        ensures { result ≡ stage_number self }
    {
        self as u8
    }

    // The stage of a number: past 3, done. No `TryFrom`, as it answers for every number, and no `From`, which should lose nothing;
    // no trait with `brake`'s kinds either: each has its own cases.
    pub fn of_number(n: u64) -> Self
        ensures { result ≡ stage_of n }
    {
        match n {
            0 => Stage::Waiting,
            1 => Stage::FrontFell,
            2 => Stage::Initial,
            3 => Stage::Falling,
            _ => Stage::Done,
        }
    }
}

impl Learner {
    // A stage without points: since the front fell, with this p0, or 0.
    fn without_points(stage: Stage, since: u32, pressure: u16) -> Self
        ensures { result ≡ without_points stage since pressure }
    {
        Self {
            stage,
            since,
            init: 0,
            last: 0,
            pressure,
            sums: Sums::none(),
        }
    }

    // A stage that keeps nothing.
    pub fn bare(stage: Stage) -> Self
        ensures { result ≡ bare stage }
    {
        Self::without_points(stage, 0, 0)
    }

    // Whether what is kept is what an opening gives.
    pub fn is_at_opening(self) -> bool
        ensures { result ≡ is_at_opening self }
    {
        self == Self::bare(Stage::Waiting)
    }

    // Whether what is kept is within what a run can leave.
    #[tactic(auto, unfolding(crate::specs::Sound::is_sound))]
    pub fn is_sound(self) -> bool
        ensures { result ≡ is_sound self }
    {
        (self.since <= 0xff_ffff)
            & (self.init <= 599)
            & (self.last <= 599)
            & (self.pressure <= 16_000)
            & self.sums.is_sound()
    }
}

fn without(learner: Learner) -> Lesson
    ensures { result ≡ without learner }
{
    Lesson {
        learner,
        learnt: None,
    }
}

// Three psi off the front.
fn is_front_down(s: Shown) -> bool
    ensures { result ≡ is_front_down s }
{
    s.front as u32 + 300 <= s.set as u32
}

// Seconds since the front fell.
fn timer(s: Shown, since: u32) -> u32
    ensures { result ≡ timer s since }
{
    s.time.saturating_sub(since)
}

// A sound learner, `l` in the methods as in the definitions, and a sample in time: fewer than 600 seconds since the front fell.
// `timed` makes it; before that, learner and sample go by themselves, as the public `taught` takes them.
#[derive(Clone, Copy)]
struct InTime {
    learner: Learner,
    shown: Shown,
    ghost sound: { Sound learner },
    ghost timely: { timer shown learner.since < 600 },
}

impl InTime {
    // The point (t, p) is added; where the pressure levels off, the line before it gives the result.
    #[tactic(auto, unfolding(crate::specs::Kept::added_to))]
    fn added(self, t: u16, p: u16) -> Lesson
        requires { t < 600 }
        ensures { result ≡ added_to self.learner self.shown t p }
    {
        let l = self.learner;
        let sums = l.sums.with_point(t, p);
        let fall = l.pressure.saturating_sub(p);
        let seconds = t.saturating_sub(l.last);
        if (4 <= sums.count) & trend::levels_off(fall, seconds, sums) {
            return Lesson {
                learner: Learner::bare(Stage::Done),
                learnt: trend::result(l.init, self.shown.equalization, p, l.sums),
            };
        }
        without(Learner {
            stage: Stage::Falling,
            last: t,
            pressure: p,
            sums,
            ..l
        })
    }

    // A present rear behind points: where it fell further, it is one more.
    #[tactic(auto, unfolding(crate::specs::Kept::further_to))]
    fn further(self, p: u16) -> Lesson
        ensures { result ≡ further_to self.learner self.shown p }
    {
        let l = self.learner;
        if l.pressure <= p {
            return without(l);
        }
        if Sums::MOST <= l.sums.count {
            return without(Learner::bare(Stage::Done));
        }
        let t = timer(self.shown, l.since).saturating_sub(l.init as u32);
        self.added(t as u16, p)
    }

    // A present rear behind p0: three psi off, it is the first point.
    #[tactic(auto, unfolding(crate::specs::Kept::first_to))]
    fn first(self, p: u16) -> Lesson
        ensures { result ≡ first_to self.learner self.shown p }
    {
        let l = self.learner;
        if (l.pressure as u32) < p as u32 + 300 {
            return without(l);
        }
        without(Learner {
            stage: Stage::Falling,
            init: timer(self.shown, l.since) as u16,
            last: 0,
            pressure: p,
            sums: Sums::none().with_point(0, p),
            ..l
        })
    }

    // A present rear. A match and no closure, as in `taught`: a session's record holds the stage, and no record holds a function.
    #[tactic(auto, unfolding(crate::specs::Kept::heard_in))]
    fn heard(self, p: u16) -> Lesson
        ensures { result ≡ heard_in self.learner.stage self.learner self.shown p }
    {
        let l = self.learner;
        match l.stage {
            Stage::Waiting | Stage::Done => without(l),
            Stage::FrontFell => without(Learner::without_points(Stage::Initial, l.since, p)),
            Stage::Initial => self.first(p),
            Stage::Falling => self.further(p),
        }
    }
}

// A sample since the front fell.
#[tactic(auto, unfolding(crate::specs::Kept::timed_to))]
fn timed(l: Learner, s: Shown) -> Lesson
    requires { Sound l }
    ensures { result ≡ timed_to l s }
{
    if 600 <= timer(s, l.since) {
        return without(Learner::bare(Stage::Done));
    }
    let in_time = InTime {
        learner: l,
        shown: s,
    };
    match s.rear {
        RearPressure::Present(p) => in_time.heard(p),
        RearPressure::Lost => without(l),
    }
}

// The front fell now.
#[tactic(auto, unfolding(crate::specs::Kept::started_by))]
fn started(s: Shown) -> Learner
    ensures { result ≡ started_by s s.rear }
{
    match s.rear {
        RearPressure::Present(p) => Learner::without_points(Stage::Initial, s.time, p),
        RearPressure::Lost => Learner::without_points(Stage::FrontFell, s.time, 0),
    }
}

// Waiting: the front fell now, or not yet.
fn waited(s: Shown) -> Learner
    ensures { result ≡ waited_in s }
{
    if is_front_down(s) {
        return started(s);
    }
    Learner::bare(Stage::Waiting)
}

// Done: until the front is up again.
fn stayed(s: Shown) -> Learner
    ensures { result ≡ stayed_in s }
{
    if is_front_down(s) {
        return Learner::bare(Stage::Done);
    }
    Learner::bare(Stage::Waiting)
}

// What an accepted sample teaches.
#[tactic(auto, unfolding(crate::specs::Kept::taught_of, crate::specs::Kept::in_stage))]
pub fn taught(l: Learner, s: Shown) -> Lesson
    requires { Sound l }
    ensures { result ≡ taught_of l s }
{
    if !s.service {
        return without(Learner::bare(Stage::Waiting));
    }
    match l.stage {
        Stage::Waiting => without(waited(s)),
        Stage::FrontFell | Stage::Initial | Stage::Falling => timed(l, s),
        Stage::Done => without(stayed(s)),
    }
}
