// The judgement of targets: the offset, which are judged, the calls for the penalty and for emergency, and their causes.
// Numbers for none, a cause of 0 and `record::NO_STOP`, as a decision's record has them.
#![tactic(auto)]

ghost use Rattle.std.specs.Prelude.{◌≡◌};
ghost use Rattle.judge.specs.Judge.{is_judged, offset_for, is_called, cause_of, standing, is_emergency_called, emergency_cause_of};

use targets::Target;

// The targets of a call, place by place; zeros past the last. Arrays, here and in a walk's arrivals, as there is no heap, with one count,
// where an `ArrayVec` each would have its own.
// No one type with `track::Track` and `blocks::Blocks`: it would hold an array of records, which is slower for a track.
#[derive(Clone, Copy, Debug, PartialEq, Eq)]
pub struct Listed {
    pub count: usize,
    pub locations: [u32; Target::MOST],
    pub speeds: [u16; Target::MOST],
}

// The offset in feet, of a train with speed v before a target with speed u.
pub fn offset_for(offset: u16, v: u16, u: u16) -> u64
    ensures { result ≡ offset_for offset v u }
{
    if v <= u {
        return 0;
    }
    let vv = v as u64 * v as u64;
    let uu = u as u64 * u as u64;
    whole::ceil_div(offset as u64 * (vv - uu), vv)
}

// Whether the target at `target` lies where a walk from `head` on may reach. The three tests take one target's numbers, as their definitions do.
#[tactic(auto, unfolding(crate::specs::Judge::is_judged))]
fn is_judged(head: u32, target: u32) -> bool
    ensures { result ≡ is_judged head target }
{
    (head <= target) & (target as u64 <= head as u64 + walk::REACH)
}

// Whether the penalty is called for the target at `target` with speed u, where `arrival` is the location for u.
#[tactic(auto, using(crate::proofs::Offsets::offset_most), unfolding(crate::specs::Judge::is_called))]
fn is_called(offset: u16, head: u32, v: u16, target: u32, u: u16, arrival: u32) -> bool
    ensures { result ≡ is_called offset head v target u arrival }
{
    let past = arrival as u64 + offset_for(offset, v, u);
    is_judged(head, target) & ((target as u64) < past)
}

// The first target for which the penalty is called, of all that the lists have a place for, counted from 1; 0 for none.
// `arrivals` has the location for the speed of each. By an index, which is the answer.
pub fn cause(
    offset: u16,
    head: u32,
    speed: u16,
    targets: &Listed,
    arrivals: [u32; Target::MOST],
) -> u8
    ensures { result ≡ cause_of offset head speed targets.now.count targets.now.locations targets.now.speeds arrivals }
{
    for k in 0..targets.count.min(Target::MOST) {
        if is_called(
            offset,
            head,
            speed,
            targets.locations[k],
            targets.speeds[k],
            arrivals[k],
        ) {
            return k as u8 + 1;
        }
    }
    0
}

// The cause that stands: one that stood stays, and else the one that is called for.
#[tactic(auto, unfolding(crate::specs::Judge::standing))]
pub fn standing(stood: u8, called: u8) -> u8
    ensures { result ≡ standing stood called }
{
    if stood == 0 { called } else { stood }
}

// Whether emergency is called for the target at `target` with speed u.
#[tactic(auto, unfolding(crate::specs::Judge::is_emergency_called))]
fn is_emergency_called(head: u32, target: u32, u: u16, stop: u32) -> bool
    ensures { result ≡ is_emergency_called head target u stop }
{
    is_judged(head, target) & (u == 0) & (target <= stop)
}

// The first target for which emergency is called, as `cause` counts, where `stop` is where emergency air stops the train.
// A loop beside that of `cause`: one over a closure for both would take as many lines.
pub fn emergency_cause(head: u32, targets: &Listed, stop: u32) -> u8
    ensures { result ≡ emergency_cause_of head targets.now.count targets.now.locations targets.now.speeds stop }
{
    for i in 0..targets.count.min(Target::MOST) {
        if is_emergency_called(head, targets.locations[i], targets.speeds[i], stop) {
            return i as u8 + 1;
        }
    }
    0
}
