// The average grade and curvature of the track under a train, by the weight of its blocks; without blocks, as `track` has them.
// `under` asks for a gentle track and blocks that are right for the train's length and weight.
#![tactic(auto)]

ghost use Rattle.std.specs.Prelude.{◌≡◌, ◌-◌, ◌*◌, ◌^◌, ◌≤◌, ◌<◌, nat_abs};
ghost use Rattle.blocks.specs.Sound.{Sound};
ghost use Rattle.track.specs.Gentle.{Gentle};
ghost use Rattle.track.specs.Track.{under_of};
ghost use Rattle.shares.specs.Shares.{by_weight, ground_under};
ghost use Rattle.shares.specs.Steps.{grade_share_of, curvature_share_of, plus_of, over_of, Between, Loaded};

use blocks::Blocks;
use track::{Route, Sums, Under};

// The ends of the most blocks: the train's head, and the rear of each. `near` is an array of so many, as there is no heap.
// It goes beside the route, which is lent to both walks, while each has a `near` of its own and changes it.
pub const ENDS: usize = 65;

// The total of blocks' shares: a type beside `Sums`, since shares are of tons and sums of feet.
#[derive(Clone, Copy, Debug, PartialEq, Eq)]
struct Shares {
    grade: i64,
    curvature: u64,
}

// Of a sum of grade × feet in hundredths, down; in ten-thousandths. Not `track`'s averages: a weight comes in before each is rounded, here and below.
fn grade_share(sum: i64, length: u16, weight: u16) -> i64
    requires { nat_abs sum ≤ 500 * length }
    ensures { result ≡ grade_share_of sum length weight }
{
    whole::floor_div(weight as i64 * (100 * sum), length as i64)
}

// Of a sum of curvature × feet, down.
fn curvature_share(sum: u64, length: u16, weight: u16) -> u64
    requires { (sum ≤ 2000 * length) × (0 < length) }
    ensures { result ≡ curvature_share_of sum length weight }
{
    weight as u64 * sum / length as u64
}

impl Shares {
    // With the share of a block more, from the totals at its rear and at its front.
    fn plus(self, rear: Sums, front: Sums, length: u16, weight: u16) -> Shares
        requires { Between self rear front length }
        ensures { result ≡ plus_of self rear front length weight }
    {
        let grade = grade_share(front.grade - rear.grade, length, weight);
        let curvature = curvature_share(front.curvature - rear.curvature, length, weight);
        Shares {
            grade: self.grade + grade,
            curvature: self.curvature + curvature,
        }
    }

    // Over the train's weight, down.
    fn over(self, weight: u16) -> Under
        requires { (nat_abs self.grade ≤ 2 ^ 40) × (0 < weight) }
        ensures { result ≡ over_of self weight }
    {
        Under {
            grade: whole::floor_div(self.grade, weight as i64),
            curvature: self.curvature / weight as u64,
        }
    }
}

// By weight, of a train that has blocks. By an index: the rear of block k is looked for at place k + 1 of `near`.
fn by_weight<'a>(
    route: Route<'a>,
    head: u32,
    weight: u16,
    blocks: &Blocks,
    near: &mut [usize; ENDS],
) -> Under
    requires gentle { Gentle route.track.now }
    requires loaded { Loaded blocks.now weight }
    ensures { result ≡ by_weight route.entry.track.now head weight blocks.now }
{
    let at_head = route.reached_at(head, near[0]);
    near[0] = at_head.segment;
    let mut front = at_head.sums;
    let mut location = head;
    let mut shares = Shares {
        grade: 0,
        curvature: 0,
    };
    for k in 0..blocks.count as usize {
        let length = blocks.lengths[k];
        // a train longer than where its head is begins at 0
        location = location.saturating_sub(length as u32);
        let at_rear = route.reached_at(location, near[k + 1]);
        near[k + 1] = at_rear.segment;
        shares = shares.plus(at_rear.sums, front, length, blocks.weights[k]);
        front = at_rear.sums;
    }
    shares.over(weight)
}

// Over the length, of a train that has none.
fn over_length<'a>(route: Route<'a>, head: u32, length: u16, near: &mut [usize; ENDS]) -> Under
    requires gentle { Gentle route.track.now }
    ensures { result ≡ under_of route.entry.track.now head length }
{
    let found = route.under_train(head, length as u32, near[0], near[1]);
    near[0] = found.head_in;
    near[1] = found.rear_in;
    found.under
}

// G and C. `near` is where the segments of the blocks' ends are looked for first, and keeps where they were found: whatever is in it, the answer is the same.
#[tactic(auto, unfolding(crate::specs::Shares::ground_under))]
pub fn under<'a>(
    route: Route<'a>,
    head: u32,
    length: u16,
    weight: u16,
    blocks: &Blocks,
    near: &mut [usize; ENDS],
) -> Under
    requires gentle { Gentle route.track.now }
    requires sound { Sound blocks.now length weight }
    ensures { result ≡ ground_under route.entry.track.now head length weight blocks.now }
{
    if blocks.count == 0 {
        over_length(route, head, length, near)
    } else {
        by_weight(route, head, weight, blocks, near)
    }
}
