// A sample's refusals before the walk, 2 to 10, in the table's order, under a session's consist and brake.
#![tactic(auto)]

ghost use Rattle.std.specs.Prelude.{◌≡◌};
ghost use Rattle.refusal.specs.Number.{answer_of};
ghost use Rattle.sample.specs.Sample.{no_sample};
ghost use Rattle.admission.specs.Table.{wrong_time, last_start, not_covered};
ghost use Rattle.admission.specs.Steps.{admit_raw, admit_of};

use brake::Brake;
use consist::Consist;
use profile::Segment;
use refusal::Refusal;
use sample::{RawSample, Sample};

// Time not 1 to 5 seconds after the last accepted sample.
#[tactic(auto, unfolding(crate::specs::Table::wrong_time))]
fn wrong_time(k: Brake, m: Sample) -> bool
    ensures { result ≡ wrong_time k m }
{
    let last = k.last_time as u64;
    let time = m.time as u64;
    k.sampled & !((last + 1 <= time) & (time <= last + 5))
}

// The start of the last record; of none, 0.
fn last_start(p: &[u8]) -> u32
    ensures { result ≡ last_start p.now }
{
    let records = p.len() / Segment::SIZE;
    profile::segment_at(p, records.saturating_sub(1)).start
}

// Head less than train length, or the profile not covering head minus length to head plus 32,768.
#[tactic(auto, unfolding(crate::specs::Table::not_covered))]
fn not_covered(c: Consist, p: &[u8], m: Sample) -> bool
    ensures { result ≡ not_covered c p.now m }
{
    let length = c.length as u32;
    let rear = m.head.saturating_sub(length);
    (m.head < length)
        | (rear < profile::segment_at(p, 0).start)
        | ((last_start(p) as u64) < m.head as u64 + walk::REACH)
}

// From 6 on, of a sample that is laid out.
fn admit_raw(c: Consist, k: Brake, raw: RawSample, p: &[u8], t: &[u8]) -> Result<Sample, Refusal>
    ensures { answer_of no_sample result ≡ admit_raw c k raw p.now t.now }
{
    profile::judge(p)?;
    targets::judge(t)?;
    let m = sample::judge(raw)?;
    let Some(()) = refusal::unless(wrong_time(k, m)) else {
        return Err(Refusal::WrongTime);
    };
    let Some(()) = refusal::unless(not_covered(c, p, m)) else {
        return Err(Refusal::NotCovered);
    };
    Ok(m)
}

// Of the sample that the bytes `s` are, with the profile and the targets lent for it.
pub fn admit(c: Consist, k: Brake, s: &[u8], p: &[u8], t: &[u8]) -> Result<Sample, Refusal>
    ensures { answer_of no_sample result ≡ admit_of c k s.now p.now t.now }
{
    let raw = sample::lay_out(s)?;
    admit_raw(c, k, raw, p, t)
}
