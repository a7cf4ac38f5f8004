// The records told as numbers: each record's judge over lent bytes, and a decision's numbers. An answer is the refusal's number, 0 for none, and
// parameters are bytes and numbers, as exported calls of crate `buongilach` have them.
#![tactic(auto)]

ghost use Rattle.std.specs.Prelude.{◌≡◌, ◌++◌, ◌≤◌};
ghost use Rattle.std.proofs.Math.ListN as list;
ghost use Rattle.refusal.specs.Number.{told};
ghost use Rattle.tells.specs.Judged.{number_in, consist_judged, profile_judged, targets_judged, sample_judged, decision_numbers, numbers_of, decision_as_read};

use decision::Decision;
use refusal::{Refusal, Verdict};

// The number of an answer, whatever it holds: 0 where nothing is refused. `refusal::verdict_number`, of a `Verdict` alone, is a public
// call with a theorem of its own (`refusal_verdict_number`).
fn number<T: Drop>(answer: Result<T, Refusal>) -> u8
    ensures { result ≡ number_in answer }
{
    match answer {
        Ok(_) => 0,
        Err(r) => r.number(),
    }
}

pub fn consist(consist: &[u8]) -> u8
    ensures { result ≡ consist_judged consist.now }
{
    number(consist::read(consist))
}

pub fn profile(profile: &[u8]) -> u8
    ensures { result ≡ profile_judged profile.now }
{
    number(profile::judge(profile))
}

pub fn targets(targets: &[u8]) -> u8
    ensures { result ≡ targets_judged targets.now }
{
    number(targets::judge(targets))
}

pub fn sample(sample: &[u8]) -> u8
    ensures { result ≡ sample_judged sample.now }
{
    number(sample::read(sample))
}

// How many numbers a decision is.
const DECISION_NUMBERS: usize = 5;

// Puts a decision's numbers over the first of `out`.
fn put_numbers(d: Decision, out: &mut [u32])
    requires { decision_numbers ≤ list.length out.old }
    ensures { out.new ≡ numbers_of d ++ list.drop decision_numbers out.old }
{
    out[0] = d.time;
    out[1] = d.state as u32;
    out[2] = d.penalty as u32;
    out[3] = d.cause as u32;
    out[4] = d.stop;
}

// Puts the numbers of the decision that the bytes are over the first of `numbers`.
fn put_decision(decision: &[u8], numbers: &mut [u32]) -> Verdict
    ensures { told (result, numbers.new) ≡ decision_as_read decision.now numbers.old }
{
    let d = decision::read(decision)?;
    let Some(()) = refusal::unless(numbers.len() < DECISION_NUMBERS) else {
        return Err(Refusal::NoRoom);
    };
    put_numbers(d, numbers);
    Ok(())
}

pub fn decision(decision: &[u8], numbers: &mut [u32]) -> u8
    ensures { (result, numbers.new) ≡ decision_as_read decision.now numbers.old }
{
    number(put_decision(decision, numbers))
}
