// The records for C: each is written from numbers, judged, and a decision is read to numbers. A reading is the 32 bits of a binary32.
// Names, parameters, lists side by side and answers are C's; crate `buongilach_c` has each call again, as an archive.
ghost use Rattle.std.specs.Prelude.{◌≡◌, [], ◌∷◌};
ghost use Rattle.writes.specs.Written.{consist_written, manifest_written, profile_written, targets_written, sample_fields, sample_written};
ghost use Rattle.tells.specs.Judged.{consist_judged, profile_judged, targets_judged, sample_judged, decision_as_read};

#[unsafe(no_mangle)]
pub extern "C" fn buongilach_write_consist(
    cars: u16,
    axles: u16,
    weight: u16,
    length: u16,
    rated: u32,
    application: u32,
    recharge: u16,
    set: u16,
    offset: u16,
    out: &mut [u8],
) -> u8
    ensures { (result, out.new) ≡ consist_written (cars ∷ axles ∷ weight ∷ length ∷ rated ∷ application ∷ recharge ∷ set ∷ offset ∷ []) out.old }
{
    writes::consist(
        cars,
        axles,
        weight,
        length,
        rated,
        application,
        recharge,
        set,
        offset,
        out,
    )
}

#[unsafe(no_mangle)]
pub extern "C" fn buongilach_write_manifest(
    cars: u16,
    axles: u16,
    weight: u16,
    length: u16,
    rated: u32,
    application: u32,
    recharge: u16,
    set: u16,
    offset: u16,
    lengths: &[u16],
    weights: &[u16],
    out: &mut [u8],
) -> u8
    ensures { (result, out.new) ≡ manifest_written (cars ∷ axles ∷ weight ∷ length ∷ rated ∷ application ∷ recharge ∷ set ∷ offset ∷ []) lengths.now weights.now out.old }
{
    writes::manifest(
        cars,
        axles,
        weight,
        length,
        rated,
        application,
        recharge,
        set,
        offset,
        lengths,
        weights,
        out,
    )
}

#[unsafe(no_mangle)]
pub extern "C" fn buongilach_judge_consist(consist: &[u8]) -> u8
    ensures { result ≡ consist_judged consist.now }
{
    tells::consist(consist)
}

#[unsafe(no_mangle)]
pub extern "C" fn buongilach_write_profile(
    starts: &[u32],
    grades: &[i16],
    curvatures: &[u16],
    out: &mut [u8],
) -> u8
    ensures { (result, out.new) ≡ profile_written starts.now grades.now curvatures.now out.old }
{
    writes::profile(starts, grades, curvatures, out)
}

#[unsafe(no_mangle)]
pub extern "C" fn buongilach_judge_profile(profile: &[u8]) -> u8
    ensures { result ≡ profile_judged profile.now }
{
    tells::profile(profile)
}

#[unsafe(no_mangle)]
pub extern "C" fn buongilach_write_targets(locations: &[u32], speeds: &[u16], out: &mut [u8]) -> u8
    ensures { (result, out.new) ≡ targets_written locations.now speeds.now out.old }
{
    writes::targets(locations, speeds, out)
}

#[unsafe(no_mangle)]
pub extern "C" fn buongilach_judge_targets(targets: &[u8]) -> u8
    ensures { result ≡ targets_judged targets.now }
{
    tells::targets(targets)
}

// Any `present` but 0 says that the rear is present.
#[unsafe(no_mangle)]
pub extern "C" fn buongilach_write_sample(
    time: u32,
    head: u32,
    speed: u32,
    front: u32,
    present: u32,
    rear: u32,
    out: &mut [u8],
) -> u8
    ensures { (result, out.new) ≡ sample_written (sample_fields time present head speed front rear) out.old }
{
    writes::sample(time, head, speed, front, present, rear, out)
}

#[unsafe(no_mangle)]
pub extern "C" fn buongilach_judge_sample(sample: &[u8]) -> u8
    ensures { result ≡ sample_judged sample.now }
{
    tells::sample(sample)
}

#[unsafe(no_mangle)]
pub extern "C" fn buongilach_read_decision(decision: &[u8], numbers: &mut [u32]) -> u8
    ensures { (result, numbers.new) ≡ decision_as_read decision.now numbers.old }
{
    tells::decision(decision, numbers)
}
