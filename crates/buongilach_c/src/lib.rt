// What C links: each call of the library `buongilach` under its name, with its clauses again, since no crate can be both a library and an
// archive. A slice is a pointer, then a length; an answer is the refusal's number, 0 for none. Names, parameters and answers are C's.
#![tactic(auto)]

pub mod records;

ghost use Rattle.std.specs.Prelude.{◌≡◌};
ghost use Rattle.brake.specs.declared.Choice.TheVariants.{FiveSeconds};
ghost use Rattle.brake.specs.Rear.{choice_of};
ghost use Rattle.lent.specs.Lent.{open_bytes, sample_bytes, is_open_bytes, application_bytes};
ghost use Rattle.buongilach.specs.Version.{version};

// Opens a session anew with the consist and the default choice: writes its record to the start of `session`.
#[unsafe(no_mangle)]
pub extern "C" fn buongilach_open(session: &mut [u8], consist: &[u8]) -> u8
    ensures { (result, session.new) ≡ open_bytes consist.now session.old FiveSeconds }
{
    buongilach::buongilach_open(session, consist)
}

// The same with a choice: any `everlasting` but 0 says that a lost rear counts as the last one for ever.
#[unsafe(no_mangle)]
pub extern "C" fn buongilach_open_with(session: &mut [u8], consist: &[u8], everlasting: u32) -> u8
    ensures { (result, session.new) ≡ open_bytes consist.now session.old (choice_of everlasting) }
{
    buongilach::buongilach_open_with(session, consist, everlasting)
}

// Judges a sample, with the profile and the targets lent for it, moves the session on and writes the two decisions to the start of `decision`.
#[unsafe(no_mangle)]
pub extern "C" fn buongilach_sample(
    session: &mut [u8],
    sample: &[u8],
    profile: &[u8],
    targets: &[u8],
    decision: &mut [u8],
) -> u8
    ensures { (result, session.new, decision.new) ≡ sample_bytes session.old sample.now profile.now targets.now decision.old }
{
    buongilach::buongilach_sample(session, sample, profile, targets, decision)
}

// Whether the bytes begin with an open session's record.
#[unsafe(no_mangle)]
pub extern "C" fn buongilach_is_open(session: &[u8]) -> bool
    ensures { result ≡ is_open_bytes session.now }
{
    buongilach::buongilach_is_open(session)
}

// The application time in force, in ms: typed, or learnt since; 0 where the bytes begin with no open session's record.
#[unsafe(no_mangle)]
pub extern "C" fn buongilach_application(session: &[u8]) -> u32
    ensures { result ≡ application_bytes session.now }
{
    buongilach::buongilach_application(session)
}

// The version of this library.
#[unsafe(no_mangle)]
pub extern "C" fn buongilach_version() -> u32
    ensures { result ≡ version }
{
    buongilach::buongilach_version()
}
