//! The session program over a reader and a writer: a feed is read from one, and its lines are written to the other. Nothing is
//! read past what is needed to answer, lines are written as soon as their sample is judged, and a feed of any length runs in the
//! same memory: its buffers are arrays that hold the longest of what they are for, with no heap.
#![tactic(auto)]

ghost use Rattle.std.specs.Prelude.{◌≡◌, ◌≤◌, length, true, false, Ok, IfOk, OnOk, Some, [], ◌++◌};
ghost use Rattle.std.specs.Io.KnownBytes.{Appends};
ghost use Rattle.line.specs.Line.{lines_text};
ghost use Rattle.feed.specs.Bytes.{Known, Prints, Leaves, Follows};
ghost use Rattle.feed.specs.Output.{output_of, lines_from, unread};
ghost use Rattle.feed.specs.Opened.{Opened};

use brake::Choice;
use decision::Decision;
use line::Lines;
use opening::{PROFILE_ROOM, Section, TARGETS_ROOM};
use refusal::Refusal;
use sample::RawSample;
use session::Session;
use source::Source;
use std::io;
use std::io::{Read, Write};

mod source;
#[cfg(test)]
mod tests;

/// Writes all of `text`, or stops at the first write that takes nothing or fails. No `write_all`: the program ends at a write that
/// is interrupted, which that tries again.
fn write_full<W: Write>(output: &mut W, text: &[u8]) -> io::Result<()>
    ensures { OnOk result (Appends (W.contents output.old) (W.contents output.new) text.now) }
{
    let mut done = 0;
    while done < text.len() {
        let n = output.write(&text[done..])?;
        if n == 0 {
            return Err(io::Error::from(io::ErrorKind::WriteZero));
        }
        done += n;
    }
    Ok(())
}

/// Writes lines by one write, so that nobody reads half of them.
fn print<W: Write>(output: &mut W, lines: Lines) -> io::Result<()>
    ensures { OnOk result (Appends (W.contents output.old) (W.contents output.new) (lines_text lines)) }
{
    let mut text = [0u8; line::ROOM];
    let from = lines.put(&mut text);
    write_full(output, &text[from..])
}

/// Opens a session, and reads the profile to the front of `p` and the targets to that of `t`: as `read` does, it answers how many
/// bytes each has.
fn read_opening<R: Read>(
    feed: &mut Source<'_, R>,
    choice: Choice,
    p: &mut [u8; PROFILE_ROOM],
    t: &mut [u8; TARGETS_ROOM],
) -> Result<(Session, usize, usize), Refusal>
    ensures same { feed.new.input.ghost_name ≡ feed.old.input.ghost_name }
    ensures fits { IfOk result (λ r. (r.1 ≤ length p.new) × (r.2 ≤ length t.new)) }
    ensures bytes { Known feed.old.end feed.new.end (R.remaining feed.old.input.now) (λ xs. Opened choice xs result p.new t.new (R.remaining feed.new.input.now)) }
{
    let session = feed.open(choice)?;
    let n = feed.section(Section::Profile, p)?;
    let m = feed.section(Section::Targets, t)?;
    Ok((session, n, m))
}

/// Reads a sample, judges it, moves the session on and prints its lines. Answers whether another may follow: none does one that
/// is cut short.
fn answer_one<R: Read, W: Write>(
    feed: &mut Source<'_, R>,
    output: &mut W,
    x: &mut Session,
    p: &[u8],
    t: &[u8],
) -> io::Result<bool>
    ensures same { feed.new.input.ghost_name ≡ feed.old.input.ghost_name }
    ensures more { result ≡ Ok true → Known feed.old.end feed.new.end (R.remaining feed.old.input.now)
        (λ xs. Follows (lines_from p.now t.now) x.old xs (W.contents output.old) x.new (R.remaining feed.new.input.now) (W.contents output.new)) }
    ensures last { result ≡ Ok false → Known feed.old.end feed.new.end (R.remaining feed.old.input.now)
        (λ xs. Appends (W.contents output.old) (W.contents output.new) (lines_from p.now t.now x.old xs) × (R.remaining feed.new.input.now ≡ Some [])) }
{
    let mut sample = [0u8; RawSample::SIZE];
    let n = feed.fill(&mut sample);
    if n == 0 {
        return Ok(false);
    }
    let mut decisions = [0u8; Decision::BOTH];
    let verdict = sampling::sample(x, &sample[..n], p, t, &mut decisions);
    print(output, Lines::of_sample(verdict, &decisions))?;
    Ok(n == sample.len())
}

/// Answers sample after sample. A proved loop has to end, and nothing says that a feed does: its turns, at one sample a second,
/// last more than 500,000,000,000 years.
fn answer_all<R: Read, W: Write>(
    feed: &mut Source<'_, R>,
    output: &mut W,
    first: Session,
    p: &[u8],
    t: &[u8],
) -> io::Result<()>
    ensures same { feed.new.input.ghost_name ≡ feed.old.input.ghost_name }
    ensures printed { OnOk result (Known feed.old.end feed.new.end (R.remaining feed.old.input.now)
        (λ xs. Appends (W.contents output.old) (W.contents output.new) (lines_from p.now t.now first xs) × (R.remaining feed.new.input.now ≡ Some []))) }
{
    let mut session = first;
    for _ in 0..u64::MAX {
        if !answer_one(feed, output, &mut session, p, t)? {
            return Ok(());
        }
    }
    Err(io::Error::from(io::ErrorKind::TimedOut))
}

/// Runs a feed: consist and blocks, profile, targets, then samples. A feed does not carry the choice of what a lost rear counts
/// as. A read that fails counts as the feed's end, and a write that fails ends the run; where neither happens, all that a feed
/// prints is printed.
pub fn try_run<R: Read, W: Write>(input: &mut R, output: &mut W, choice: Choice) -> io::Result<()>
    ensures printed { OnOk result (Prints (R.remaining input.old) (W.contents output.old) (W.contents output.new) (output_of choice)) }
    ensures left { OnOk result (Leaves (R.remaining input.old) (R.remaining input.new) (unread choice)) }
{
    let mut feed = Source { input, end: Ok(()) };
    let mut p = [0u8; PROFILE_ROOM];
    let mut t = [0u8; TARGETS_ROOM];
    let printed = match read_opening(&mut feed, choice, &mut p, &mut t) {
        Ok((session, n, m)) => answer_all(&mut feed, output, session, &p[..n], &t[..m]),
        Err(r) => print(output, Lines::from(r)),
    };
    printed.and(feed.end)
}

/// The same, which ends quietly whatever fails.
pub fn run<R: Read, W: Write>(input: &mut R, output: &mut W, choice: Choice) {
    let _ = try_run(input, output, choice);
}
