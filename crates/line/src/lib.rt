//! The lines that the session program prints. They are put into bytes of a fixed number, by calls that cannot fail, and the same
//! lines have a `Display`. What is put is built from its end, since a number's last digit is the first that a division gives.
#![tactic(auto)]

ghost use Rattle.std.specs.Prelude.{◌≡◌, [], ◌∷◌, ◌++◌, ◌+◌, ◌*◌, ◌≤◌, length, Some};
ghost use Rattle.decision.specs.Decision.{read_decision};
ghost use Rattle.line.specs.Line.{decimal, spaced, line_text, lines_text, record_text, refusal_text, sample_text, first_record, put_before, put_last, line_room};

use decision::Decision;
use refusal::{Refusal, Verdict};
use std::fmt;

/// Bytes that hold a sample's two lines: five numbers of up to ten digits in each, and a byte after each number.
pub const ROOM: usize = 2 * 5 * 11;

/// Puts the decimal digits of `n` and the byte after them before place `end`, and answers where they begin.
fn put_number(n: u32, after: u8, end: usize, out: &mut [u8]) -> usize
    requires { (length (decimal n) + 1 ≤ end) × (end ≤ length out.old) }
    ensures { (result, out.new) ≡ put_before (decimal n ++ after ∷ []) end out.old }
{
    let mut at = end - 1;
    out[at] = after;
    let mut rest = n;
    while 10 <= rest {
        at -= 1;
        out[at] = b'0' + (rest % 10) as u8;
        rest /= 10;
    }
    at -= 1;
    out[at] = b'0' + rest as u8;
    at
}

/// Puts a line of numbers before place `end`, and answers where it begins.
fn put_numbers(ns: &[u32], end: usize, out: &mut [u8]) -> usize
    requires { (11 * length ns.now ≤ end) × (end ≤ length out.old) }
    ensures { (result, out.new) ≡ put_before (spaced ns.now) end out.old }
{
    let mut at = end;
    let mut i = ns.len();
    let mut after = b'\n';
    while 0 < i {
        i -= 1;
        at = put_number(ns[i], after, at, out);
        after = b' ';
    }
    at
}

/// Puts the line of a refusal before place `end`, and answers where it begins.
fn put_cross(r: Refusal, end: usize, out: &mut [u8]) -> usize
    requires { (line_room ≤ end) × (end ≤ length out.old) }
    ensures { (result, out.new) ≡ put_before (refusal_text r) end out.old }
{
    let mut at = put_numbers(&[u32::from(r.number())], end, out);
    at -= 1;
    out[at] = b' ';
    at -= 1;
    out[at] = b'x';
    at
}

/// A line: a decision's numbers, or a refusal.
#[derive(Clone, Copy, Debug, PartialEq, Eq)]
pub struct Line(Result<Decision, Refusal>);

impl Line {
    /// The records of an accepted call are never refused; one that is gets the refusal's line, so that no wrong decision is
    /// printed.
    fn of_record(s: &[u8]) -> Line
        ensures { line_text result ≡ record_text (read_decision s.now) }
    {
        Line(decision::read(s))
    }

    /// Puts the line before place `end`, and answers where it begins.
    fn put(self, end: usize, out: &mut [u8]) -> usize
        requires { (line_room ≤ end) × (end ≤ length out.old) }
        ensures { (result, out.new) ≡ put_before (line_text self) end out.old }
    {
        match self.0 {
            Ok(d) => put_numbers(
                &[
                    d.time,
                    u32::from(d.state),
                    u32::from(d.penalty),
                    u32::from(d.cause),
                    d.stop,
                ],
                end,
                out,
            ),
            Err(r) => put_cross(r, end, out),
        }
    }
}

impl fmt::Display for Line {
    ghost output = { λ l. Some (line_text l) };

    #[tactic(auto, unfolding(crate::specs::Line::decision_text, crate::specs::Line::refusal_text))]
    fn fmt<W: fmt::Write>(&self, f: &mut fmt::Formatter<W>) -> fmt::Result {
        let Line(read) = *self;
        match read {
            Ok(d) => {
                // names, as a format string captures no field; so in `Lines`
                let time = d.time;
                let state = d.state;
                let penalty = u8::from(d.penalty);
                let cause = d.cause;
                let stop = d.stop;
                writeln!(f, "{time} {state} {penalty} {cause} {stop}")
            }
            Err(r) => writeln!(f, "{r}"),
        }
    }
}

/// What is printed at once: the lines of a sample's two records, or the line of a refusal.
#[derive(Clone, Copy, Debug, PartialEq, Eq)]
pub struct Lines {
    first: Line,
    second: Option<Line>,
}

/// The record at the front of `s`, or as much of it as there is.
fn front(s: &[u8]) -> &[u8]
    ensures { result.now ≡ first_record s.now }
{
    &s[..s.len().min(Decision::SIZE)]
}

impl Lines {
    /// A sample's. `s` holds the decisions of an accepted call.
    pub fn of_sample(verdict: Verdict, s: &[u8]) -> Lines
        ensures { lines_text result ≡ sample_text verdict s.now }
    {
        if let Err(r) = verdict {
            return Lines::from(r);
        }
        let first = front(s);
        let second = front(&s[first.len()..]);
        Lines {
            first: Line::of_record(first),
            second: Some(Line::of_record(second)),
        }
    }

    /// Puts them at the end of `out`, and answers where they begin. The first line stands first.
    pub fn put(self, out: &mut [u8; ROOM]) -> usize
        ensures { (result, out.new) ≡ put_last (lines_text self) out.old }
    {
        match self.second {
            Some(second) => {
                let end = second.put(ROOM, out);
                self.first.put(end, out)
            }
            None => self.first.put(ROOM, out),
        }
    }
}

impl From<Refusal> for Lines {
    ghost from_gives = { λ r l. lines_text l ≡ refusal_text r };

    fn from(r: Refusal) -> Lines {
        Lines {
            first: Line(Err(r)),
            second: None,
        }
    }
}

impl fmt::Display for Lines {
    ghost output = { λ l. Some (lines_text l) };

    fn fmt<W: fmt::Write>(&self, f: &mut fmt::Formatter<W>) -> fmt::Result {
        let first = self.first;
        match self.second {
            Some(second) => write!(f, "{first}{second}"),
            None => write!(f, "{first}"),
        }
    }
}

/// The line of a refusal, at the end of `out`; answers where it begins.
pub fn put_refusal(r: Refusal, out: &mut [u8; ROOM]) -> usize
    ensures { (result, out.new) ≡ put_last (refusal_text r) out.old }
{
    Lines::from(r).put(out)
}

/// The lines of a sample, at the end of `out`; answers where they begin. `s` holds the decisions of an accepted call, the first
/// record's line stands first, and a refused call has one line.
pub fn put_sample(v: Verdict, s: &[u8], out: &mut [u8; ROOM]) -> usize
    ensures { (result, out.new) ≡ put_last (sample_text v s.now) out.old }
{
    Lines::of_sample(v, s).put(out)
}
