// A feed as it is read, into arrays that hold the longest of what they are for, with no heap.
ghost use Rattle.std.specs.Prelude.{◌≡◌, ◌≤◌, length, take, IfOk, OnOk, IfSome};
ghost use Rattle.opening.specs.Section.{room_of};
ghost use Rattle.feed.specs.Bytes.{IsPrefixLen, Known, Front};
ghost use Rattle.feed.specs.Opened.{SectionRead, Opens};

use brake::Choice;
use consist::Consist;
use opening::{BLOCKS_ROOM, COUNT_ROOM, Section};
use refusal::Refusal;
use session::Session;
use std::io;
use std::io::Read;

/// Bytes that hold a consist with the most blocks.
const CONSIST_ROOM: usize = Consist::SIZE + BLOCKS_ROOM;

/// A reader, and how its reads went. One that fails counts as the end of the feed.
#[derive(Drop)]
pub(crate) struct Source<'a, R> {
    pub(crate) input: &'a mut R,
    pub(crate) end: io::Result<()>,
}

/// Reads until `s` is full, the feed ends or a read fails: how many bytes came to the front of `s`, which `read_exact` doesn't say,
/// and how the reads went.
fn read_full<R: Read>(input: &mut R, s: &mut [u8]) -> (usize, io::Result<()>)
    ensures count { IsPrefixLen result.0 s.new }
    ensures bytes { OnOk result.1 (IfSome (R.remaining input.old) (λ xs. Front xs (R.remaining input.new) (length s.old) (take result.0 s.new))) }
{
    let mut came = 0;
    while came < s.len() {
        match input.read(&mut s[came..]) {
            Ok(0) => return (came, Ok(())),
            Ok(n) => came += n,
            Err(e) => return (came, Err(e)),
        }
    }
    (came, Ok(()))
}

impl<R: Read> Source<'_, R> {
    /// Reads until `s` is full or the feed ends, and answers how many bytes came to the front of `s`.
    #[tactic(auto, unfolding(crate::specs::Bytes::Known))]
    pub(crate) fn fill(&mut self, s: &mut [u8]) -> usize
        ensures same { self.new.input.ghost_name ≡ self.old.input.ghost_name }
        ensures count { IsPrefixLen result s.new }
        ensures bytes { Known self.old.end self.new.end (R.remaining self.old.input.now)
            (λ xs. Front xs (R.remaining self.new.input.now) (length s.old) (take result s.new)) }
    {
        let (came, went) = read_full(self.input, s);
        if let Err(e) = went {
            self.end = Err(e);
        }
        came
    }

    /// Reads the count of a section's records, and then the section to the front of `s`: how many bytes it has.
    pub(crate) fn section(&mut self, section: Section, s: &mut [u8]) -> Result<usize, Refusal>
        requires { room_of section ≤ length s.old }
        ensures same { self.new.input.ghost_name ≡ self.old.input.ghost_name }
        ensures fits { IfOk result (λ n. n ≤ length s.new) }
        ensures bytes { Known self.old.end self.new.end (R.remaining self.old.input.now)
            (λ xs. SectionRead section xs result s.new (R.remaining self.new.input.now)) }
    {
        let mut count = [0u8; COUNT_ROOM];
        let n = self.fill(&mut count[..section.count_size()]);
        let ahead = section.ahead(&count[..n]);
        let came = self.fill(&mut s[..ahead.unwrap_or(0)]);
        section.taken(ahead, &s[..came]).ok_or(section.refusal())
    }

    /// Opens a session with a consist and its blocks. The 16 bytes of the consist are judged by themselves before its blocks are
    /// read.
    pub(crate) fn open(&mut self, choice: Choice) -> Result<Session, Refusal>
        ensures same { self.new.input.ghost_name ≡ self.old.input.ghost_name }
        ensures bytes { Known self.old.end self.new.end (R.remaining self.old.input.now)
            (λ xs. Opens choice xs result (R.remaining self.new.input.now)) }
    {
        let mut s = [0u8; CONSIST_ROOM];
        let n = self.fill(&mut s[..Consist::SIZE]);
        let mut x = session::none();
        session::open(&mut x, &s[..n], choice)?;
        let m = self.section(Section::Blocks, &mut s[Consist::SIZE..])?;
        let mut x = session::none();
        session::open(&mut x, &s[..Consist::SIZE + m], choice)?;
        Ok(x)
    }
}
