//! What opens a feed: the word that asks for a choice, the counts, and the lists that they announce.
#![tactic(auto)]

ghost use Rattle.std.specs.Prelude.{◌≡◌, ◌&&◌, ◌*◌, ◌^◌, ◌<◌, ◌≤◌, leb};
ghost use Rattle.opening.specs.Opening.{Tells, everlasting, announced};
ghost use Rattle.opening.specs.Section.{count_size_of, ahead_of, is_right, taken_of, refusal_of};

use blocks::Blocks;
use profile::Segment;
use refusal::Refusal;
use targets::Target;

/// Bytes that hold the longest list.
pub const BLOCKS_ROOM: usize = Blocks::SIZE * Blocks::MOST;

pub const PROFILE_ROOM: usize = Segment::SIZE * Segment::MOST;

pub const TARGETS_ROOM: usize = Target::SIZE * Target::MOST;

/// Bytes that hold any count.
pub const COUNT_ROOM: usize = 2;

/// Whether a word asks for the everlasting choice: a feed does not carry the choice, and no other word asks for one.
pub fn is_everlasting(word: &[u8]) -> bool
    ensures { Tells result (word.now ≡ everlasting) }
{
    word == b"everlasting".as_slice()
}

/// A list that a feed opens with, behind the count of its records.
#[derive(Clone, Copy, Debug, PartialEq, Eq)]
pub enum Section {
    Blocks,
    Profile,
    Targets,
}

impl Section {
    /// Bytes of the count.
    pub fn count_size(self) -> usize
        ensures { result ≡ count_size_of self }
    {
        match self {
            Section::Blocks => 1,
            Section::Profile => 2,
            Section::Targets => 1,
        }
    }

    /// How many bytes of the list a count announces.
    #[tactic(auto, unfolding(crate::specs::Opening::blocks_ahead, crate::specs::Opening::profile_ahead, crate::specs::Opening::targets_ahead, table::specs::Table::counted))]
    pub fn ahead(self, count: &[u8]) -> Option<usize>
        ensures { result ≡ ahead_of self count.now }
    {
        let width = self.count_size();
        match self {
            Section::Blocks => announced(count, width, 0, Blocks::MOST, Blocks::SIZE),
            Section::Profile => {
                announced(count, width, Segment::FEWEST, Segment::MOST, Segment::SIZE)
            }
            Section::Targets => announced(count, width, 0, Target::MOST, Target::SIZE),
        }
    }

    /// Whether the bytes keep the list's own rules. Those of the blocks are judged with the consist that they follow.
    fn is_right(self, s: &[u8]) -> bool
        ensures { result ≡ is_right self s.now }
    {
        match self {
            Section::Blocks => true,
            Section::Profile => profile::judge(s).is_ok(),
            Section::Targets => targets::judge(s).is_ok(),
        }
    }

    /// What is taken of the bytes that came, where so many were announced: the list, or nothing.
    #[tactic(auto, unfolding(crate::specs::Opening::taken))]
    pub fn taken(self, ahead: Option<usize>, s: &[u8]) -> Option<usize>
        ensures { result ≡ taken_of self ahead s.now }
    {
        let size = ahead?;
        ((s.len() == size) & self.is_right(s)).then_some(size)
    }

    /// Why a list that is not taken is refused.
    pub fn refusal(self) -> Refusal
        ensures { result ≡ refusal_of self }
    {
        match self {
            Section::Blocks => Refusal::BrokenBlocks,
            Section::Profile => Refusal::BrokenProfile,
            Section::Targets => Refusal::BrokenTargets,
        }
    }
}

/// What a count of `width` bytes announces: from `least` to `most` records of `size` bytes.
fn announced(count: &[u8], width: usize, least: usize, most: usize, size: usize) -> Option<usize>
    requires { (width ≤ 8) × (size * most < 2 ^ 64) }
    ensures { result ≡ announced width (λ n. leb least n && leb n most) size count.now }
{
    if count.len() != width {
        return None;
    }
    let n = bits::word(count) as usize;
    if (least <= n) & (n <= most) {
        Some(size * n)
    } else {
        None
    }
}
