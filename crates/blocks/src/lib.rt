// The blocks of a manifest train: records of 4 bytes behind a consist's 16, head end first.
// `put` asks for room; the other public functions answer for every input.
#![tactic(auto)]

ghost use Rattle.std.specs.Prelude.{◌≡◌, ◌++◌, ◌&&◌, cond, ◌+◌, ◌*◌, ◌≤◌, ◌<◌, ◌^◌, min, leb, eqb, sum_by, length, drop, get_or};
ghost use Rattle.bits.specs.Bytes.{num};
ghost use Rattle.bits.specs.Tables.{up_to};
ghost use Rattle.table.specs.Table.{part_at};
ghost use Rattle.blocks.specs.Blocks.{size, most, none, each_right, sums_right, is_sound, lay_of, is_laid_out, is_broken, bytes_of, of_lists};
ghost use Rattle.blocks.specs.Steps.{empty, field_in, word_of};

// As a value: block k at place k of each array; past the last, zeros.
// Arrays with a count, here and where they are made: no heap, and `is_sound` answers for what stands past the last too.
// No one type, nor one `laid`, with `track::Track` and `judge::Listed`: it would hold an array of records, which is slower in a track.
// No `table::rows::Record`: no key of a block rises, and the rules are of all blocks together.
#[derive(Clone, Copy, Debug, PartialEq, Eq)]
pub struct Blocks {
    pub count: u8,
    // feet
    pub lengths: [u16; Blocks::MOST],
    // whole tons
    pub weights: [u16; Blocks::MOST],
}

// The number that the bytes of block k are; past the last whole block, 0.
fn word_at(s: &[u8], k: usize) -> u64
    ensures { result ≡ num (part_at size s.now k) }
{
    bits::word(table::record(s, Blocks::SIZE, k))
}

// Its fields: length, weight, spare. One expression each: with the shift and the size as parameters the calls would say as much.
fn length_in(x: u64) -> u16
    ensures { result ≡ field_in x 0 }
{
    (x / 0x2_0000 % 0x8000) as u16
}

fn weight_in(x: u64) -> u16
    ensures { result ≡ field_in x 1 }
{
    (x / 4 % 0x8000) as u16
}

fn spare_in(x: u64) -> u64
    ensures { result ≡ field_in x 2 }
{
    x % 4
}

// The numbers of a list, each in its place; past the last, zeros. By an index: with `array::from_fn` the proof didn't close.
fn filled(list: &[u16]) -> [u16; Blocks::MOST]
    ensures { result ≡ up_to most (λ k. get_or list.now k 0) }
{
    let mut a = [0; Blocks::MOST];
    let n = list.len().min(Blocks::MOST);
    for k in 0..n {
        a[k] = list[k];
    }
    a
}

impl Blocks {
    // Bytes of a record.
    pub const SIZE: usize = 4;
    // The most records.
    pub const MOST: usize = 64;

    // No block at all.
    #[tactic(auto, unfolding(crate::specs::Blocks::none))]
    pub fn none() -> Blocks
        ensures { result ≡ none }
    {
        Blocks {
            count: 0,
            lengths: [0; Blocks::MOST],
            weights: [0; Blocks::MOST],
        }
    }

    // The blocks that bytes are. By an index: one pass fills both arrays, up to the last block.
    pub fn laid(s: &[u8]) -> Blocks
        ensures { result ≡ lay_of s.now }
    {
        let mut lengths = [0u16; Blocks::MOST];
        let mut weights = [0u16; Blocks::MOST];
        let count = (s.len() / Blocks::SIZE).min(Blocks::MOST);
        for k in 0..count {
            let x = word_at(s, k);
            lengths[k] = length_in(x);
            weights[k] = weight_in(x);
        }
        Blocks {
            count: count as u8,
            lengths,
            weights,
        }
    }

    // A block for each length, with the weight in its place: two lists, as C gives them (`buongilach_write_manifest`).
    #[tactic(auto, unfolding(crate::specs::Blocks::of_lists))]
    pub fn of_lists(lengths: &[u16], weights: &[u16]) -> Blocks
        ensures { result ≡ of_lists lengths.now weights.now }
    {
        Blocks {
            count: lengths.len().min(Blocks::MOST) as u8,
            lengths: filled(lengths),
            weights: filled(weights),
        }
    }

    // Whether nothing stands in any place, whatever the count: `==` with `none` would ask of the count too.
    fn is_empty(&self) -> bool
        ensures { result ≡ empty self.now.lengths self.now.weights }
    {
        let mut right = true;
        for (length, weight) in self.lengths.iter().zip(&self.weights) {
            right = right & ((*length == 0) & (*weight == 0));
        }
        right
    }

    // Whether each place is right. By an index: it says whether a block is held there.
    fn each_right(&self) -> bool
        ensures { result ≡ each_right self.now }
    {
        let count = self.count as usize;
        let mut right = true;
        for k in 0..Blocks::MOST {
            right = right & place_right(k < count, self.lengths[k], self.weights[k]);
        }
        right
    }

    // Whether the blocks sum to these.
    #[tactic(auto, unfolding(crate::specs::Blocks::sums_right))]
    fn sums_right(&self, length: u16, weight: u16) -> bool
        requires { self.now.count ≤ most }
        ensures { result ≡ sums_right self.now length weight }
    {
        let count = self.count as usize;
        (sum_of(&self.lengths[..count]) == length as u32)
            & (sum_of(&self.weights[..count]) == weight as u32)
    }
}

// Whether a place is right: of a block, or past the last. No `Option` of a block: past the last stand numbers too, which must be 0.
fn place_right(held: bool, length: u16, weight: u16) -> bool
    ensures { result ≡ cond held (leb 1 length && leb 1 weight) (eqb length 0 && eqb weight 0) }
{
    if held {
        (1 <= length) & (1 <= weight)
    } else {
        (length == 0) & (weight == 0)
    }
}

// The sum of a few numbers.
fn sum_of(list: &[u16]) -> u32
    requires { length list.now ≤ most }
    ensures { result ≡ sum_by (λ n. n) list.now }
{
    list.iter().map(|n| *n as u32).sum()
}

// Whether blocks are right behind a consist of this length and weight. Without blocks one pass over the places tells it.
pub fn is_sound(b: Blocks, length: u16, weight: u16) -> bool
    ensures { result ≡ is_sound b length weight }
{
    if b.count == 0 {
        return b.is_empty();
    }
    if Blocks::MOST < b.count as usize {
        return false;
    }
    b.each_right() & b.sums_right(length, weight)
}

// Whether bytes are a whole number of blocks, no more than there may be, with no spare bit. By an index: blocks are read by their number.
fn is_laid_out(s: &[u8]) -> bool
    ensures { result ≡ is_laid_out s.now }
{
    let n = s.len() / Blocks::SIZE;
    if !((s.len() % Blocks::SIZE == 0) & (n <= Blocks::MOST)) {
        return false;
    }
    let mut clean = true;
    for k in 0..n {
        clean = clean & (spare_in(word_at(s, k)) == 0);
    }
    clean
}

// Whether bytes behind a consist of this length and weight break a rule.
#[tactic(auto, unfolding(crate::specs::Blocks::is_broken))]
pub fn is_broken(s: &[u8], length: u16, weight: u16) -> bool
    ensures { result ≡ is_broken s.now length weight }
{
    !(is_laid_out(s) & is_sound(Blocks::laid(s), length, weight))
}

// The number that the bytes of a block are.
fn word_of(length: u16, weight: u16) -> u64
    ensures { result ≡ word_of length weight }
{
    length as u64 * 0x2_0000 + weight as u64 * 4
}

// Writes the records to the front of `out`. By an index: of what an adapter of `iter_mut` lends a proof knows nothing.
pub fn put(b: Blocks, out: &mut [u8])
    requires { (b.count ≤ most) × (size * b.count ≤ length out.old) }
    ensures { out.new ≡ bytes_of b ++ drop (size * b.count) out.old }
{
    for k in 0..b.count as usize {
        let at = Blocks::SIZE * k;
        let end = at + Blocks::SIZE;
        bits::put_word(&mut out[at..end], word_of(b.lengths[k], b.weights[k]));
    }
}
