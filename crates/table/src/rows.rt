//! A record of a table, records in a row, and what is the same for all: their judge and their writer.
#![tactic(auto)]

ghost use Rattle.std.specs.Prelude.{◌≡◌, ℕ, ◌*◌, ◌%◌, ◌≤◌, ◌<◌, Bool, true, ◌&&◌, eqb, ltb, length};
ghost use Rattle.refusal.specs.Number.{told, answer_of};
ghost use Rattle.table.specs.Table.{Table, lawful, count, record_at, clean_at, judge, put_at, write};
ghost use Rattle.table.specs.Sizes.{Sizes};
ghost use Rattle.table.specs.Facts.{Facts};

use refusal::{Refusal, Verdict};
use std::marker::PhantomData;

/// One record of a table.
pub trait Record: Copy {
    /// What tells this table from another.
    ghost layout: { Table Self };

    // Bytes of a record.
    const SIZE: usize;

    ghost SIZE: { ℕ };

    // The fewest and the most records.
    const FEWEST: usize;

    ghost FEWEST: { ℕ };

    const MOST: usize;

    ghost MOST: { ℕ };

    // Record k of bytes; past the last whole record, one of zeros.
    fn at(s: &[u8], k: usize) -> Self
        ensures { result ≡ record_at layout s.now k };

    // Whether its spare bits are zero.
    fn is_clean_at(s: &[u8], k: usize) -> bool
        ensures { result ≡ clean_at layout s.now k };

    fn is_in_range(&self) -> bool
        ensures { result ≡ layout.in_range self.now };

    // What strictly rises from record to record.
    fn key(&self) -> u32
        ensures { result ≡ layout.key self.now };

    fn is_above(&self, before: u32) -> bool
        ensures { result ≡ ltb before (layout.key self.now) }
    {
        before < self.key()
    }

    // Whether it may be the last one.
    fn may_end(&self) -> bool
        ensures { result ≡ layout.ends self.now };

    // Writes it as record k of `out`.
    fn put_at(&self, out: &mut [u8], k: usize)
        requires { (layout.in_range self.now ≡ true) × (SIZE * k ≤ length out.old) }
        ensures { out.new ≡ put_at layout self.now k out.old };

    // What a table gives where a rule is broken.
    fn broken() -> Refusal
        ensures { result ≡ layout.broken };

    ghost sizes: { Sizes layout SIZE FEWEST MOST };
}

/// Records in a row, wherever they come from.
pub trait Rows {
    type Item: Record;

    ghost whole: { Self → Bool };

    ghost count: { Self → ℕ };

    ghost nth: { Self → ℕ → Self.Item };

    ghost clean: { Self → ℕ → Bool };

    // Whether they are whole records: no byte is left over, or the lists of their fields are of one length.
    fn are_whole(&self) -> bool
        ensures { result ≡ whole self.now };

    fn count(&self) -> usize
        ensures { result ≡ count self.now };

    fn row(&self, k: usize) -> Self::Item
        requires { (whole self.now ≡ true) × (k < count self.now) }
        ensures { result ≡ nth self.now k };

    fn is_clean(&self, k: usize) -> bool
        ensures { result ≡ clean self.now k };
}

/// Records as lent bytes.
#[derive(Clone, Copy)]
struct Bytes<'a, R: Record> {
    bytes: &'a [u8],
    of: PhantomData<R>,
}

impl<'a, R: Record> Rows for Bytes<'a, R> {
    type Item = R;

    ghost whole = { λ b. eqb (length b.bytes.now % R.layout.size) 0 };

    ghost count = { λ b. count R.layout b.bytes.now };

    ghost nth = { λ b k. record_at R.layout b.bytes.now k };

    ghost clean = { λ b k. clean_at R.layout b.bytes.now k };

    fn are_whole(&self) -> bool {
        self.bytes.len() % R::SIZE == 0
    }

    fn count(&self) -> usize {
        self.bytes.len() / R::SIZE
    }

    fn row(&self, k: usize) -> R {
        R::at(self.bytes, k)
    }

    fn is_clean(&self, k: usize) -> bool {
        R::is_clean_at(self.bytes, k)
    }
}

/// Whether records keep every rule of their table. By an index: bytes and lists alike have a row by its number.
pub fn keep<T: Rows>(rows: &T) -> bool
    ensures { result ≡ (T.whole rows.now && lawful T.Item.layout (T.count rows.now) (T.nth rows.now) (T.clean rows.now)) }
{
    let n = rows.count();
    if !(rows.are_whole() & ((T::Item::FEWEST <= n) & (n <= T::Item::MOST))) {
        return false;
    }
    let mut good = true;
    let mut before: u32 = 0;
    for k in 0..n {
        let g = rows.row(k);
        let rises = (k == 0) | g.is_above(before);
        good = good & (rows.is_clean(k) & (g.is_in_range() & rises));
        before = g.key();
    }
    good & ((n == 0) || rows.row(n - 1).may_end())
}

/// How many records a table's bytes have.
pub fn judge<R: Record>(s: &[u8]) -> Result<usize, Refusal>
    ensures { told (answer_of 0 result) ≡ told (judge R.layout s.now) }
{
    let rows: Bytes<R> = Bytes {
        bytes: s,
        of: PhantomData,
    };
    let Some(()) = refusal::unless(!keep(&rows)) else {
        return Err(R::broken());
    };
    Ok(rows.count())
}

/// Writes the records to the front of `out`. By an index: it is each record's place.
pub fn write<T: Rows>(rows: &T, out: &mut [u8]) -> Verdict
    requires laws { Facts T.Item.layout }
    requires spotless { (k : ℕ) → T.clean rows.now k ≡ true }
    ensures { told (result, out.new) ≡ told (write T.Item.layout (T.whole rows.now) (T.count rows.now) (T.nth rows.now) out.old) }
{
    let n = rows.count();
    let Some(()) = refusal::unless(!keep(rows)) else {
        return Err(T::Item::broken());
    };
    let Some(()) = refusal::unless(out.len() < T::Item::SIZE * n) else {
        return Err(Refusal::NoRoom);
    };
    for k in 0..n {
        rows.row(k).put_at(out, k);
    }
    Ok(())
}
