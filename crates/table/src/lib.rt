//! What every table of records has in common.
#![tactic(auto)]

ghost use Rattle.std.specs.Prelude.{◌≡◌, ◌<◌};
ghost use Rattle.table.specs.Table.{part_at};

/// One record, rows of them, their judge and their writer.
pub mod rows;

// The bytes of record k, where a record takes `size`; past the last whole record, none.
pub fn record(s: &[u8], size: usize, k: usize) -> &[u8]
    requires { 0 < size }
    ensures { result.now ≡ part_at size s.now k }
{
    if k < s.len() / size {
        let from = size * k;
        &s[from..from + size]
    } else {
        &s[..0]
    }
}
