// A run over memory, where no read fails: document 01's case with two of its samples.
use crate::try_run;
use brake::Choice;
use std::io;

// Consist, no blocks, two records of profile, one target, two samples.
const FEED: [u8; 77] = [
    5, 2, 128, 125, 0, 150, 0, 195, 80, 7, 83, 0, 202, 50, 129, 244, 0, 0, 2, 0, 0, 0, 0, 0, 0, 0,
    156, 64, 0, 0, 0, 1, 0, 21, 155, 0, 0, 83, 0, 0, 0, 128, 0, 19, 136, 0, 0, 0, 0, 66, 180, 0, 0,
    66, 180, 0, 0, 83, 0, 0, 1, 128, 0, 19, 136, 63, 128, 0, 0, 66, 180, 0, 0, 66, 180, 0, 0,
];

// Fails a test; `assert!` would need the right to abort.
fn ensure(right: bool) -> io::Result<()> {
    if right {
        Ok(())
    } else {
        Err(io::Error::from(io::ErrorKind::InvalidData))
    }
}

#[test]
fn prints_every_line() -> io::Result<()> {
    let mut feed = FEED.as_slice();
    let mut printed = [0u8; 64];
    let mut left = printed.as_mut_slice();
    try_run(&mut feed, &mut left, Choice::FiveSeconds)?;
    let lines = b"0 0 0 0 5000\n0 0 0 0 0\n1 0 1 1 5032\n1 0 0 0 5032\n";
    ensure(left.len() == 64 - lines.len())?;
    ensure(printed.starts_with(lines.as_slice()))?;
    ensure(feed.is_empty())
}

#[test]
fn ends_at_a_write_that_fails() -> io::Result<()> {
    let mut feed = FEED.as_slice();
    let mut printed = [0u8; 23];
    let mut left = printed.as_mut_slice();
    ensure(try_run(&mut feed, &mut left, Choice::FiveSeconds).is_err())?;
    ensure(left.is_empty())?;
    ensure(printed.as_slice() == b"0 0 0 0 5000\n0 0 0 0 0\n".as_slice())
}
