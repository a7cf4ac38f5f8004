// The session program: a feed on standard input, its lines on standard output. One word may ask for the everlasting choice.
#![tactic(auto)]

use brake::Choice;
use std::env::{Env, FillError};

// Bytes that hold the longest word that asks for a choice: an array, as no program here has a heap.
const WORD_ROOM: usize = 11;

// The choice that the words ask for; none where they are wrong.
fn choice<E: Env>(words: &E) -> Option<Choice> {
    let mut word = [0u8; WORD_ROOM];
    match words.arg(1, &mut word) {
        Err(FillError::NotPresent) => Some(Choice::FiveSeconds),
        Err(FillError::TooLong) => None,
        Ok(n) => (opening::is_everlasting(&word[..n]) & is_last(words)).then_some(
            Choice::Everlasting,
        ),
    }
}

// Whether no word follows the first.
fn is_last<E: Env>(words: &E) -> bool {
    matches!(words.arg(2, &mut []), Err(FillError::NotPresent))
}

// Runs the feed where no word is wrong; else that is said, and nothing is read. It ends quietly with status 0 whatever happens:
// `./run`, which knows the words too, gives another.
fn main(rt: HostRuntime) {
    match choice(&rt) {
        Some(choice) => feed::run(&mut rt.stdin(), &mut rt.stdout(), choice),
        None => {
            let _ = eprintln!(rt; "enforce: one word at most, everlasting");
        }
    }
}
