// Runs the session program on each stored feed that an argument names, under a line with the feed's name. The feeds after the word
// `everlasting` are run by that choice.
#![tactic(auto)]

use brake::Choice;
use std::env::{Env, FillError};
use std::fs::File;

// Bytes that hold any path: an array, as no program here has a heap.
const NAME_ROOM: usize = 4_096;

fn print_name(rt: &HostRuntime, name: &str) {
    let _ = println!(rt; "== {name}");
}

// Runs a feed, or says why it can't be opened.
fn run_feed(rt: &HostRuntime, name: &str, choice: Choice) {
    match File::open(rt, name) {
        Ok(mut input) => {
            print_name(rt, name);
            feed::run(&mut input, &mut rt.stdout(), choice);
        }
        Err(e) => {
            let _ = eprintln!(rt; "{name}: {e}");
        }
    }
}

// Takes an argument, and answers the choice from then on.
fn run_one(rt: &HostRuntime, name: &[u8], choice: Choice) -> Choice {
    if opening::is_everlasting(name) {
        print_name(rt, "everlasting");
        return Choice::Everlasting;
    }
    match str::from_utf8(name) {
        Ok(name) => run_feed(rt, name, choice),
        Err(_) => {
            let _ = eprintln!(rt; "an argument is no UTF-8, as a path has to be");
        }
    }
    choice
}

// By an index, by which an argument is asked for.
fn main(rt: HostRuntime) {
    let mut choice = Choice::FiveSeconds;
    let mut name = [0u8; NAME_ROOM];
    for i in 1..usize::MAX {
        match rt.arg(i, &mut name) {
            Ok(n) => choice = run_one(&rt, &name[..n], choice),
            Err(FillError::TooLong) => {
                let _ = eprintln!(rt; "an argument is longer than a path");
            }
            Err(FillError::NotPresent) => break,
        }
    }
}
