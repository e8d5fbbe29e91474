//! The program: real files, the real output, and the words that the system gives.
#![tactic(auto)]

ghost use Rattle.std.specs.Prelude.{◌≡◌};

use sk_app::run;
use sk_count::Steps;
use sk_files::{DiskFolder, OutSink};
use std::alloc::Global;
use std::marker::Brand;
use std::process::ExitCode;
use std::rt::Files;
use std::sync::ledger::{Blank, Ledger};
use std::{env, io};

/// The status where no memory is left for the list of the words.
const NO_MEMORY: u8 = 7;

/// The status where the system doesn't give the words.
const NO_WORDS: u8 = 12;

// Runs the words over a counter of their own.
fn counted<L: Ledger, R: Files + Print>(rt: &R, alloc: Global, words: &[&str], blank: Blank) -> u8
    requires name { blank.name ≡ L.name }
    requires parts { blank.parts ≡ L.parts }
    requires whole { L.parts ≡ 1 }
{
    let mut folder = DiskFolder::new(rt);
    let mut out = OutSink::new(io::writer(rt));
    let mut steps = Steps::<L>::new(blank);
    run(alloc, words, &mut folder, &mut out, &mut steps)
}

fn main(rt: HostRuntime) -> ExitCode {
    let alloc = rt.alloc();
    let args = match env::args(&rt) {
        Ok(args) => args,
        Err(error) if error.kind() == io::ErrorKind::OutOfMemory => return ExitCode::from(
            NO_MEMORY,
        ),
        Err(_) => return ExitCode::from(NO_WORDS),
    };
    let mut texts = Vec::new(alloc);
    for arg in args.skip(1) {
        if texts.push(arg).is_err() {
            return ExitCode::from(NO_MEMORY);
        }
    }
    let mut words = Vec::new(alloc);
    for text in &texts {
        if words.push(text.as_str()).is_err() {
            return ExitCode::from(NO_MEMORY);
        }
    }
    ExitCode::from(counted::<Brand, HostRuntime>(&rt, alloc, &words, Blank::new(1)))
}
