//! Chooses which products to offer.
#![tactic(auto)]

use assort_core::run;
use offer_io::{HostSink, HostStore, OpenGate, Sink};
use offer_model::Texts;
use std::alloc::Global;
use std::env::Env;
use std::io::ErrorKind;
use std::process::ExitCode;
use std::{env, io};

/// Why there are no words.
enum NoWords {
    NotText,
    NoMemory,
}

/// The words after the program's name.
fn read_arguments(rt: &(impl Env + Alloc<A = Global>)) -> Result<Texts, NoWords> {
    let arguments = match env::args(rt) {
        Ok(arguments) => arguments,
        Err(error) if error.kind() == ErrorKind::OutOfMemory => return Err(NoWords::NoMemory),
        Err(_) => return Err(NoWords::NotText),
    };
    let mut words = Texts::new(rt.alloc());
    for word in arguments.skip(1) {
        if words.push(word.as_str()).is_err() {
            return Err(NoWords::NoMemory);
        }
    }
    Ok(words)
}

fn main(rt: HostRuntime) -> ExitCode {
    let mut store = HostStore::new(&rt);
    let mut out = HostSink::new(io::writer(&rt));
    let mut err = HostSink::new(rt.stderr());
    let words = match read_arguments(&rt) {
        Ok(words) => words,
        Err(NoWords::NotText) => {
            let _ = err.write(b"assort: usage: a word is not UTF-8\n");
            return ExitCode::from(2);
        }
        Err(NoWords::NoMemory) => {
            let _ = err.write(b"assort: out of memory\n");
            return ExitCode::from(5);
        }
    };
    ExitCode::from(run(
        &rt,
        rt.alloc(),
        &words,
        &mut store,
        &mut out,
        &mut err,
        &OpenGate,
    ))
}
