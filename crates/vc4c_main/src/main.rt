//! The program: the top call over the real files and the standard output.
#![tactic(auto)]

use q_io::{HostFiles, HostSink};
use std::env;
use std::process::ExitCode;
use vc4c_core::{Status, code, run};

/// The status where the system doesn't hand over the words.
const NO_WORDS: u8 = 100;

fn main(rt: HostRuntime) -> ExitCode {
    let Ok(args) = env::args(&rt) else {
        return ExitCode::from(NO_WORDS);
    };
    let mut words = Vec::new(rt.alloc());
    for word in args.skip(1) {
        if words.push(word).is_err() {
            return ExitCode::from(code(Status::Memory));
        }
    }
    let mut files = HostFiles::new(&rt, rt.alloc());
    let mut out = HostSink::new(&rt);
    ExitCode::from(code(run(rt.alloc(), &words, &mut files, &mut out)))
}
