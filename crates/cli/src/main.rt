//! Checks native methods, `jnirun check PROG ..`, runs them over a heap, `jnirun run PROG WORLD --schedule FILE` or
//! `--workers`, replays their journals, `jnirun replay PROG WORLD JOURNAL`, and explains faults and traps, `jnirun
//! explain N` and `jnirun explain trap N`.
#![tactic(auto)]

mod answering;

use crate::answering::{answer, lacks_words, run_by_workers, traced};
use jnirun::{FileSystem, Keeping, serve, trace_all};
use sinks::StdSink;
use std::env::Env;
use std::io::ErrorKind;
use std::process::ExitCode;

/// The words of the command line, or why there are none.
fn words_of<R: AllocGlobal + Env>(rt: &R) -> Result<Vec<String>, ErrorKind> {
    match std::env::args(rt) {
        Ok(args) => args.collect(rt.alloc()).map_err(|_| ErrorKind::OutOfMemory),
        Err(error) => Err(error.kind()),
    }
}

fn main(rt: HostRuntime) -> ExitCode {
    let alloc = rt.alloc();
    let files = &mut FileSystem::new(&rt);
    let out = &mut StdSink::new(rt.stdout());
    let err = &mut StdSink::new(rt.stderr());
    let status = match words_of(&rt) {
        Ok(words) => {
            let request = cli_words::read(alloc, &words);
            match traced(&request) {
                Some((command, which)) => {
                    let out = &mut Keeping::new(alloc, StdSink::new(rt.stdout()));
                    trace_all(&rt, alloc, command, which, files, out, err)
                }
                // A run by workers waits for them. Nothing else can wait.
                None => match run_by_workers(&request) {
                    Some(command) => serve(&rt, alloc, command, files, out, err),
                    None => answer(alloc, &request, files, out, err),
                },
            }
        }
        Err(kind) => lacks_words(kind, err),
    };
    ExitCode::from(status)
}
