//! The program: it passes its words and streams, and its door or its link, to the command that the words ask for.
#![tactic(auto)]

use iio_io::{StdSink, StdSource, TcpDoor, TcpLink};
use iio_script::Mem;
use iiod_program::{end_of, exit_code};
use iiod_readdev::{exit_of, is_readdev};
use std::env;
use std::io::ErrorKind;
use std::process::ExitCode;
use std::sync::atomic::AtomicBool;

// Returns the words after the program's name. If any of them isn't UTF-8, returns none; they aren't a command then.
fn words_of(rt: &HostRuntime) -> Result<Vec<String>, Mem> {
    let alloc = rt.alloc();
    match env::args(rt) {
        Ok(args) => Ok(args.skip(1).collect(alloc)?),
        Err(e) => {
            if e.kind() == ErrorKind::OutOfMemory {
                return Err(Mem);
            }
            Ok(Vec::new(alloc))
        }
    }
}

fn main(rt: HostRuntime) -> ExitCode {
    let words = match words_of(&rt) {
        Ok(words) => words,
        Err(Mem) => return exit_code(Err(Mem)),
    };
    let mut input = StdSource::new(rt.stdin());
    let mut output = StdSink::new(rt.stdout());
    if is_readdev(words.as_slice()) {
        let mut link = TcpLink::new(rt);
        return exit_of(
            rt.alloc(),
            words.as_slice(),
            &mut input,
            &mut output,
            &mut link,
        );
    }
    let stop = AtomicBool::new(false);
    let mut door = TcpDoor::new(rt, &stop);
    exit_code(end_of(
        &rt,
        rt.alloc(),
        words.as_slice(),
        &mut input,
        &mut output,
        &mut door,
    ))
}
