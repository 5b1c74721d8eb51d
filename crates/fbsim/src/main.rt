//! The simulator's program: it passes on the words, the files and the outputs of the machine.
//!
//! The calls are those of `fbsim_command`, which is a library, since no crate can use a program.
#![tactic(auto)]

use fbsim_command::{Failure, Files, command_with_clock, words_on_terminal};
pub use fbsim_command::{Call, LineFault, Source, SourceFault, Streams, command, parse};
use std::io::IsTerminal;
use std::process::ExitCode;
use std::sync::Wait;
use std::thread::Threads;
use std::{env, io};

/// Calls the program with the words that it was started with. The host opens its files and its outputs, and has the
/// clocks. The workers have a handle of their own, since a host that is passed on starts no threads.
fn call<R: Threads + Wait + Sync>(rt: &R, host: &HostRuntime) -> io::Result<u8> {
    let alloc = host.alloc();
    let words: Vec<String> = env::args(host)?.collect(alloc)?;
    let texts: Vec<&str> = words.iter().map(|word| word.as_str()).collect(alloc)?;
    let mut files = Files::new(host);
    let texts = if host.stderr().is_terminal() {
        words_on_terminal(alloc, texts.as_slice())?
    } else {
        texts
    };
    let exit = command_with_clock(
        rt,
        host,
        alloc,
        texts.as_slice(),
        &mut files,
        &mut host.stdout(),
        &mut host.stderr(),
    );
    Ok(exit.status)
}

fn main(rt: HostRuntime) -> ExitCode {
    match call(&rt, &rt) {
        Ok(status) => ExitCode::from(status),
        Err(error) if error.kind() == io::ErrorKind::OutOfMemory => {
            let _ = rt.eprintln(Failure::Memory);
            ExitCode::from(4)
        }
        Err(_) => {
            let _ = eprintln!(rt; "error: the words of the command line are no text");
            ExitCode::from(5)
        }
    }
}
