//! The program `rtspd`: its work is done by the library of that name.

#![tactic(auto)]

use rtspd::{Exit, run_program, takes_last_lines, tell_reasons};
use std::fs::File;
use std::io::{Eprint, ErrorKind, Read, Write};
use std::net::{Net, TcpListener, TcpStream};
use std::process::ExitCode;
use std::random::RandomSource;
use std::rt::{Clock, Env, Files};
use std::sync::Wait;
use std::thread::Threads;
use std::{env, io};

// The words after the program's name.
fn words<R: Env + AllocGlobal>(rt: &R) -> io::Result<Vec<String>> {
    let mut words = Vec::new(rt.alloc());
    for word in env::args(rt)?.skip(1) {
        words.push(word)?;
    }
    Ok(words)
}

// What it means that there are no words to run: one that isn't UTF-8 is no word of a command line.
fn words_fault(error: &io::Error) -> Exit {
    match error.kind() {
        ErrorKind::InvalidData => Exit::BadCommandLine,
        _ => Exit::OutOfMemory,
    }
}

// Runs the words of the command line, and tells what went wrong, unless nobody takes it.
fn run<
    R: Env
        + Files<File = File>
        + AllocGlobal
        + Threads
        + Wait
        + Clock
        + Eprint
        + RandomSource
        + Copy
        + Send
        + Sync
        + 'static,
    I: Read + Drop,
    O: Write + Drop,
    E: Write + Drop + Send,
>(rt: &R, reader: I, writer: O, errors: E) -> io::Result<Exit>
where
    R: Net<Listener = TcpListener, Stream = TcpStream>,
{
    let words = words(rt)?;
    let mut texts = Vec::new(rt.alloc());
    for word in &words {
        texts.push(word.as_str())?;
    }
    let exit = run_program(rt, &texts, reader, writer, errors);
    if exit != Exit::Done && takes_last_lines(rt, rt.alloc()) {
        let _ = eprintln!(rt; "{exit}");
        tell_reasons(rt, &texts, exit);
    }
    Ok(exit)
}

fn main(rt: HostRuntime) -> ExitCode {
    let exit = match run(&rt, rt.stdin(), rt.stdout(), rt.stderr()) {
        Ok(exit) => exit,
        Err(error) => {
            let exit = words_fault(&error);
            let _ = eprintln!(&rt; "{exit}");
            tell_reasons(&rt, &[], exit);
            exit
        }
    };
    ExitCode::from(exit.status())
}
