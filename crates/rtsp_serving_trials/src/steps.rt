//! Tests in words. A test is a line of steps, parted by commas. A step is a word, what stands behind it,
//! and behind ` = ` what it has to give. Each scene says in its `does` what the words mean there.

use std::fs::File;
use std::net::{Net, TcpListener, TcpStream};
use std::process::Abort;
use std::rt::{Clock, Files};
use std::sync::Wait;

/// A step.
#[derive(Clone, Copy)]
pub struct Step<'a> {
    pub word: &'a str,
    /// What stands behind the word, and the number that it is, or 0.
    pub rest: &'a str,
    pub number: u64,
    pub wanted: &'a str,
}

impl<'a> Step<'a> {
    fn read(text: &'a str) -> Step<'a> {
        let (what, wanted) = text.split_once(" = ").unwrap_or((text, ""));
        let (word, rest) = what.split_once(' ').unwrap_or((what, ""));
        Step {
            word,
            rest,
            number: rest.parse().unwrap_or(0),
            wanted,
        }
    }

    /// Whether this number is wanted.
    pub fn wants(&self, number: u64) -> bool {
        self.wanted.parse() == Ok(number)
    }
}

/// What steps are done with.
pub trait Scene {
    /// Does a step. Whether it gives what is wanted; a word that isn't known doesn't.
    fn does<
        R: Wait
            + Clock
            + Files<File = File>
            + Net<Listener = TcpListener, Stream = TcpStream>
            + AllocGlobal,
    >(&mut self, rt: &R, step: Step<'_>) -> bool;
}

/// Does all steps of a line.
pub fn play<
    R: Wait
        + Clock
        + Files<File = File>
        + Net<Listener = TcpListener, Stream = TcpStream>
        + AllocGlobal
        + Abort,
    S: Scene,
>(rt: &R, scene: &mut S, line: &str) {
    for text in line.split(", ") {
        assert!(rt; scene.does(rt, Step::read(text)), "{text}");
    }
}
