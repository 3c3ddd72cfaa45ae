//! How answers are written, each as lines.

use rtsp_book::{Receipt, Refusal};
use rtsp_journal_text::{Field, write_line, write_record};
use rtsp_record::Phase;
use std::alloc::{AllocError, Global};
use std::fmt::Debug;

/// Writes a fault by its name.
pub fn write_fault<F: Debug>(
    out: &mut Vec<u8>,
    alloc: Global,
    fault: &F,
) -> Result<(), AllocError> {
    let line = format!(in alloc; "{fault:?}\n")?;
    out.extend_from_slice(line.as_str().as_bytes())
}

/// Writes a word.
pub fn write_word(out: &mut Vec<u8>, word: &[u8]) -> Result<(), AllocError> {
    write_line(out, &[Field::Word(word)])
}

/// Writes a word and a number.
pub fn write_number(out: &mut Vec<u8>, word: &[u8], number: u64) -> Result<(), AllocError> {
    write_line(out, &[Field::Word(word), Field::Number(number)])
}

/// Writes where a session is in its play.
pub fn write_phase(out: &mut Vec<u8>, phase: Phase) -> Result<(), AllocError> {
    write_line(out, &[Field::Word(b"phase"), Field::Phase(phase)])
}

/// Writes what a step came to: a refusal, or its records and the ports that are free again.
pub fn write_answer(
    out: &mut Vec<u8>,
    alloc: Global,
    answer: Result<(), Refusal>,
    made: &Receipt,
) -> Result<(), AllocError> {
    match answer {
        Ok(()) => write_receipt(out, made),
        Err(refusal) => write_fault(out, alloc, &refusal),
    }
}

fn write_receipt(out: &mut Vec<u8>, made: &Receipt) -> Result<(), AllocError> {
    for record in made.records() {
        write_record(out, record)?;
    }
    write_freed(out, b"pair", made.freed_pairs().as_slice())?;
    write_freed(out, b"port", made.freed_ports().as_slice())
}

fn write_freed(out: &mut Vec<u8>, kind: &[u8], freed: &[(u64, u16)]) -> Result<(), AllocError> {
    for (admission, port) in freed {
        write_line(
            out,
            &[
                Field::Word(b"freed"),
                Field::Number(*admission),
                Field::Word(kind),
                Field::Number(u64::from(*port)),
            ],
        )?;
    }
    Ok(())
}
