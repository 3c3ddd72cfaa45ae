//! Values from RFC 7826 and the server's profile.

use crate::rows::{Lines, cut, hold_lines};
use rtsp_npt::{
    OutOfMedia, RangeFault, Span, UnitLength, read_range, resolve, write_range, write_stop,
    write_time,
};
use std::alloc::{AllocError, Global};

// What a Range header takes of ten seconds in units of 20 ms, where `halt` is the resume point.
fn taken(alloc: Global, text: &str, halt: u32) -> Result<String, AllocError> {
    match read_range(text.as_bytes()) {
        Ok(range) => match resolve(range, halt, UnitLength::new(20), 500) {
            Ok(Span { from, stop }) => format!(in alloc; "{from} to {stop}"),
            Err(OutOfMedia) => String::from_str(alloc, "outside"),
        },
        Err(RangeFault::NotNpt) => String::from_str(alloc, "not npt"),
        Err(RangeFault::BadNpt) => String::from_str(alloc, "bad npt"),
        Err(RangeFault::Now) => String::from_str(alloc, "now"),
    }
}

// A header, the resume point, at which a range without a start begins, and what is taken.
const TAKEN: &str = "\
npt=2.505-                | 0   | 125 to 500
npt=9.999-                | 0   | 499 to 500
npt=0:00:03-99            | 0   | 150 to 500
NPT=1.-1.0001             | 0   | 50 to 51
npt=10-                   | 0   | outside
npt=3-3                   | 0   | outside
npt=3-3.000000001         | 0   | 150 to 151
npt                       | 0   | 0 to 500
npt                       | 125 | 125 to 500
npt                       | 500 | outside
npt=-3                    | 149 | 149 to 150
npt=-3                    | 150 | outside
smpte=0-                  | 0   | not npt
clock                     | 0   | not npt
npt=now-                  | 0   | now
npt=x-now                 | 0   | now
npt=                      | 0   | bad npt
npt=now                   | 0   | bad npt
npt=Now-                  | 0   | bad npt
npt=-                     | 0   | bad npt
npt=0:60:00-              | 0   | bad npt
npt=1.0000000000-         | 0   | bad npt
npt=00000000000000000001- | 0   | bad npt
n t=0-                    | 0   | bad npt
=0-                       | 0   | bad npt
                          | 0   | bad npt
";

struct TakenLines;

impl Lines for TakenLines {
    fn holds(alloc: Global, line: &str) -> bool {
        let (text, values) = cut(line);
        let (halt, expected) = cut(values);
        match taken(alloc, text, halt.parse().unwrap_or(0)) {
            Ok(found) => found.as_str() == expected,
            Err(_) => false,
        }
    }
}

#[test]
fn takes_units(rt: HostRuntime) {
    hold_lines::<TakenLines>(&rt, rt.alloc(), TAKEN);
}

fn write_three(out: &mut Vec<u8>, unit: UnitLength) -> Result<(), AllocError> {
    write_range(out, 125, 500, unit)?;
    write_stop(out, 500, unit)?;
    write_time(out, 1, unit)
}

const THREE: &[u8] = b"npt=2.500-10.000npt=-10.0000.020";

fn are_written(alloc: Global) -> bool {
    let mut out = Vec::new(alloc);
    write_three(&mut out, UnitLength::new(20)).is_ok() && out.as_slice() == THREE
}

#[test]
fn writes_three_decimals(rt: HostRuntime) {
    assert!(rt; are_written(rt.alloc()));
}
