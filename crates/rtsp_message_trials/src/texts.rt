//! Small texts: how numbers are written, and what is made of bytes. The readers of small texts compute
//! their definitions, and are called wherever a header or a message is read.

use rtsp_text::{List, append_all, write_decimal, write_hex_u32, write_hex_u128};
use std::alloc::{AllocError, Global};

fn write_numbers(out: &mut Vec<u8>) -> Result<(), AllocError> {
    write_decimal(out, 120)?;
    append_all(out, &[b" ", b"", b"- "])?;
    write_hex_u32(out, 0x00ab_cdef)?;
    append_all(out, &[b" "])?;
    write_hex_u128(out, 31)
}

const NUMBERS: &[u8] = b"120 - 00abcdef 0000000000000000000000000000001f";

fn are_written(alloc: Global) -> bool {
    let mut out = Vec::new(alloc);
    write_numbers(&mut out).is_ok() && List::from_vec(out).as_slice() == NUMBERS
}

#[test]
fn written(rt: HostRuntime) {
    assert!(rt; are_written(rt.alloc()));
}
