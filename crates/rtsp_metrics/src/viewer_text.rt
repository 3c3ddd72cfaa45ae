//! A session as an object of JSON. After a refusal a part of the text may be at the end.

use crate::audience::{Viewer, Viewing};
use itoa::Buffer;
use rtsp_text::{append_all, write_hex_u32};
use std::alloc::AllocError;

// A number behind a text.
fn write_number(out: &mut Vec<u8>, before: &[u8], number: u64) -> Result<(), AllocError> {
    let mut digits = Buffer::new();
    let digits = digits.format(number);
    append_all(out, &[before, digits.as_bytes()])
}

fn write_address(out: &mut Vec<u8>, address: u32) -> Result<(), AllocError> {
    write_number(out, b",\"player\":\"", u64::from(address / 16_777_216))?;
    write_number(out, b".", u64::from(address / 65_536 % 256))?;
    write_number(out, b".", u64::from(address / 256 % 256))?;
    write_number(out, b".", u64::from(address % 256))
}

impl Viewer {
    /// Writes who watches what at a moment, in milliseconds since the server began, at the end. The film's
    /// name has to be one that needs no escape, as those of a configuration.
    pub fn write_json(&self, out: &mut Vec<u8>, film: &[u8], now: u64) -> Result<(), AllocError> {
        let Viewing {
            session,
            peer,
            conn,
            transport,
            since,
            ..
        } = self.viewing;
        write_number(out, b"{\"session\":\"", session)?;
        out.extend_from_slice(b":")?;
        write_hex_u32(out, self.viewing.digits())?;
        write_number(out, b"\",\"number\":", session)?;
        write_address(out, peer)?;
        write_number(out, b"\",\"connection\":", conn)?;
        append_all(out, &[b",\"presentation\":\"", film])?;
        append_all(out, &[b"\",\"transport\":\"", transport.name(), b"\""])?;
        write_number(out, b",\"seconds\":", now.saturating_sub(since) / 1_000)?;
        write_number(out, b",\"packets\":{\"sent\":", self.sums.sent)?;
        write_number(out, b",\"lost\":", self.sums.lost)?;
        write_number(out, b",\"late\":", self.sums.late)?;
        out.extend_from_slice(b"}}")
    }
}
