//! The options of sockets.

use libc::net;
use std::os::fd::RawFd;

/// How many bytes of a connection the system keeps: 64 KiB. Left to itself it grows to 4 MB for
/// a player that doesn't read.
pub const SEND_BUFFER: u32 = 64 * 1024;

/// How many it keeps until the player has taken bytes soon after they came to wait. What the system
/// keeps hides whether the player takes it.
pub const FIRST_SEND_BUFFER: u32 = 8 * 1024;

// As few bytes as the system allows, which is 2,304 on Linux.
const LEAST_BUFFER: u32 = 1;

// A number as the system takes the value of an option.
fn option_value(number: u32) -> [u8; 16] {
    let mut value = [0; 16];
    value[..4].copy_from_slice(&number.to_ne_bytes());
    value
}

// Has the system keep so many bytes of a connection. Whether that could be set.
fn keep_bytes(fd: RawFd, bytes: u32) -> bool {
    let buffer = option_value(bytes);
    // SAFETY: it is an option of a number, of which 4 bytes are passed.
    let buffered = unsafe { net::setsockopt(fd, net::SOL_SOCKET, net::SO_SNDBUF, &buffer, 4) };
    buffered == 0
}

/// Sets what an accepted connection needs: the system keeps at most `FIRST_SEND_BUFFER` bytes of it.
/// Whether that could be set.
pub fn prepare(fd: RawFd) -> bool {
    keep_bytes(fd, FIRST_SEND_BUFFER)
}

/// Has the system keep `SEND_BUFFER` bytes of a connection.
pub(crate) fn widen(fd: RawFd) {
    let _ = keep_bytes(fd, SEND_BUFFER);
}

/// Has the system give up what it still keeps of a connection that is closed, where its peer doesn't take
/// it within so many milliseconds. An open one isn't left to such a limit: the system counts against a
/// peer that takes a few bytes at a time as against one that takes none.
pub(crate) fn limit_the_end(fd: RawFd, milliseconds: u32) {
    let limit = option_value(milliseconds);
    // SAFETY: it is an option of a number, of which 4 bytes are passed.
    let _ = unsafe { net::setsockopt(fd, net::IPPROTO_TCP, net::TCP_USER_TIMEOUT, &limit, 4) };
}

/// Has the system keep as little as it can of what comes to a socket that nobody reads: a packet or
/// two in place of 200 kB. Whether that could be set.
pub(crate) fn drop_input(fd: RawFd) -> bool {
    let buffer = option_value(LEAST_BUFFER);
    // SAFETY: it is an option of a number, of which 4 bytes are passed.
    let limited = unsafe { net::setsockopt(fd, net::SOL_SOCKET, net::SO_RCVBUF, &buffer, 4) };
    limited == 0
}
