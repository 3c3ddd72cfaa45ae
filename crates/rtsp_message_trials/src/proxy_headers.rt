//! Headers of balancers: those that HAProxy 2.6 wrote, and others.

use rtsp_proxy::{LONGEST, Origin, ProxyFault, Seen, read_address, read_proxy};
use std::rt::HostRuntime;

// 10.77.0.101, and its port.
const PLAYER: Origin = Origin::Player(0x0a4d_0065, 42_748);

const LINE: &[u8] = b"PROXY TCP4 10.77.0.101 10.77.0.1 42748 7001\r\nOPTIONS * RTSP/2.0\r\n\r\n";

const BINARY: &[u8] =
    b"\r\n\r\n\0\r\nQUIT\n\x21\x11\0\x0c\x0a\x4d\0\x65\x0a\x4d\0\x01\xa6\xfc\x1b\x5aOPTIONS";

// With what is told besides, as a checksum.
const TOLD: &[u8] =
    b"\r\n\r\n\0\r\nQUIT\n\x21\x11\0\x13\x0a\x4d\0\x65\x0a\x4d\0\x01\xa6\xfc\x1b\x5b\x03\0\x04\x27\x41\xfb\x65";

const LOCAL: &[u8] = b"\r\n\r\n\0\r\nQUIT\n\x20\0\0\0";

// Of IPv6: 36 bytes of addresses and ports.
const SIXES: &[u8] =
    b"\r\n\r\n\0\r\nQUIT\n\x21\x21\0\x24................................\x01\x02\x03\x04";

// It has no end within 107 bytes.
const LONG_LINE: &[u8] =
    b"PROXY TCP4 10.77.0.101 10.77.0.1 42748 7001 ...............................................................";

// Whether nothing is told of any shorter front of a header, and this of the whole, whatever is behind.
fn is_told_at(bytes: &[u8], size: usize, seen: Seen) -> bool {
    for end in 0..size.min(bytes.len()) {
        let (front, _) = bytes.split_at(end);
        if read_proxy(front) != Seen::Undecided {
            return false;
        }
    }
    read_proxy(bytes) == seen
}

#[test]
fn headers_of_haproxy_are_read(rt: HostRuntime) {
    assert!(rt; is_told_at(LINE, 45, Seen::Header(PLAYER, 45)));
    assert!(rt; is_told_at(BINARY, 28, Seen::Header(PLAYER, 28)));
    assert!(rt; is_told_at(TOLD, 35, Seen::Header(PLAYER, 35)));
    assert!(rt; is_told_at(LOCAL, 16, Seen::Header(Origin::Own, 16)));
    assert!(rt; LINE.len() < LONGEST);
}

#[test]
fn what_names_no_player_is_the_balancers_own(rt: HostRuntime) {
    assert!(rt; read_proxy(b"PROXY UNKNOWN\r\n") == Seen::Header(Origin::Own, 15));
    let long = b"PROXY UNKNOWN ffff:: ffff:: 65535 65535\r\n";
    assert!(rt; read_proxy(long) == Seen::Header(Origin::Own, 41));
}

#[test]
fn lines_that_are_refused(rt: HostRuntime) {
    for line in [
        b"PROXY TCP4 10.077.0.1 10.77.0.1 1 2\r\n".as_slice(),
        b"PROXY TCP4 10.77.0.256 10.77.0.1 1 2\r\n".as_slice(),
        b"PROXY TCP4 10.77.0.1 10.77.0.1 1 65536\r\n".as_slice(),
        b"PROXY TCP4 10.77.0.1 10.77.0.1 1 2 \r\n".as_slice(),
        b"PROXY TCP4 10.77.0.1 10.77.0.1 1 2\n".as_slice(),
        b"PROXY TCP4 10.77.0.1 10.77.0.1 1\r\n".as_slice(),
        b"PROXY UDP4 10.77.0.1 10.77.0.1 1 2\r\n".as_slice(),
    ] {
        assert!(rt; read_proxy(line) == Seen::Refused(ProxyFault::Malformed));
    }
    assert!(rt; read_proxy(b"PROXY TCP6 ::1 ::1 1 2\r\n") == Seen::Refused(ProxyFault::NotIpv4));
    assert!(rt; read_proxy(LONG_LINE) == Seen::Refused(ProxyFault::TooLong));
}

#[test]
fn what_else_is_refused(rt: HostRuntime) {
    let no_header = Seen::Refused(ProxyFault::NoHeader);
    assert!(rt; read_proxy(b"OPTIONS * RTSP/2.0\r\n\r\n") == no_header);
    assert!(rt; read_proxy(b"PLAY rtsp://h/tone RTSP/2.0\r\n\r\n") == no_header);
    assert!(rt; read_proxy(b"\r\nOPTIONS * RTSP/2.0\r\n\r\n") == no_header);
    assert!(rt; read_proxy(SIXES) == Seen::Refused(ProxyFault::NotIpv4));
    let unknown = b"\r\n\r\n\0\r\nQUIT\n\x31\x11\0\x0c";
    assert!(rt; read_proxy(unknown) == Seen::Refused(ProxyFault::Unknown));
    let long = b"\r\n\r\n\0\r\nQUIT\n\x21\x11\x08\x01";
    assert!(rt; read_proxy(long) == Seen::Refused(ProxyFault::TooLong));
    let short = b"\r\n\r\n\0\r\nQUIT\n\x21\x11\0\x02ab";
    assert!(rt; read_proxy(short) == Seen::Refused(ProxyFault::Malformed));
}

#[test]
fn addresses_in_text(rt: HostRuntime) {
    assert!(rt; read_address(b"10.77.0.1") == Some(0x0a4d_0001));
    assert!(rt; read_address(b"255.255.255.255") == Some(u32::MAX));
    for text in [
        b"10.77.0".as_slice(),
        b"10.77.0.1.2".as_slice(),
        b"10.77.0.01".as_slice(),
        b"::1".as_slice(),
        b"".as_slice(),
    ] {
        assert!(rt; read_address(text) == None);
    }
}
