//! Messages and frames: what is read of a text, whole and byte by byte, and how it is written.

use crate::rows::{Row, hold_rows};
use rtsp_grammar::*;
use std::alloc::{AllocError, Global};

fn write_item(out: &mut Vec<u8>, item: &Item) -> Result<(), AllocError> {
    match item {
        Item::Request(request) => write_request(out, request),
        Item::Response(response) => write_response(out, response),
        // The length of a frame that was read has 16 bits.
        Item::Frame(frame) if frame.payload.as_bytes().len() <= 65_535 => write_frame(out, frame),
        Item::Frame(_) => Ok(()),
    }
}

// Writes an item, and lets it go.
fn take_item(out: &mut Vec<u8>, item: Item) -> Result<(), AllocError> {
    write_item(out, &item)
}

// Reads the item at the front of a text, if it is whole, and writes it. How many bytes are left.
fn rewrite(out: &mut Vec<u8>, alloc: Global, text: &[u8]) -> Result<usize, MessageFault> {
    match read_item(alloc, text)? {
        Some((item, size)) => {
            take_item(out, item)?;
            Ok(text.len().saturating_sub(size))
        }
        None => Ok(text.len()),
    }
}

// Has a Feed read the items of a text that comes byte by byte, and writes each. How many bytes are
// left.
fn rewrite_fed(out: &mut Vec<u8>, alloc: Global, text: &[u8]) -> Result<usize, MessageFault> {
    let mut feed = Feed::open(alloc);
    for byte in text {
        feed.push(&[*byte])?;
        if let Some(item) = feed.next()? {
            take_item(out, item)?;
        }
    }
    Ok(feed.len())
}

// A text, how many of its bytes are left behind its first item, or why it has none, and that item
// as it is written.
type Read = (&'static str, Result<usize, MessageFault>, &'static str);

const READ: [Read; 13] = [
    ("$\0\0\0", Ok(0), "$\0\0\0"),
    ("\r\n$\x02\0\x03abc", Ok(0), "$\x02\0\x03abc"),
    ("$\0\0", Ok(3), ""),
    (
        "\r\nSETUP rtsp://h/a RTSP/2.0\r\nCSeq:  7 \r\nTransport: a,\r\n \t b\r\n\
        content-length: 3\r\n\r\nabcd",
        Ok(1),
        "SETUP rtsp://h/a RTSP/2.0\r\nCSeq: 7\r\nTransport: a, b\r\ncontent-length: 3\r\n\r\nabc",
    ),
    (
        "\r\nPLAY rtsp://h/a RTSP/2.0\r\nCSeq: 3\r\n x\r\nContent-Length: 2\r\n\r\nhi",
        Ok(0),
        "PLAY rtsp://h/a RTSP/2.0\r\nCSeq: 3 x\r\nContent-Length: 2\r\n\r\nhi",
    ),
    (
        "play * RTSP/02.00\r\n\r\n",
        Ok(0),
        "play * RTSP/2.0\r\n\r\n",
    ),
    (
        "RTSP/1.0 200 OK\r\nCSeq: 1\r\n\r\n",
        Ok(0),
        "RTSP/1.0 200 OK\r\nCSeq: 1\r\n\r\n",
    ),
    (
        "RTSP/2.0 007 \r\nCSeq: 12\r\n\r\n",
        Ok(0),
        "RTSP/2.0 007 \r\nCSeq: 12\r\n\r\n",
    ),
    ("X\n", Err(MessageFault::BadLine), ""),
    ("X Y RTSP/2.0\nZ", Err(MessageFault::BadLine), ""),
    (
        "X Y RTSP/2.0\r\n a\r\n\r\n",
        Err(MessageFault::BadHeader),
        "",
    ),
    (
        "X Y RTSP/2.0\r\nContent-Length: 65537\r\n\r\n",
        Err(MessageFault::BodyTooLong),
        "",
    ),
    (
        "X Y RTSP/2.0\r\nContent-Length: +1\r\n\r\n",
        Err(MessageFault::BadLength),
        "",
    ),
];

impl Row for Read {
    // It is read so, whole and byte by byte.
    fn holds(&self, alloc: Global) -> bool {
        let (text, left, written) = *self;
        let mut whole = Vec::new(alloc);
        let mut pieces = Vec::new(alloc);
        rewrite(&mut whole, alloc, text.as_bytes()) == left
            && rewrite_fed(&mut pieces, alloc, text.as_bytes()) == left
            && whole.as_slice() == written.as_bytes()
            && pieces.as_slice() == written.as_bytes()
    }
}

#[test]
fn texts_are_read(rt: HostRuntime) {
    hold_rows(&rt, rt.alloc(), &READ);
}

const STREAM: &str = "OPTIONS * RTSP/2.0\r\nCSeq: 1\r\n\r\n\
    PLAY rtsp://h/a RTSP/2.0\r\nContent-Length: 3\r\n\r\na\r\n\
    RTSP/2.0 200 OK\r\n\r\n$\x01\0\x02hi";

// Whether the items of a stream are written as they came, and nothing is left of it.
fn comes_through(alloc: Global, stream: &str) -> bool {
    let mut out = Vec::new(alloc);
    rewrite_fed(&mut out, alloc, stream.as_bytes()) == Ok(0) && out.as_slice() == stream.as_bytes()
}

#[test]
fn a_stream_is_read(rt: HostRuntime) {
    assert!(rt; comes_through(rt.alloc(), STREAM));
}

// How a text begins, what follows so many times, how it ends, and whether it is an item or why not.
type Long = (
    &'static [u8],
    &'static [u8],
    u32,
    &'static [u8],
    Result<usize, MessageFault>,
);

// What is as long as it may be, and what is longer.
const LONG: [Long; 5] = [
    (b"$\x01\xff\xff", b"x", 65_535, b"", Ok(0)),
    (b"X Y RTSP/2.0\r\n", b"A: b\r\n", 64, b"\r\n", Ok(0)),
    (
        b"X Y RTSP/2.0\r\n",
        b"A: b\r\n",
        65,
        b"\r\n",
        Err(MessageFault::HeadTooLong),
    ),
    (b"X ", b"u", 1_024, b" RTSP/2.0\r\n\r\n", Ok(0)),
    (
        b"X ",
        b"u",
        1_025,
        b" RTSP/2.0\r\n\r\n",
        Err(MessageFault::UriTooLong),
    ),
];

fn long_text(alloc: Global, long: Long) -> Result<Vec<u8>, AllocError> {
    let (begin, piece, times, end, _) = long;
    let mut text = Vec::from_slice(alloc, begin)?;
    for _ in 0..times {
        text.extend_from_slice(piece)?;
    }
    text.extend_from_slice(end)?;
    Ok(text)
}

// Whether this is read so. An item is written as it was read.
fn is_long_read(alloc: Global, text: &[u8], wanted: Result<usize, MessageFault>) -> bool {
    let mut out = Vec::new(alloc);
    let left = rewrite(&mut out, alloc, text);
    left == wanted && (out.as_slice() == text) == left.is_ok()
}

impl Row for Long {
    fn holds(&self, alloc: Global) -> bool {
        match long_text(alloc, *self) {
            Ok(text) => is_long_read(alloc, &text, self.4),
            Err(_) => false,
        }
    }
}

#[test]
fn long_texts_are_read(rt: HostRuntime) {
    hold_rows(&rt, rt.alloc(), &LONG);
}
