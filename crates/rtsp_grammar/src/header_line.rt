//! The header lines of a message.

ghost use Rattle.std.specs.Prelude.{◌≡◌, ◌<◌, List, ℕ, length, IfOk, IfErr};
ghost use Rattle.rtsp_grammar.specs.declared.fault.MessageFault.TheVariants.{OutOfMemory};
ghost use Rattle.rtsp_text.specs.Results.{Gives};
ghost use Rattle.rtsp_grammar.specs.HeaderSteps.{ReadsFirst, PushesHeader};
ghost use Rattle.rtsp_grammar.specs.HeaderView.{shown};
ghost use Rattle.rtsp_grammar.specs.Lines.{AreLines};
ghost use Rattle.rtsp_grammar.specs.HeaderSteps.{named_header};
ghost use Rattle.rtsp_grammar.specs.Reading.{header_of, folded, header_lines_of};

use crate::fault::MessageFault;
use crate::folds::{begins_blank, unfold};
use crate::header::{Header, Headers, HeadersBuilder};
use crate::line::split_line;
use crate::words::{are_value_bytes, token_len};
use rtsp_text::{trim_start, trimmed};
use std::alloc::Global;

// More headers are HeadTooLong.
const HEADER_LIMIT: usize = 64;

// The header of a name, where a colon and a value follow it.
fn named_header<'a>(name: &'a [u8], rest: &'a [u8]) -> Result<Header<'a>, MessageFault>
    ensures ok { IfOk result (λ h. named_header name.now rest.now ≡ Ok (shown h)) }
    ensures err { IfErr result (λ fault. named_header name.now rest.now ≡ Err fault) }
{
    let [b':', value @ ..] = rest else {
        return Err(MessageFault::BadHeader);
    };
    let value = trimmed(value);
    if name.is_empty() || !are_value_bytes(value) {
        return Err(MessageFault::BadHeader);
    }
    Ok(Header { name, value })
}

// The header that a line spells.
fn header_of(line: &[u8]) -> Result<Header<'_>, MessageFault>
    ensures ok { IfOk result (λ h. header_of line.now ≡ Ok (shown h)) }
    ensures err { IfErr result (λ fault. header_of line.now ≡ Err fault) }
{
    let (name, rest) = line.split_at(token_len(line));
    named_header(name, trim_start(rest))
}

// Adds the header that a line spells.
fn push_line(headers: &mut HeadersBuilder, line: &[u8]) -> Result<(), MessageFault>
    ensures { PushesHeader result headers.old.headers headers.new.headers (header_of line.now) }
{
    let header = header_of(line)?;
    headers.push(header.name, header.value)?;
    Ok(())
}

// Adds the header that the first line spells with the lines that continue it, and gives the other
// lines. A line that is continued is joined in `unfolded`.
fn next_header<'a>(
    headers: &mut HeadersBuilder,
    unfolded: &mut Vec<u8>,
    lines: &'a [u8],
) -> Result<&'a [u8], MessageFault>
    requires { 0 < length lines.now }
    ensures reads { ReadsFirst result headers.old.headers headers.new.headers lines.now }
    ensures shorter { IfOk result (λ rest. length rest.now < length lines.now) }
{
    let (line, rest) = split_line(lines);
    if !begins_blank(rest) {
        push_line(headers, line)?;
        return Ok(rest);
    }
    unfolded.clear();
    unfolded.extend_from_slice(line)?;
    let rest = unfold(unfolded, rest)?;
    push_line(headers, unfolded)?;
    Ok(rest)
}

/// The headers that lines spell. `count` of the lines continue no other: so many headers there are.
pub fn headers_of(alloc: Global, lines: &[u8], count: usize) -> Result<Headers, MessageFault>
    ensures { (ls : List (List ℕ)) → AreLines lines.now ls → count ≡ length (folded ls).1 → Gives OutOfMemory result (header_lines_of ls) }
{
    if begins_blank(lines) {
        return Err(MessageFault::BadHeader);
    }
    if count > HEADER_LIMIT {
        return Err(MessageFault::HeadTooLong);
    }
    let mut headers = HeadersBuilder::with_room(alloc, count, lines.len())?;
    let mut unfolded = Vec::new(alloc);
    let mut left = lines;
    'headers: while !left.is_empty() {
        left = next_header(&mut headers, &mut unfolded, left)?;
    }
    Ok(headers.into_headers())
}
