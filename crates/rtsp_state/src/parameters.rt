//! The parameters in a body.

ghost use Rattle.std.specs.Prelude.{◌≡◌, ◌++◌, OnOk, IfOk, nat_eq, codes};
ghost use Rattle.std.specs.List.{list_any, starts_with};
ghost use Rattle.rtsp_state.specs.Fault.{GivesBy};
ghost use Rattle.rtsp_state.specs.GetParameter.{first_line, parameter_of, parameters_in, parameter_line, parameters_body, is_position};

use crate::fault::Fault;
use crate::status::Status;
use crate::timing::Timing;
use crate::words::{Word, text_of};
use rtsp_npt::write_time;
use std::alloc::{AllocError, Global};

// The most names in a body.
const NAME_LIMIT: usize = 64;

// More than the line of a parameter takes: its name, a time, and CR LF.
const LINE_ROOM: usize = 40;

/// A parameter of a session or of its media.
#[derive(Clone, Copy, PartialEq, Eq)]
pub enum Parameter {
    /// The point of the session.
    Position,
    /// The length of the media.
    Duration,
}

// Whether a line ends here.
fn is_line_end(text: &[u8]) -> bool
    ensures { result ≡ starts_with nat_eq text.now (codes "\r\n") }
{
    matches!(text, [b'\r', b'\n', ..])
}

fn first_line(text: &[u8]) -> (&[u8], &[u8])
    ensures { (result.0.now, result.1.now) ≡ first_line text.now }
{
    for index in 0..text.len() {
        if is_line_end(&text[index..]) {
            return (&text[..index], &text[index + 2..]);
        }
    }
    (text, &[])
}

fn parameter_of(name: &[u8]) -> Result<Parameter, Fault>
    ensures { result ≡ parameter_of name.now }
{
    // The first byte tells the names apart.
    if matches!(name, [b'p', ..]) && name == b"position".as_slice() {
        return Ok(Parameter::Position);
    }
    if name == b"duration".as_slice() {
        return Ok(Parameter::Duration);
    }
    Err(Fault::Refused(Status::ParameterNotUnderstood))
}

/// The parameters that a body names, in order. More than 64 names, and a name that is not known,
/// are refused.
pub fn parameters_in(alloc: Global, body: &[u8]) -> Result<Vec<Parameter>, Fault>
    ensures { GivesBy (λ v. v.items) result (parameters_in 64 body.now) }
{
    let mut found = Vec::new(alloc);
    let mut rest = body;
    for count in 0..NAME_LIMIT {
        if rest.is_empty() {
            return Ok(found);
        }
        let (line, more) = first_line(rest);
        found.push(parameter_of(line)?)?;
        rest = more;
        let _ = count;
    }
    if rest.is_empty() {
        Ok(found)
    } else {
        Err(Fault::Refused(Status::ParameterNotUnderstood))
    }
}

/// Whether the position is asked for, which is refused as 454 without a living session.
pub fn has_position(names: &[Parameter]) -> bool
    ensures { result ≡ list_any is_position names.now }
{
    names.iter().any(|name| matches!(name, Parameter::Position))
}

#[tactic(auto, unfolding(crate::specs::GetParameter::parameter_line))]
fn put_parameter(
    out: &mut Vec<u8>,
    timing: &Timing,
    at: u32,
    name: Parameter,
) -> Result<(), AllocError>
    ensures { OnOk result (out.new.items ≡ out.old.items ++ parameter_line timing.now at name) }
{
    let unit_ms = timing.unit_ms;
    match name {
        Parameter::Position => {
            out.extend_from_slice(text_of(Word::PositionIs))?;
            write_time(out, at, unit_ms)?;
        }
        Parameter::Duration => {
            out.extend_from_slice(text_of(Word::DurationIs))?;
            write_time(out, timing.units, unit_ms)?;
        }
    }
    out.extend_from_slice(text_of(Word::LineEnd))
}

/// The body that answers: a line for each name, with its value.
pub fn parameters_body(
    alloc: Global,
    timing: Timing,
    at: u32,
    names: &[Parameter],
) -> Result<Vec<u8>, AllocError>
    ensures { IfOk result (λ v. v.items ≡ parameters_body timing at names.now) }
{
    let mut body = Vec::new(alloc);
    body.reserve(LINE_ROOM.saturating_mul(names.len()))?;
    for name in names {
        put_parameter(&mut body, &timing, at, *name)?;
    }
    Ok(body)
}
