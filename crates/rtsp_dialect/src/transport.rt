//! The text of a Transport header.

ghost use Rattle.std.specs.Prelude.{◌≡◌, ◌++◌, true, map, codes, OnOk, IfOk};
ghost use Rattle.rtsp_text.specs.Slices.{held};
ghost use Rattle.rtsp_transport.specs.Split.{parts_left};
ghost use Rattle.rtsp_dialect.specs.ClientPort.{has_ports_alone, addresses_text};
ghost use Rattle.rtsp_dialect.specs.ClientPortText.{parameter_in, is_old_text, has_old};
ghost use Rattle.rtsp_dialect.specs.ClientPortText.{repaired_part, repaired_spec_text, repaired_transport};
ghost use Rattle.rtsp_dialect.specs.PartText.{behind};

use crate::client_port::PartParameter;
use rtsp_text::trimmed;
use rtsp_transport::{first_part, is_udp};
use std::alloc::{AllocError, Global};

// Whether the client's ports are named once among the parameters, as two, and no address is.
#[tactic(auto, using(crate::proofs::Alone::meets_unclear, crate::proofs::Alone::meets_other, crate::proofs::Alone::meets_again, crate::proofs::Alone::meets_first, rtsp_transport::proofs::EachPart::left_shorter))]
fn has_ports_alone(parameters: Option<&[u8]>) -> bool
    ensures { result ≡ has_ports_alone (map parameter_in (parts_left 59 (held parameters.entry))) }
{
    let mut found = false;
    let mut left = parameters;
    'parameters: while let Some(text) = left {
        let (part, behind) = first_part(text, b';');
        let parameter = PartParameter::read(part);
        if parameter.is_unclear() {
            return false;
        }
        if parameter.client_ports().is_some() {
            if found {
                return false;
            }
            found = true;
        }
        left = behind;
    }
    found
}

// Whether a specification names the client's ports as RTSP 1.0 does.
fn is_old_text(text: &[u8]) -> bool
    ensures { result ≡ is_old_text text.now }
{
    let (protocol, parameters) = first_part(text, b';');
    is_udp(trimmed(protocol)) && has_ports_alone(parameters)
}

/// Whether one of the specifications names the client's ports as RTSP 1.0 does.
#[tactic(auto, using(crate::proofs::LeftParts::any_here, crate::proofs::LeftParts::any_behind, rtsp_transport::proofs::EachPart::left_shorter), unfolding(crate::specs::ClientPortText::has_old))]
pub fn has_old(value: &[u8]) -> bool
    ensures { result ≡ has_old value.now }
{
    let mut left = Some(value);
    'specifications: while let Some(text) = left {
        let (part, behind) = first_part(text, b',');
        if is_old_text(part) {
            return true;
        }
        left = behind;
    }
    false
}

// Writes the address that has these two ports.
fn write_address(out: &mut Vec<u8>, rtp: &[u8], rtcp: &[u8]) -> Result<(), AllocError>
    ensures { OnOk result (out.new.items ≡ out.old.items ++ (codes "dest_addr=" ++ addresses_text (rtp.now, rtcp.now))) }
{
    out.extend_from_slice(b"dest_addr=\":")?;
    out.extend_from_slice(rtp)?;
    out.extend_from_slice(b"\"/\":")?;
    out.extend_from_slice(rtcp)?;
    out.extend_from_slice(b"\"")
}

// Writes a part, or the address in its place.
#[tactic(auto, unfolding(crate::specs::ClientPortText::repaired_part))]
fn write_part(out: &mut Vec<u8>, part: &[u8]) -> Result<(), AllocError>
    ensures { OnOk result (out.new.items ≡ out.old.items ++ repaired_part part.now) }
{
    match PartParameter::read(part).client_ports() {
        Some((rtp, rtcp)) => write_address(out, rtp, rtcp),
        None => out.extend_from_slice(part),
    }
}

// Writes the parameters behind a protocol, each with a semicolon before it.
#[tactic(auto, using(crate::proofs::LeftParts::written_more, rtsp_transport::proofs::EachPart::left_shorter))]
fn write_parameters(out: &mut Vec<u8>, parameters: Option<&[u8]>) -> Result<(), AllocError>
    ensures { OnOk result (out.new.items ≡ out.old.items ++ behind 59 (map repaired_part (parts_left 59 (held parameters.entry)))) }
{
    let mut left = parameters;
    'parameters: while let Some(text) = left {
        let (part, behind) = first_part(text, b';');
        out.push(b';')?;
        write_part(out, part)?;
        left = behind;
    }
    Ok(())
}

// Writes a specification in the terms of RTSP 2.0.
#[tactic(auto, using(crate::proofs::Rewritten::plain_spec))]
fn write_spec(out: &mut Vec<u8>, text: &[u8]) -> Result<(), AllocError>
    ensures { OnOk result (out.new.items ≡ out.old.items ++ repaired_spec_text text.now) }
{
    if !is_old_text(text) {
        return out.extend_from_slice(text);
    }
    let (protocol, parameters) = first_part(text, b';');
    out.extend_from_slice(protocol)?;
    write_parameters(out, parameters)
}

// Writes the specifications behind the first, each with a comma before it.
#[tactic(auto, using(crate::proofs::LeftParts::written_more, rtsp_transport::proofs::EachPart::left_shorter))]
fn write_others(out: &mut Vec<u8>, others: Option<&[u8]>) -> Result<(), AllocError>
    ensures { OnOk result (out.new.items ≡ out.old.items ++ behind 44 (map repaired_spec_text (parts_left 44 (held others.entry)))) }
{
    let mut left = others;
    'specifications: while let Some(text) = left {
        let (part, behind) = first_part(text, b',');
        out.push(b',')?;
        write_spec(out, part)?;
        left = behind;
    }
    Ok(())
}

/// The value with all ports in the terms of RTSP 2.0, where one isn't.
#[tactic(auto, using(crate::proofs::Rewritten::old_transport))]
pub fn repaired_transport(alloc: Global, value: &[u8]) -> Result<Vec<u8>, AllocError>
    requires { has_old value.now ≡ true }
    ensures { IfOk result (λ out. out.items ≡ repaired_transport value.now) }
{
    let mut out = Vec::new(alloc);
    let (first, others) = first_part(value, b',');
    write_spec(&mut out, first)?;
    write_others(&mut out, others)?;
    Ok(out)
}
