//! The value of a Transport header: its specifications, and the first that can be served.

ghost use Rattle.std.specs.Prelude.{List, IfOk, IfErr};
ghost use Rattle.rtsp_text.specs.Results.{GivesBy};
ghost use Rattle.rtsp_transport.specs.Picking.{Picks};
ghost use Rattle.rtsp_transport.specs.Reads.{Refuses, Answers};
ghost use Rattle.rtsp_transport.specs.Transport.{SpellsTransport};
ghost use Rattle.rtsp_transport.specs.TransportReading.{transports_of};
ghost use Rattle.rtsp_transport.specs.declared.fault.TextFault.TheVariants.{OutOfMemory};
ghost use Rattle.rtsp_transport.specs.declared.spec.Spec.{Spec};

use crate::fault::TextFault;
use crate::picks::Pick;
use crate::spec::Spec;
use crate::split::{first_part, is_closed};
use std::alloc::Global;

// The most specifications of a header.
const SPEC_LIMIT: usize = 16;

#[tactic(auto, using(crate::proofs::EachPart::reads_all, crate::proofs::EachPart::reads_more, crate::proofs::EachPart::left_shorter), unfolding(crate::specs::TransportReading::transports_of))]
fn transports_of(alloc: Global, text: &[u8]) -> Result<Vec<Spec>, TextFault>
    ensures { GivesBy OutOfMemory (λ v. v.items) result (transports_of text.now) }
{
    if !is_closed(text) {
        return Err(TextFault::Malformed);
    }
    let mut specs = Vec::new(alloc);
    let mut left = Some(text);
    'parts: while let Some(parts) = left {
        let (part, rest) = first_part(parts, b',');
        if specs.len() == SPEC_LIMIT {
            return Err(TextFault::Malformed);
        }
        specs.push(Spec::read(alloc, part)?)?;
        left = rest;
    }
    Ok(specs)
}

/// Reads the value of a Transport header: 1 to 16 specifications (RFC 7826 section 18.54). Several
/// such headers are one, joined by commas.
pub fn read_transports(alloc: Global, text: &[u8]) -> Result<Vec<Spec>, TextFault>
    // What is read is spelled so.
    ensures found { IfOk result (λ v. SpellsTransport text.now v.items) }
    // What is spelled so is read, unless memory runs out.
    ensures only { (specs : List Spec) → SpellsTransport text.now specs
        → Answers (λ v. v.items) result specs }
    // Which fault it is.
    ensures fault { IfErr result (Refuses (SpellsTransport text.now)) }
{
    transports_of(alloc, text)
}

/// What the first specification that can be served comes to. Where there is none, `Prohibited` if
/// one fails only because a host of it isn't the peer's, whose IPv4 address is given as a number,
/// and else `Unsupported`.
#[tactic(auto, using(crate::proofs::PickingLemmas::past_unsupported, crate::proofs::PickingLemmas::past_prohibited, crate::proofs::PickingLemmas::at_use, crate::proofs::PickingLemmas::at_end))]
pub fn pick(specs: &[Spec], peer: u32) -> Pick
    ensures { Picks peer specs.now result }
{
    let mut refusal = Pick::Unsupported;
    for spec in specs {
        match spec.fit(peer) {
            Pick::Unsupported => {}
            Pick::Prohibited => refusal = Pick::Prohibited,
            usable => return usable,
        }
    }
    refusal
}
