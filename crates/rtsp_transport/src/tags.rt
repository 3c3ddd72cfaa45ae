//! The option tags of a Require header.

ghost use Rattle.std.specs.Prelude.{◌≡◌, ℕ, List, IfOk, IfErr};
ghost use Rattle.rtsp_text.specs.Results.{Gives, GivesBy};
ghost use Rattle.rtsp_transport.specs.Reads.{Refuses, Answers};
ghost use Rattle.rtsp_transport.specs.Tags.{SpellsTags, is_known, tag_of, tags_of};
ghost use Rattle.rtsp_transport.specs.declared.fault.TextFault.TheVariants.{OutOfMemory};

use crate::fault::TextFault;
use crate::split::{first_part, is_closed};
use rtsp_text::{Text, is_token, trimmed};
use std::alloc::Global;

#[tactic(auto, unfolding(crate::specs::Tags::tag_of))]
fn tag_of(alloc: Global, part: &[u8]) -> Result<Text, TextFault>
    ensures { Gives OutOfMemory result (tag_of part.now) }
{
    let tag = trimmed(part);
    if !is_token(tag) {
        return Err(TextFault::Malformed);
    }
    Ok(Text::from_slice(alloc, tag)?)
}

#[tactic(auto, using(crate::proofs::EachPart::reads_all, crate::proofs::EachPart::reads_more, crate::proofs::EachPart::reads_done, crate::proofs::EachPart::left_shorter), unfolding(crate::specs::Tags::tags_of))]
fn tags_of(alloc: Global, text: &[u8]) -> Result<Vec<Text>, TextFault>
    ensures { GivesBy OutOfMemory (λ v. v.items) result (tags_of text.now) }
{
    // A tag has no quote, so an open one is a malformed tag.
    if !is_closed(text) {
        return Err(TextFault::Malformed);
    }
    let mut tags = Vec::new(alloc);
    let mut left = Some(text);
    'parts: while let Some(parts) = left {
        let (part, rest) = first_part(parts, b',');
        tags.push(tag_of(alloc, part)?)?;
        left = rest;
    }
    Ok(tags)
}

/// Reads the option tags of a Require header: tokens with commas between them. Several such headers
/// are one, joined by commas (RFC 7826 section 18.43).
pub fn read_tags(alloc: Global, text: &[u8]) -> Result<Vec<Text>, TextFault>
    // What is read is spelled so.
    ensures found { IfOk result (λ v. SpellsTags text.now v.items) }
    // What is spelled so is read, unless memory runs out.
    ensures only { (tags : List (List ℕ)) → SpellsTags text.now tags
        → Answers (λ v. v.items) result tags }
    // Which fault it is.
    ensures fault { IfErr result (Refuses (SpellsTags text.now)) }
{
    tags_of(alloc, text)
}

/// Whether the tag names something that this server can do. Tags are compared with regard to case.
pub fn is_known(tag: &[u8]) -> bool
    ensures { result ≡ is_known tag.now }
{
    tag == b"play.basic".as_slice() || tag == b"setup.rtp.rtcp.mux".as_slice()
}
