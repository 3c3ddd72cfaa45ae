//! Values of a request's headers, as the lower crates read them.

ghost use Rattle.std.specs.Prelude.{◌≡◌, ◌++◌, IfOk, OnOk, option_map};
ghost use Rattle.std.specs.Cow.{cow_slice_items};
ghost use Rattle.rtsp_grammar.specs.Header.{values_of};
ghost use Rattle.rtsp_text.specs.Decimal.{number_of};
ghost use Rattle.rtsp_text.specs.Slices.{texts};
ghost use Rattle.rtsp_state.specs.Fault.{GivesBy, IsBy};
ghost use Rattle.rtsp_state.specs.Values.{single_value, joined, joined_in, id_of, session_name, fault_of, specs_in, tags_in, unknown_tags};

use crate::fault::Fault;
use crate::status::Status;
use rtsp_grammar::{Headers, Repeated};
use rtsp_transport::{
    Spec, TextFault, is_known, read_cseq, read_session, read_startup, read_tags, read_transports,
    session_id,
};
use std::alloc::{AllocError, Global};
use std::borrow::CowSlice;

/// The value of a header that may be given once at most; more of them are refused as 400.
pub fn single_value<'a>(headers: &'a Headers, name: &[u8]) -> Result<Option<&'a [u8]>, Fault>
    ensures { IsBy (option_map (λ v. v.now)) result (single_value name.now headers.now) }
{
    match headers.only_value(name) {
        Ok(found) => Ok(found),
        Err(Repeated) => Err(Fault::Refused(Status::BadRequest)),
    }
}

/// Writes texts one after another, with a comma and a space between them.
pub fn put_joined(out: &mut Vec<u8>, parts: &[&[u8]]) -> Result<(), AllocError>
    ensures { OnOk result (out.new.items ≡ out.old.items ++ joined (texts parts.now)) }
{
    let Some((first, others)) = parts.split_first() else {
        return Ok(());
    };
    out.extend_from_slice(first)?;
    for part in others {
        out.extend_from_slice(b", ")?;
        out.extend_from_slice(part)?;
    }
    Ok(())
}

// The values of the headers of a name.
fn values_of<'a>(
    alloc: Global,
    headers: &'a Headers,
    name: &[u8],
) -> Result<Vec<&'a [u8]>, AllocError>
    ensures { IfOk result (λ v. texts v.items ≡ values_of name.now headers.now) }
{
    let mut values = Vec::new(alloc);
    for index in 0..headers.count_of(name) {
        if let Some(value) = headers.nth_value(name, index) {
            values.push(value)?;
        }
    }
    Ok(values)
}

// The values of several headers of a name, joined into one.
fn several_joined(alloc: Global, headers: &Headers, name: &[u8]) -> Result<Vec<u8>, AllocError>
    ensures { IfOk result (λ v. v.items ≡ joined (values_of name.now headers.now)) }
{
    let values = values_of(alloc, headers, name)?;
    let mut joined = Vec::new(alloc);
    put_joined(&mut joined, &values)?;
    Ok(joined)
}

/// The values of the headers of a name, joined into one. A single one is lent.
pub fn joined_in<'a>(
    alloc: Global,
    headers: &'a Headers,
    name: &[u8],
) -> Result<Option<CowSlice<'a, u8>>, AllocError>
    ensures { IfOk result (λ o. option_map (λ v. cow_slice_items v) o ≡ joined_in name.now headers.now) }
{
    match headers.only_value(name) {
        Ok(None) => Ok(None),
        Ok(Some(value)) => Ok(Some(CowSlice::Borrowed(value))),
        Err(Repeated) => Ok(Some(CowSlice::Owned(several_joined(alloc, headers, name)?))),
    }
}

/// The number of a CSeq header.
pub fn cseq_number(value: &[u8]) -> Option<u32>
    ensures { result ≡ number_of 9 value.now }
{
    match read_cseq(value) {
        Ok(number) => Some(number),
        Err(_) => None,
    }
}

/// The number of a Pipelined-Requests header.
pub fn startup_number(value: &[u8]) -> Option<u32>
    ensures { result ≡ number_of 8 value.now }
{
    match read_startup(value) {
        Ok(number) => Some(number),
        Err(_) => None,
    }
}

/// The name in a Session header; none where it is malformed.
pub fn session_name(value: &[u8]) -> Option<&[u8]>
    ensures { option_map (λ v. v.now) result ≡ session_name value.now }
{
    match read_session(value) {
        Ok(name) => Some(name),
        Err(_) => None,
    }
}

fn fault_of(fault: TextFault) -> Fault
    ensures { result ≡ fault_of fault }
{
    match fault {
        TextFault::Malformed => Fault::Refused(Status::BadRequest),
        TextFault::OutOfMemory => Fault::OutOfMemory,
    }
}

/// The specifications of a Transport header.
pub fn specs_in(alloc: Global, value: &[u8]) -> Result<Vec<Spec>, Fault>
    ensures { GivesBy (λ v. v.items) result (specs_in value.now) }
{
    match read_transports(alloc, value) {
        Ok(specs) => Ok(specs),
        Err(fault) => Err(fault_of(fault)),
    }
}

/// The option tags of a Require header.
pub fn tags_in(alloc: Global, value: &[u8]) -> Result<Vec<rtsp_transport::Text>, Fault>
    ensures { GivesBy (λ v. v.items) result (tags_in value.now) }
{
    match read_tags(alloc, value) {
        Ok(tags) => Ok(tags),
        Err(fault) => Err(fault_of(fault)),
    }
}

/// The option tags that are not known.
pub fn unknown_tags(alloc: Global, tags: &[rtsp_transport::Text]) -> Result<Vec<&[u8]>, AllocError>
    ensures { IfOk result (λ v. texts v.items ≡ unknown_tags tags.entry.now) }
{
    let mut unknown = Vec::new(alloc);
    for tag in tags {
        if !is_known(tag.as_bytes()) {
            unknown.push(tag.as_bytes())?;
        }
    }
    Ok(unknown)
}

/// The session id that a name spells.
pub fn id_of(name: &[u8]) -> Option<u128>
    ensures { result ≡ id_of name.now }
{
    session_id(name)
}
