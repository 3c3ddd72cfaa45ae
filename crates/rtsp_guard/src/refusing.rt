//! Answers a request that isn't let through at a gate.

ghost use Rattle.std.specs.Prelude.{◌≡◌, ◌++◌, ◌∷◌, [], None, IfOk, OnOk, OnErr};
ghost use Rattle.rtsp_grammar.specs.Writing.{response_text};
ghost use Rattle.rtsp_credentials.specs.Challenge.{challenge_text};
ghost use Rattle.rtsp_engine.specs.Served.{Puts};
ghost use Rattle.rtsp_guard.specs.Refusing.{is_malformed, number_line, challenge_line, challenge_lines, unauthorized, bad_request, numbered, refusal_text};

use itoa::Buffer;
use rtsp_credentials::{Algorithm, Gate, Offer, Refusal, Users, write_challenge};
use rtsp_grammar::{HeadersBuilder, Request, Response, Text, Version};
use rtsp_state::{Fault, Reply, ResponseStart, Room, Status, cseq_of};
use std::alloc::{AllocError, Global};

fn is_malformed(refusal: Refusal) -> bool
    ensures { result ≡ is_malformed refusal }
{
    match refusal {
        Refusal::Repeated | Refusal::Malformed | Refusal::OtherUri => true,
        _ => false,
    }
}

fn push_cseq(headers: &mut HeadersBuilder, cseq: u32) -> Result<(), AllocError>
    ensures { OnOk result (headers.new.headers ≡ headers.old.headers ++ number_line cseq ∷ []) }
{
    let mut buffer = Buffer::new();
    headers.push(b"CSeq", buffer.format(cseq).as_bytes())
}

// The value of a WWW-Authenticate header.
fn challenge(
    alloc: Global,
    users: &Users,
    gate: &Gate,
    refusal: Refusal,
    algorithm: Algorithm,
) -> Result<Vec<u8>, AllocError>
    ensures { IfOk result (λ value. value.items ≡ challenge_text users.now.realm gate.now algorithm refusal) }
{
    let mut value = Vec::new(alloc);
    write_challenge(&mut value, users.realm.as_bytes(), gate, algorithm, refusal)?;
    Ok(value)
}

fn push_challenge(
    alloc: Global,
    headers: &mut HeadersBuilder,
    users: &Users,
    gate: &Gate,
    refusal: Refusal,
    algorithm: Algorithm,
) -> Result<(), AllocError>
    ensures { OnOk result (headers.new.headers ≡ headers.old.headers ++ challenge_line users.now gate.now refusal algorithm ∷ []) }
{
    let value = challenge(alloc, users, gate, refusal, algorithm)?;
    headers.push(b"WWW-Authenticate", value.as_slice())
}

fn push_challenges(
    alloc: Global,
    headers: &mut HeadersBuilder,
    users: &Users,
    gate: &Gate,
    refusal: Refusal,
) -> Result<(), AllocError>
    ensures { OnOk result (headers.new.headers ≡ headers.old.headers ++ challenge_lines users.now gate.now refusal) }
{
    match users.offer {
        Offer::Md5 => push_challenge(alloc, headers, users, gate, refusal, Algorithm::Md5),
        Offer::Sha256 => push_challenge(alloc, headers, users, gate, refusal, Algorithm::Sha256),
        Offer::Both => {
            push_challenge(alloc, headers, users, gate, refusal, Algorithm::Sha256)?;
            push_challenge(alloc, headers, users, gate, refusal, Algorithm::Md5)
        }
    }
}

// 401.
fn unauthorized(
    alloc: Global,
    users: &Users,
    gate: &Gate,
    refusal: Refusal,
    cseq: u32,
) -> Result<Response, AllocError>
    ensures { IfOk result (λ r. r ≡ unauthorized users.now gate.now refusal cseq) }
{
    let mut headers = HeadersBuilder::new(alloc);
    push_cseq(&mut headers, cseq)?;
    push_challenges(alloc, &mut headers, users, gate, refusal)?;
    Ok(Response {
        version: Version::Rtsp2,
        status: 401,
        reason: Text::fixed(b"Unauthorized"),
        headers: headers.into_headers(),
        body: Text::fixed(b""),
    })
}

fn put_reply(room: &mut Room, reply: &Reply) -> Result<(), AllocError>
    ensures ok { OnOk result (room.new.text ≡ room.old.text ++ response_text reply.now) }
    ensures mute { OnErr result (room.new.text ≡ room.old.text) }
{
    reply.make_room(room)?;
    reply.answer(room);
    Ok(())
}

// 400 of this number.
fn bad_request(cseq: u32) -> Reply
    ensures { result ≡ bad_request cseq }
{
    let start = ResponseStart {
        cseq,
        session: None,
    };
    Reply::refused(start, Fault::Refused(Status::BadRequest))
}

fn put_numbered(
    alloc: Global,
    users: &Users,
    gate: &Gate,
    refusal: Refusal,
    cseq: u32,
    room: &mut Room,
) -> Result<(), AllocError>
    ensures ok { OnOk result (room.new.text ≡ room.old.text ++ response_text (numbered users.now gate.now refusal cseq)) }
    ensures mute { OnErr result (room.new.text ≡ room.old.text) }
{
    if is_malformed(refusal) {
        return put_reply(room, &bad_request(cseq));
    }
    let response = unauthorized(alloc, users, gate, refusal, cseq)?;
    room.append(&response)
}

// The response to a request that isn't let through.
fn put_refusal(
    alloc: Global,
    users: &Users,
    gate: &Gate,
    refusal: Refusal,
    request: &Request,
    room: &mut Room,
) -> Result<(), AllocError>
    ensures ok { OnOk result (room.new.text ≡ room.old.text ++ refusal_text users.now gate.now refusal request.now) }
    ensures mute { OnErr result (room.new.text ≡ room.old.text) }
{
    match cseq_of(&request.headers) {
        Ok(cseq) => put_numbered(alloc, users, gate, refusal, cseq, room),
        Err(_) => put_reply(room, &Reply::unnumbered()),
    }
}

/// Answers a request that isn't let through: who asks is told what to prove, or that the request is
/// malformed.
#[tactic(auto, using(crate::proofs::Putting::puts))]
pub(crate) fn refuse(
    alloc: Global,
    users: &Users,
    gate: &Gate,
    refusal: Refusal,
    request: &Request,
    room: &mut Room,
) -> Result<(), AllocError>
    ensures ok { OnOk result (Puts (λ bytes. bytes ≡ refusal_text users.now gate.now refusal request.now) room.old.text room.new.text) }
    ensures mute { OnErr result (room.new.text ≡ room.old.text) }
{
    put_refusal(alloc, users, gate, refusal, request, room)
}
