//! What is answered before a session is looked up, and what is handed on.

ghost use Rattle.std.specs.Prelude.{◌≡◌, IfOk};
ghost use Rattle.rtsp_state.specs.Screen.{parsed, screen};

use crate::fault::Fault;
use crate::order_of_refusals::{Asked, asked_of, cseq_of};
use crate::reply::Reply;
use crate::request::{ParsedRequest, Screen};
use crate::response_start::ResponseStart;
use rtsp_content::Table;
use rtsp_grammar::Request;
use std::alloc::{AllocError, Global};

// What is handed on of a request that is decided.
fn parsed<'a>(cseq: u32, asked: Asked<'a>, request: &'a Request) -> ParsedRequest<'a>
    ensures { result ≡ parsed cseq asked.entry request.now }
{
    let Asked {
        method,
        target,
        name,
    } = asked;
    ParsedRequest {
        cseq,
        method,
        target,
        name,
        headers: &request.headers,
        body: request.body.as_bytes(),
    }
}

/// Reads a request, once: its response where one of the places of the order of refusals that need
/// no session refuses it, or what it asks. In order: CSeq (400, which shows none), version (505),
/// method (501), Require (400, 551), URI (400, 404), and the form of the session's name (400, 454).
#[tactic(auto, unfolding(crate::specs::Screen::screen))]
pub fn screen<'a>(
    alloc: Global,
    request: &'a Request,
    table: &Table,
) -> Result<Screen<'a>, AllocError>
    ensures { IfOk result (λ s. s ≡ screen table.now request.now) }
{
    let cseq = match cseq_of(&request.headers) {
        Ok(cseq) => cseq,
        Err(_) => return Ok(Screen::Answered(Reply::unnumbered())),
    };
    match asked_of(alloc, table, request) {
        Ok(asked) => Ok(Screen::Asks(parsed(cseq, asked, request))),
        Err(Fault::OutOfMemory) => Err(AllocError),
        Err(fault) => {
            let start = ResponseStart {
                cseq,
                session: None,
            };
            Ok(Screen::Answered(Reply::refused(start, fault)))
        }
    }
}
