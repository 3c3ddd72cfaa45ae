//! A request about a presentation that isn't there for its user, as one about a name that nobody serves.

ghost use Rattle.std.specs.Prelude.{◌≡◌, ◌++◌, ◌∷◌, [], IfOk, OnOk};
ghost use Rattle.rtsp_grammar.specs.HeaderView.{shown};
ghost use Rattle.rtsp_guard.specs.Hiding.{hidden};

use crate::estranging::{copy_of, copy_of_method, copy_of_version};
use rtsp_grammar::{Header, Headers, HeadersBuilder, Request, Text};
use rtsp_state::nowhere;
use std::alloc::{AllocError, Global};

fn push_copy(built: &mut HeadersBuilder, header: &Header<'_>) -> Result<(), AllocError>
    ensures { OnOk result (built.new.headers ≡ built.old.headers ++ shown header.now ∷ []) }
{
    built.push(header.name, header.value)
}

fn copy_of_headers(alloc: Global, headers: &Headers) -> Result<Headers, AllocError>
    ensures { IfOk result (λ copy. copy ≡ headers.now) }
{
    let mut built = HeadersBuilder::new(alloc);
    for index in 0..headers.len() {
        push_copy(&mut built, &headers.get(index))?;
    }
    Ok(built.into_headers())
}

/// The request, about nothing in the place of what it is about.
pub(crate) fn hidden(alloc: Global, request: &Request) -> Result<Request, AllocError>
    ensures { IfOk result (λ r. r ≡ hidden request.now) }
{
    Ok(Request {
        method: copy_of_method(alloc, &request.method)?,
        uri: Text::fixed(nowhere()),
        version: copy_of_version(alloc, &request.version)?,
        headers: copy_of_headers(alloc, &request.headers)?,
        body: copy_of(alloc, &request.body)?,
    })
}
