//! Presentations that are there for some users alone.

use crate::desk::Desk;
use rtsp_content::Allowed;
use rtsp_grammar::Request;
use rtsp_state::presentation_asked;
use std::alloc::{AllocError, Global};
use std::sync::Arc;

/// For whom presentations are there, for all contents that go on by it.
pub(crate) fn share_allowed(
    alloc: Global,
    allowed: Option<Allowed>,
) -> Result<Option<Arc<Allowed>>, AllocError> {
    let Some(allowed) = allowed else {
        return Ok(None);
    };
    match Arc::new(alloc, allowed) {
        Ok(allowed) => Ok(Some(allowed)),
        Err(_) => Err(AllocError),
    }
}

// Whether a request names a session.
fn names_session(request: &Request) -> bool {
    request.headers.count_of(b"Session") > 0
}

/// Whether what a request is about is there for this user, as far as it is served. What is withdrawn is
/// there for those alone who have a session of it.
pub(crate) fn is_there<R>(
    desk: &Desk<'_, R>,
    allowed: &Allowed,
    request: &Request,
    user: &[u8],
) -> Result<bool, AllocError> {
    let table = desk.table;
    let Some(place) = presentation_asked(desk.alloc, table, request)? else {
        return Ok(true);
    };
    let Some(presentation) = table.presentation(place) else {
        return Ok(true);
    };
    let is_offered = !table.is_withdrawn(place) || names_session(request);
    Ok(is_offered && allowed.lets(presentation.name().as_bytes(), user))
}
