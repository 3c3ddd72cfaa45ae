//! Which presentation a request is about, whatever else it asks; and a URI that is about none.

ghost use Rattle.std.specs.Prelude.{◌≡◌, IfOk};
ghost use Rattle.rtsp_state.specs.About.{place_in, presentation_asked, nowhere};

use crate::fault::Fault;
use crate::method::Method;
use crate::order_of_refusals::target_of;
use crate::request::Target;
use rtsp_content::Table;
use rtsp_grammar::Request;
use std::alloc::{AllocError, Global};

// The place of the presentation, where it is one, or a track of one.
fn place_in(target: &Target<'_>) -> Option<u16>
    ensures { result ≡ place_in target.now }
{
    match target {
        Target::Presentation(_, place) => Some(*place),
        Target::Track(_, place, _) => Some(*place),
        Target::Server | Target::Star => None,
    }
}

/// The place of the presentation that a request is about, as its URI is read for the answer. None where
/// it is about none that is served.
pub fn presentation_asked(
    alloc: Global,
    table: &Table,
    request: &Request,
) -> Result<Option<u16>, AllocError>
    ensures { IfOk result (λ place. place ≡ presentation_asked table.now request.now) }
{
    let Some(method) = Method::of(&request.method) else {
        return Ok(None);
    };
    match target_of(alloc, table, method, request.uri.as_bytes()) {
        Ok(target) => Ok(place_in(&target)),
        Err(Fault::OutOfMemory) => Err(AllocError),
        Err(Fault::Refused(_)) | Err(Fault::Unsupported(_)) => Ok(None),
    }
}

/// A URI that names nothing, whatever is served: it has no path.
pub fn nowhere() -> &'static [u8]
    ensures { result.now ≡ nowhere }
{
    b"rtsp://nowhere"
}
