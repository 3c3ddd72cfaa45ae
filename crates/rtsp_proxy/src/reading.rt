//! Reading the header of a connection.

ghost use Rattle.std.specs.Prelude.{◌≡◌};
ghost use Rattle.rtsp_proxy.specs.Proxy.{proxy_of};

use crate::binary::read_binary;
use crate::front::{Front, begins};
use crate::line::read_line;
use crate::seen::{ProxyFault, Seen};

/// The most bytes that are needed to tell what a connection begins with.
pub const LONGEST: usize = 2_064;

/// Reads the header at the front of what has come of a connection.
#[tactic(auto, unfolding(crate::specs::Proxy::proxy_of))]
pub fn read_proxy(bytes: &[u8]) -> Seen
    ensures { result ≡ proxy_of bytes.now }
{
    match begins(b"PROXY ", bytes) {
        Front::Whole(rest) => return read_line(rest),
        Front::Part => return Seen::Undecided,
        Front::Other => {}
    }
    match begins(b"\r\n\r\n\0\r\nQUIT\n", bytes) {
        Front::Whole(rest) => read_binary(rest),
        Front::Part => Seen::Undecided,
        Front::Other => Seen::Refused(ProxyFault::NoHeader),
    }
}
