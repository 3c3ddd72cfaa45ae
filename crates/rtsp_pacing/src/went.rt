//! What comes of a packet.

use rtsp_log::DropCause;

// What came of a packet that was to be sent.
#[derive(Clone, Copy, PartialEq, Eq)]
pub(crate) enum Went {
    // It was sent, or waits.
    Sent,
    // It is lost: there is no way for it, or its way takes no more.
    Lost,
    // It is a frame that was dropped, since there was no room for it.
    Dropped(DropCause),
}
