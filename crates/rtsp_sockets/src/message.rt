//! What is put into an outlet, and how much of it may wait.

ghost use Rattle.std.specs.Prelude.{◌≡◌};
ghost use Rattle.rtsp_sockets.specs.Rooms.{room_of};

/// The most bytes that wait once a frame waits too, beside those that are lent: 64 KiB. Then a player
/// that reads slowly loses frames, and still gets its responses.
pub const FRAME_ROOM: usize = 64 * 1024;

/// The most bytes that wait to be written to a connection, beside those that are lent: 256 KiB.
pub const ALL_ROOM: usize = 256 * 1024;

/// What is put into the outlet of a connection.
#[derive(Clone, Copy, PartialEq, Eq)]
pub enum Message {
    /// Responses, or a request of the server, each whole.
    Response,
    /// An interleaved frame (RFC 7826 section 14), whole.
    Frame,
}

impl Message {
    /// How many bytes may wait once it waits too, beside those that are lent.
    pub fn room(self) -> usize
        ensures { result ≡ room_of self }
    {
        match self {
            Message::Response => ALL_ROOM,
            Message::Frame => FRAME_ROOM,
        }
    }
}
