//! How a program ends.

ghost use Rattle.std.specs.Prelude.{◌≡◌};
ghost use Rattle.rtsp_command_line.specs.Exits.{status_of};

use thiserror::Error;

/// How a program ended: its exit status, and by `Display` its line on standard error, which is
/// empty where all went well.
#[derive(Clone, Copy, Debug, PartialEq, Eq, Error)]
pub enum Exit {
    /// All was done.
    #[error("")]
    Done,
    /// The words after the program's name aren't a command line.
    #[error("rtspd: bad command line")]
    BadCommandLine,
    /// The configuration is refused.
    #[error("rtspd: bad configuration")]
    BadConfiguration,
    /// The journal's entry of this number, counted from 1, can't be read.
    #[error("rtspd: entry {0}: not a record")]
    NotARecord(u64),
    /// The journal's entry of this number, counted from 1, doesn't follow from those before it.
    #[error("rtspd: entry {0}: not allowed")]
    NotAllowed(u64),
    /// The journal has more lines than are read, or more entries than its limit allows.
    #[error("rtspd: journal too long")]
    JournalTooLong,
    /// The limit of descriptors is below what is wanted at least, which is so many for pairs of ports,
    /// so many for files, lanes and listeners, and one for a connection.
    #[error("rtspd: {wanted} descriptors are wanted at least, {ports} for pairs of ports, {others} for files, lanes and listeners, and 1 for a connection; the limit is {limit}")]
    FewDescriptors {
        wanted: u64,
        ports: u64,
        others: u64,
        limit: u64,
    },
    /// A disk held up a write to the journal's file of this number, which was left behind when the server
    /// stopped: so many entries that it was handed may not be there.
    #[error("rtspd: a disk holds up journal-{file:06}.txt, which was left behind: {entries} entries that it was handed may not be there, and none that came later is")]
    JournalLeft {
        file: u64,
        entries: u64,
    },
    /// A file, a socket or a standard stream couldn't be read or written.
    #[error("rtspd: read or write failed")]
    DeviceFailed,
    /// The connection ended with a message that can't be read.
    #[error("rtspd: bad message")]
    BadMessage,
    /// Memory ran out.
    #[error("rtspd: out of memory")]
    OutOfMemory,
}

impl Exit {
    /// The status that the process ends with.
    pub fn status(&self) -> u8
        ensures { result ≡ status_of self.now }
    {
        match self {
            Exit::Done => 0,
            Exit::BadCommandLine | Exit::BadConfiguration => 1,
            Exit::NotARecord(_) => 2,
            Exit::NotAllowed(_) | Exit::JournalTooLong => 3,
            Exit::FewDescriptors { .. } | Exit::JournalLeft { .. } | Exit::DeviceFailed => 4,
            Exit::BadMessage => 5,
            Exit::OutOfMemory => 6,
        }
    }
}
