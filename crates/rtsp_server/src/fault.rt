//! Why there is no server.

use rtsp_chronicle::SinkFault;
use rtsp_credentials::UsersFault;
use rtsp_sockets::MediaFault;
use std::alloc::AllocError;
use std::io;
use std::io::ErrorKind;
use thiserror::Error;

/// Why there is no server.
#[derive(Clone, Copy, Debug, PartialEq, Eq, Error)]
pub enum ServerFault {
    /// A track's file has a wrong length.
    #[error("a track's file has a wrong length")]
    WrongLength,
    /// The file of users can't be read as such.
    #[error("the file of users is wrong")]
    WrongUsers,
    /// The address can't be listened on, a file can't be read, or the system refuses something
    /// else that the server needs.
    #[error("the system refuses what the server needs")]
    DeviceFailed,
    /// The limit of descriptors is below what is wanted at least: so many for pairs of ports, so many
    /// for files, lanes and listeners, and one for a connection.
    #[error("{ports} and {others} descriptors are more than the limit of {limit} gives")]
    FewDescriptors { ports: u64, others: u64, limit: u64 },
    /// There is no thread for a lane, for a pacer or for the sweeper.
    #[error("no thread can be made")]
    NoThread,
    #[error("out of memory")]
    OutOfMemory,
}

impl From<AllocError> for ServerFault {
    fn from(_: AllocError) -> ServerFault {
        ServerFault::OutOfMemory
    }
}

impl From<io::Error> for ServerFault {
    fn from(fault: io::Error) -> ServerFault {
        match fault.kind() {
            ErrorKind::OutOfMemory => ServerFault::OutOfMemory,
            _ => ServerFault::DeviceFailed,
        }
    }
}

impl From<MediaFault> for ServerFault {
    fn from(fault: MediaFault) -> ServerFault {
        match fault {
            MediaFault::WrongLength => ServerFault::WrongLength,
            MediaFault::Unreadable | MediaFault::NoDescriptor | MediaFault::Changed => {
                ServerFault::DeviceFailed
            }
            MediaFault::OutOfMemory => ServerFault::OutOfMemory,
        }
    }
}

impl From<UsersFault> for ServerFault {
    fn from(fault: UsersFault) -> ServerFault {
        match fault {
            UsersFault::OutOfMemory => ServerFault::OutOfMemory,
            _ => ServerFault::WrongUsers,
        }
    }
}

impl From<SinkFault> for ServerFault {
    fn from(_: SinkFault) -> ServerFault {
        ServerFault::DeviceFailed
    }
}
