//! How a server stands, for balancers.

use std::alloc::{AllocError, Global};

/// What HAProxy's agent-check is told.
#[derive(Clone, Copy, PartialEq, Eq)]
pub enum Agent {
    /// No new player is to come.
    Drain,
    /// This much of the uplink is free, in percent.
    Free(u8),
}

impl Agent {
    /// The line by which HAProxy sets the weight of the server. The word `ready` ends what an earlier
    /// `drain` began.
    pub fn line(self, alloc: Global) -> Result<Vec<u8>, AllocError> {
        let mut line = Vec::new(alloc);
        match self {
            Agent::Drain => line.extend_from_slice(b"drain\n")?,
            Agent::Free(percent) => {
                let text = format!(in alloc; "ready {percent}%\n")?;
                line.extend_from_slice(text.as_bytes())?;
            }
        }
        Ok(line)
    }
}

/// How a server stands.
#[derive(Clone, Copy, PartialEq, Eq)]
pub struct Standing {
    /// Whether players can be served: lanes stand, the journal isn't held up, and the server doesn't end.
    pub is_ready: bool,
    pub agent: Agent,
}
