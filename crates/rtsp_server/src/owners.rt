//! Which user each session is of, where only users are let through.

use rtsp_grammar::{Headers, Text};
use rtsp_guard::NamedBy;
use rtsp_transport::{read_session, read_startup, session_id};
use std::alloc::{AllocError, Global};
use std::collections::BTreeMap;
use std::sync::{Mutex, Wait};

/// How a request names its session.
#[derive(Clone, Copy)]
pub(crate) enum Naming {
    Id(u128),
    /// By a connection's number of Pipelined-Requests.
    Startup(u64, u32),
}

impl Naming {
    /// As the desk reads it: Session goes before Pipelined-Requests. None where the desk refuses it.
    pub(crate) fn of(conn: u64, headers: &Headers) -> Option<Naming> {
        match headers.only_value(b"Session") {
            Ok(Some(value)) => {
                let name = read_session(value).ok()?;
                Some(Naming::Id(session_id(name)?))
            }
            Ok(None) => {
                let value = headers.only_value(b"Pipelined-Requests").ok()??;
                Some(Naming::Startup(conn, read_startup(value).ok()?))
            }
            Err(_) => None,
        }
    }

    /// The header that names it.
    pub(crate) fn header(self) -> NamedBy {
        match self {
            Naming::Id(_) => NamedBy::Session,
            Naming::Startup(..) => NamedBy::PipelinedRequests,
        }
    }
}

/// Who asks for a session, and by which number of his connection, if by one.
#[derive(Drop)]
pub(crate) struct Claim {
    user: Text,
    startup: Option<(u64, u32)>,
}

impl Claim {
    pub(crate) fn new(
        alloc: Global,
        user: &[u8],
        naming: Option<Naming>,
    ) -> Result<Claim, AllocError> {
        let startup = match naming {
            Some(Naming::Startup(conn, number)) => Some((conn, number)),
            Some(Naming::Id(_)) | None => None,
        };
        Ok(Claim {
            user: Text::from_slice(alloc, user)?,
            startup,
        })
    }
}

#[derive(Drop)]
struct Rows {
    // Who asks for a session, by the number of his connection, until the SETUP is answered.
    asked: BTreeMap<u64, Claim>,
    claims: BTreeMap<u128, Claim>,
    startups: BTreeMap<(u64, u32), u128>,
}

impl Rows {
    fn id_of(&self, naming: Naming) -> Option<u128> {
        match naming {
            Naming::Id(id) => Some(id),
            Naming::Startup(conn, number) => self.startups.get(&(conn, number)).copied(),
        }
    }

    fn user_of(&self, naming: Naming) -> Option<&[u8]> {
        let claim = self.claims.get(&self.id_of(naming)?)?;
        Some(claim.user.as_bytes())
    }

    fn note(&mut self, id: u128, claim: Claim) -> Result<(), AllocError> {
        if self.claims.contains_key(&id) {
            return Ok(());
        }
        let startup = claim.startup;
        self.claims.insert(id, claim)?;
        if let Some(startup) = startup {
            self.startups.insert(startup, id)?;
        }
        Ok(())
    }

    fn forget(&mut self, id: u128) {
        let Some(claim) = self.claims.remove(&id) else {
            return;
        };
        if let Some(startup) = claim.startup
            && self.startups.get(&startup).copied() == Some(id)
        {
            self.startups.remove(&startup);
        }
    }
}

/// Which user each session is of: who asked for it. One for which there was no memory here is of nobody until somebody sets up
/// a track in it.
#[derive(Drop)]
pub(crate) struct Owners {
    rows: Mutex<Rows>,
}

impl Owners {
    /// No session.
    pub(crate) fn new(alloc: Global) -> Owners {
        Owners {
            rows: Mutex::new(Rows {
                asked: BTreeMap::new(alloc),
                claims: BTreeMap::new(alloc),
                startups: BTreeMap::new(alloc),
            }),
        }
    }

    /// Whether the session of this name is of another user than this one.
    pub(crate) fn is_of_another<R: Wait>(&self, rt: &R, naming: Naming, user: &[u8]) -> bool {
        match self.rows.lock(rt).user_of(naming) {
            Some(owner) => owner != user,
            None => false,
        }
    }

    /// This one asks for a session over a connection.
    pub(crate) fn ask<R: Wait>(&self, rt: &R, conn: u64, claim: Claim) -> Result<(), AllocError> {
        self.rows.lock(rt).asked.insert(conn, claim)?;
        Ok(())
    }

    /// The SETUP that came last over a connection was answered: it has set up a track in the session of
    /// this id, or in none. Where its user is known, nothing is noted.
    pub(crate) fn answer<R: Wait>(&self, rt: &R, conn: u64, id: Option<u128>) {
        let mut rows = self.rows.lock(rt);
        let Some(claim) = rows.asked.remove(&conn) else {
            return;
        };
        if let Some(id) = id {
            let _noted = rows.note(id, claim);
        }
    }

    /// A connection is over. Where memory ran out over its last SETUP, nobody has told of an answer.
    pub(crate) fn leave<R: Wait>(&self, rt: &R, conn: u64) {
        drop(self.rows.lock(rt).asked.remove(&conn));
    }

    /// The session of this id has ended.
    pub(crate) fn forget<R: Wait>(&self, rt: &R, id: u128) {
        self.rows.lock(rt).forget(id);
    }
}
