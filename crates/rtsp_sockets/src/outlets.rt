//! The outlets of all connections.

use crate::outlet::Outlet;
use std::alloc::{AllocError, Global};
use std::collections::BTreeMap;
use std::sync::{Arc, Mutex, Wait};

/// The outlets of the connections that are open, by the number of the connection.
#[derive(Drop)]
pub struct Outlets {
    of: Mutex<BTreeMap<u64, Arc<Outlet>>>,
}

impl Outlets {
    /// No connection is open. It takes no memory.
    pub fn new(alloc: Global) -> Outlets {
        Outlets {
            of: Mutex::new(BTreeMap::new(alloc)),
        }
    }

    /// A connection was opened.
    pub fn insert<R: Wait>(
        &self,
        rt: &R,
        conn: u64,
        outlet: Arc<Outlet>,
    ) -> Result<(), AllocError> {
        let replaced = self.of.lock(rt).insert(conn, outlet)?;
        drop(replaced);
        Ok(())
    }

    /// A connection was closed.
    pub fn remove<R: Wait>(&self, rt: &R, conn: u64) {
        let removed = self.of.lock(rt).remove(&conn);
        drop(removed);
    }

    /// The outlet of a connection, while it is open.
    pub fn get<R: Wait>(&self, rt: &R, conn: u64) -> Option<Arc<Outlet>> {
        let of = self.of.lock(rt);
        Arc::try_clone(of.get(&conn)?).ok()
    }
}
