//! The first row of a plain book that passes a test.

ghost use Rattle.std.specs.Prelude.{◌≡◌, take};
ghost use Rattle.std.specs.FinMap.{entries};
ghost use Rattle.rtsp_sessions.specs.Lookups.{first_from, numbers_above, unsettled_in, with_id_in, with_startup_in, expired_in, on_conn_in};

use super::rows::Rows;
use crate::numbers::{SessionNumbers, is_above};

impl Rows {
    /// The number of the first session not below `from`.
    pub(super) fn first_from(&self, from: u64) -> Option<u64>
        ensures { result ≡ first_from from (entries self.now) }
    {
        for row in self.views() {
            if from <= row.session() {
                return Some(row.session());
            }
        }
        None
    }

    /// The first numbers above this one, or of all, at most 256.
    pub(super) fn first_above(&self, above: Option<u64>, found: &mut SessionNumbers)
        ensures { found.new ≡ take 256 (numbers_above above (entries self.now)) }
    {
        let rows = self.views();
        found.clear();
        let mut left = rows.len();
        while left > 0 {
            left -= 1;
            let number = rows[left].session();
            if is_above(above, number) {
                found.insert(number);
            }
        }
    }

    /// The number of the first session of which a SETUP is under way.
    pub(super) fn unsettled(&self) -> Option<u64>
        ensures { result ≡ unsettled_in (entries self.now) }
    {
        for row in self.views() {
            if !row.is_settled() {
                return Some(row.session());
            }
        }
        None
    }

    /// The number of the first session with this id.
    pub(super) fn with_id(&self, id: u128) -> Option<u64>
        ensures { result ≡ with_id_in id (entries self.now) }
    {
        for row in self.views() {
            if row.id() == id {
                return Some(row.session());
            }
        }
        None
    }

    /// The number of the first session with this startup number of the connection.
    pub(super) fn with_startup(&self, conn: u64, number: u32) -> Option<u64>
        ensures { result ≡ with_startup_in conn number (entries self.now) }
    {
        for row in self.views() {
            if row.is_bound(conn, number) {
                return Some(row.session());
            }
        }
        None
    }

    /// The number of the first session whose expiry is at most `now`.
    pub(super) fn expired(&self, now: u64) -> Option<u64>
        ensures { result ≡ expired_in now (entries self.now) }
    {
        for row in self.views() {
            if row.expires() <= now {
                return Some(row.session());
            }
        }
        None
    }

    /// The number of the first session that holds a channel of the connection or has a binding of it.
    pub(super) fn on_conn(&self, conn: u64) -> Option<u64>
        ensures { result ≡ on_conn_in conn (entries self.now) }
    {
        for row in self.views() {
            if row.is_on(conn) {
                return Some(row.session());
            }
        }
        None
    }
}
