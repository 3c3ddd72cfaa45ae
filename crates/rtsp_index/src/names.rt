//! What living sessions are found by: ids, and startup numbers of connections.

ghost use Rattle.std.specs.Prelude.{◌≡◌, ◌+◌, ◌≤◌, IsOk, OnOk};
ghost use Rattle.std.specs.FinMap.{empty, entries};
ghost use Rattle.indexmap.specs.IndexMap.{spare};
ghost use Rattle.rtsp_record.specs.Books.{Book, after};
ghost use Rattle.rtsp_record.specs.Sums.{one_if};
ghost use Rattle.rtsp_record.specs.declared.holdings.Whole.{Whole};
ghost use Rattle.rtsp_sessions.specs.Lookups.{with_id_in, with_startup_in};
ghost use Rattle.rtsp_sessions.specs.Plain.{is_open};
ghost use Rattle.rtsp_index.specs.Following.{Follows, is_bind};

use indexmap::IndexMap;
use rtsp_record::Record;
use std::alloc::{AllocError, Global};

/// What living sessions are found by. Each id and each startup number of a connection finds the
/// number of the session that has it.
#[derive(Drop)]
pub(crate) struct Names {
    ids: IndexMap<u128, u64>,
    startups: IndexMap<(u64, u32), u64>,
}

impl Names {
    ghost use Rattle.rtsp_index.specs.Named.{AreNamesOf};

    /// No names.
    pub(crate) fn new(alloc: Global) -> Self
        ensures { AreNamesOf empty result }
    {
        Names {
            ids: IndexMap::new(alloc),
            startups: IndexMap::new(alloc),
        }
    }

    /// Takes memory for so many more ids and startup numbers.
    pub(crate) fn reserve(&mut self, ids: usize, startups: usize) -> Result<(), AllocError>
        ensures same { (b : Book) → AreNamesOf b self.old → AreNamesOf b self.new }
        ensures ids { OnOk result (ids ≤ spare self.new.ids) }
        ensures startups { OnOk result (startups ≤ spare self.new.startups) }
        ensures succeeds { ids ≡ 0 → startups ≡ 0 → IsOk result }
    {
        self.ids.reserve(ids)?;
        self.startups.reserve(startups)
    }

    /// Names what the record names, or takes the name away.
    pub(crate) fn follow(&mut self, change: &Record)
        requires ids { one_if (is_open change.now) ≤ spare self.old.ids }
        requires startups { one_if (is_bind change.now) ≤ spare self.old.startups }
        ensures follows { (w : Whole) (b : Book) → Follows w b change.now → AreNamesOf b self.old → AreNamesOf (after b change.now) self.new }
        ensures ids { spare self.old.ids ≤ spare self.new.ids + one_if (is_open change.now) }
        ensures startups { spare self.old.startups ≤ spare self.new.startups + one_if (is_bind change.now) }
    {
        match *change {
            Record::Open(life) => match self.ids.insert(life.id.number(), life.session) {
                Ok(_) => {}
                Err(_) => unreachable!(),
            },
            Record::Close(life) => {
                self.ids.swap_remove(&life.id.number());
            }
            Record::Bind(binding) => {
                match self
                    .startups
                    .insert((binding.conn, binding.number), binding.session)
                {
                    Ok(_) => {}
                    Err(_) => unreachable!(),
                }
            }
            Record::Unbind(binding) => {
                self.startups.swap_remove(&(binding.conn, binding.number));
            }
            _ => {}
        }
    }

    /// The number of the living session with this id.
    pub(crate) fn by_id(&self, id: u128) -> Option<u64>
        ensures { (b : Book) → AreNamesOf b self.now → result ≡ with_id_in id (entries b) }
    {
        self.ids.get(&id).copied()
    }

    /// The number of the living session with this startup number of the connection.
    pub(crate) fn by_startup(&self, conn: u64, number: u32) -> Option<u64>
        ensures { (b : Book) → AreNamesOf b self.now → result ≡ with_startup_in conn number (entries b) }
    {
        self.startups.get(&(conn, number)).copied()
    }
}
