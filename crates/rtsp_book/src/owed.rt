//! How many returns are owed after records: one for each living session, holding, stream and
//! binding, and one for each session that isn't in its opening phase.

ghost use Rattle.std.specs.Prelude.{◌≡◌, ◌+◌, ◌<◌, ◌^◌, length};
ghost use Rattle.rtsp_book.specs.Owed.{owed_with};

use rtsp_record::Record;

/// How many returns are owed once the records are made.
pub(crate) fn owed_after(owed: usize, changes: &[Record]) -> usize
    requires { owed + length changes.now < 2 ^ 64 }
    ensures { result ≡ owed_with owed changes.now }
{
    let mut owes = owed;
    for change in changes {
        owes = (owes + change.newly_owed()).saturating_sub(change.inverse().newly_owed());
    }
    owes
}
