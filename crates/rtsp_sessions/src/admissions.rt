//! What a session holds, by admission.

ghost use Rattle.std.specs.Prelude.{◌≡◌, ◌<◌, ◌≤◌, ◌⊎◌, length, IsSome, Some, IfOk, IfErr, slice_get};
ghost use Rattle.std.specs.FinMap.{get, empty, entries};
ghost use Rattle.rtsp_record.specs.Tables.{set};
ghost use Rattle.rtsp_sessions.specs.Plain.{InOrder, table_of, Stands, Belongs};

use rtsp_record::Admission;
use std::marker::Model;

/// The greatest number of admissions of a session that hold something at once.
pub const MOST_HOLDING: usize = 16;

/// The admissions of a session by their numbers, at most 16, in ascending order. It is of fixed
/// size.
#[derive(Drop)]
pub struct Admissions {
    rows: [(u64, Admission); 16],
    len: usize,
}

impl Model for Admissions {
    ghost use Rattle.std.specs.Prelude.{take, ◌≤◌, IsTrue};
    ghost use Rattle.std.specs.Ordering.{nat_cmp};
    ghost use Rattle.std.specs.FinMap.{from_sorted, is_sorted};
    ghost use Rattle.rtsp_record.specs.declared.holdings.Admission.{Admission};
    ghost use Rattle.rtsp_record.specs.Tables.{Table};
    ghost use Rattle.rtsp_sessions.specs.Codes.{admissions_code};
    ghost use Rattle.rtsp_record.specs.contracts.holdings.Admission as admission;

    ghost Value = { Table Admission };

    ghost coded = { admissions_code admission.the_row.coded };

    ghost view = { λ t. from_sorted (take t.len t.rows) };

    ghost invariant = { λ t. (t.len ≤ 16) × IsTrue (is_sorted nat_cmp (take t.len t.rows)) };
}

impl Admissions {
    /// No admission.
    pub(crate) fn new() -> Self
        ensures { result ≡ empty }
    {
        let blank = Admission {
            rate: None,
            address: None,
            stream: None,
        };
        Admissions {
            rows: [(0, blank); 16],
            len: 0,
        }
    }

    // The admissions with their numbers, in ascending order.
    pub(crate) fn rows(&self) -> &[(u64, Admission)]
        ensures rows { result.now ≡ entries self.now }
        ensures in_order { InOrder result.now }
        ensures table { table_of result.now ≡ self.now }
        ensures few { length result.now ≤ 16 }
    {
        &self.rows[..self.len]
    }

    /// How many admissions there are: those under which anything stands.
    pub fn len(&self) -> usize
        ensures { result ≡ length (entries self.now) }
    {
        self.rows().len()
    }

    /// The admission at this place, in ascending order of the numbers.
    pub fn at(&self, index: usize) -> (u64, Admission)
        requires { index < length (entries self.now) }
        ensures { slice_get (entries self.now) index ≡ Some result }
    {
        self.rows()[index]
    }

    /// What stands under the admission of this number.
    pub fn get(&self, admission: u64) -> Option<Admission>
        ensures { result ≡ get self.now admission }
    {
        let rows = self.rows();
        match place(rows, admission) {
            Ok(index) => Some(rows[index].1),
            Err(_) => None,
        }
    }

    // The same admissions once more.
    pub(crate) fn copied(&self) -> Self
        ensures { result ≡ self.now }
    {
        Admissions {
            rows: self.rows,
            len: self.len,
        }
    }

    // Writes what stands under an admission, or takes its row away. There is room for a row more,
    // or it is there.
    pub(crate) fn set(&mut self, admission: u64, held: Option<Admission>)
        requires { IsSome held → IsSome (get self.old admission) ⊎ (length (entries self.old) < 16) }
        ensures { self.new ≡ set self.old admission held }
    {
        match place(&self.rows[..self.len], admission) {
            Ok(index) => match held {
                Some(held) => self.rows[index] = (admission, held),
                None => {
                    self.rows.copy_within(index + 1..self.len, index);
                    self.len -= 1;
                }
            },
            Err(index) => match held {
                Some(held) => {
                    self.rows.copy_within(index..self.len, index + 1);
                    self.rows[index] = (admission, held);
                    self.len += 1;
                }
                None => {}
            },
        }
    }
}

// Where the admission of this number stands, or where it would.
fn place(rows: &[(u64, Admission)], admission: u64) -> Result<usize, usize>
    requires { InOrder rows.now }
    ensures ok { IfOk result (λ i. Stands admission rows.now i) }
    ensures err { IfErr result (λ i. Belongs admission rows.now i) }
{
    rows.binary_search_by_key(&admission, |row| row.0)
}
