//! What a lane answers by.

use crate::end_lines::EndTeller;
use crate::end_note::EndNote;
use crate::lane_lines::LaneLines;
use crate::recorded::Recorded;
use rtsp_content::{Allowed, Table};
use rtsp_metrics::AnswerCounters;
use rtsp_shares::ShareTable;
use rtsp_sockets::LaneDecisions;
use std::alloc::Global;
use std::sync::Mutex;

/// What a lane answers by in a turn, of the server's parts and its own, and the moment of the turn. It is
/// lent where that is enough: whoever is lent all of `Shared` is told the layout of all that it holds.
#[derive(Drop)]
pub(crate) struct Desk<'a, R> {
    pub(crate) rt: &'a R,
    pub(crate) alloc: Global,
    pub(crate) table: &'a Table,
    /// For whom presentations are there, where that isn't everybody.
    pub(crate) allowed: Option<&'a Allowed>,
    pub(crate) teller: EndTeller<'a>,
    pub(crate) ends: &'a EndNote,
    pub(crate) session_shares: &'a Option<Mutex<ShareTable>>,
    /// What the lane is deciding on.
    pub(crate) decisions: LaneDecisions<'a>,
    /// Where the lane counts its answers.
    pub(crate) answers: &'a AnswerCounters,
    pub(crate) lines: &'a LaneLines,
    pub(crate) recorded: &'a Recorded,
    pub(crate) now: u64,
}
