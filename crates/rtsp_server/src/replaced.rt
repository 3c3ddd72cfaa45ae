//! Contents that were replaced: they are kept for as long as a thread may have them.

use rtsp_sockets::Content;
use std::alloc::Global;
use std::collections::VecDeque;
use std::sync::Arc;

/// For how long, in milliseconds, what was replaced is kept once no thread has it any more, so that none of them
/// closes files. For as long, too, files of what is withdrawn stay open that nobody watches.
pub(crate) const KEPT: u64 = 3_000;

// Content that was replaced, and when it was seen last with another thread.
#[derive(Drop)]
struct Kept {
    at: u64,
    content: Arc<Content>,
}

/// All contents that were replaced and that a thread may have.
#[derive(Drop)]
pub(crate) struct Replaced {
    contents: VecDeque<Kept>,
    // Whether there was no memory to keep one.
    is_any_lost: bool,
}

impl Replaced {
    /// There are none.
    pub(crate) fn new(alloc: Global) -> Replaced {
        Replaced {
            contents: VecDeque::new(alloc),
            is_any_lost: false,
        }
    }

    fn push(&mut self, kept: Kept) {
        if self.contents.push_back(kept).is_err() {
            self.is_any_lost = true;
        }
    }

    /// A content was replaced.
    pub(crate) fn keep(&mut self, content: Arc<Content>, now: u64) {
        self.push(Kept { at: now, content });
    }

    /// Lets go of what no other thread has had for a while, which closes its files.
    pub(crate) fn let_go(&mut self, now: u64) {
        for _ in 0..self.contents.len() {
            let Some(Kept { at, content }) = self.contents.pop_front() else {
                return;
            };
            if Arc::strong_count(&content) > 1 {
                self.push(Kept { at: now, content });
            } else if at.saturating_add(KEPT) <= now {
                drop(content);
            } else {
                self.push(Kept { at, content });
            }
        }
    }

    /// Whether no thread has a content by which a session could be begun at this place, or a packet be sent from
    /// it: what stands there is withdrawn in each that one may have, and its files are closed.
    pub(crate) fn is_over_at(&self, place: u16) -> bool {
        !self.is_any_lost
            && self
                .contents
                .iter()
                .all(|kept| is_over_in(&kept.content, place))
    }
}

/// Whether what stands at a place is withdrawn in this content, and its files are closed; or nothing stands there.
pub(crate) fn is_over_in(content: &Content, place: u16) -> bool {
    let Content { table, media, .. } = content;
    table.presentation(place).is_none()
        || table.is_withdrawn(place) && !media.has(usize::from(place))
}
