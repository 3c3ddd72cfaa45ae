//! Reads a connection of a lane.

use crate::answering::Front;
use crate::client::Client;
use crate::guarding::GuardedFront;
use crate::service::Service;
use crate::tools::Tools;
use crate::visiting::{Part, Read};
use rtsp_credentials::Gate;
use rtsp_engine::VisitEnd;
use rtsp_lock::BookHandle;
use std::net::Net;
use std::rt;
use std::sync::Wait;

impl Client {
    // Reads a part of what is there, has it answered, as far as it is let through, and puts the answers
    // into the outlet.
    pub(super) fn read<R: Wait + Net + rt::Clock>(
        &mut self,
        service: &Service<'_, R>,
        tools: &mut Tools,
        lane: &mut BookHandle,
        part: Part,
        until: u64,
    ) -> Read {
        match self.gate {
            Some(gate) => self.read_guarded(service, tools, lane, part, until, gate),
            None => self.read_unguarded(service, tools, lane, part, until),
        }
    }

    fn read_unguarded<R: Wait + Net + rt::Clock>(
        &mut self,
        service: &Service<'_, R>,
        tools: &mut Tools,
        lane: &mut BookHandle,
        part: Part,
        until: u64,
    ) -> Read {
        let mut front = Front {
            service: *service,
            handle: &mut self.handle,
            lane,
            asker: self.asker,
            host: self.host,
            outlet: &self.outlet,
            made: &mut tools.made,
            words: &mut tools.words,
            plays: &mut tools.plays,
            heard: &tools.heard,
            activity: &mut self.activity,
            has_room: true,
        };
        let (input, reads_all) = (&mut self.input, self.is_ending);
        let (room, piece) = (&mut tools.room, tools.piece.as_mut_slice());
        front.visit(input, room, piece, part, reads_all, until)
    }

    // The same at the connection's gate, which there is only where there are users. Never inlined, so that
    // who has none doesn't pay for its room on the stack.
    #[inline(never)]
    fn read_guarded<R: Wait + Net + rt::Clock>(
        &mut self,
        service: &Service<'_, R>,
        tools: &mut Tools,
        lane: &mut BookHandle,
        part: Part,
        until: u64,
        gate: Gate,
    ) -> Read {
        let Some(users) = &tools.users else {
            return Read {
                end: VisitEnd::Closed,
                is_kept: false,
            };
        };
        let mut front = GuardedFront {
            gate,
            users: users.users(),
            service: *service,
            handle: &mut self.handle,
            lane,
            asker: self.asker,
            host: self.host,
            outlet: &self.outlet,
            made: &mut tools.made,
            words: &mut tools.words,
            plays: &mut tools.plays,
            heard: &tools.heard,
            activity: &mut self.activity,
            has_room: true,
        };
        let (input, reads_all) = (&mut self.input, self.is_ending);
        let (room, piece) = (&mut tools.room, tools.piece.as_mut_slice());
        let read = front.visit(input, room, piece, part, reads_all, until);
        self.gate = Some(front.gate);
        read
    }
}
