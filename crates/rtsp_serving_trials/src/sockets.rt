//! A connection of this host, from both sides.

use crate::steps::{self, Scene, Step};
use rtsp_sockets::{
    ALL_ROOM, FRAME_ROOM, FrameRoom, LENT_IN_ALL, Loan, Message, Outlet, Put, SharedRoom, prepare,
};
use std::alloc::Global;
use std::fs::File;
use std::io::{self, ErrorKind, Read};
use std::net::{Net, TcpListener, TcpStream};
use std::process::Abort;
use std::rt::{Clock, Files};
use std::sync::{Arc, Wait};

// How many frames are put at most.
const MANY: u32 = 10_000;

const FRAME_SIZE: usize = 1_000;

const FRAME: [u8; FRAME_SIZE] = [0x24; FRAME_SIZE];

fn put_of(word: &str) -> Option<Put> {
    match word {
        "sent" => Some(Put::Sent),
        "kept" => Some(Put::Kept),
        "dropped" => Some(Put::Dropped),
        "closed" => Some(Put::Closed),
        _ => None,
    }
}

/// A player, the outlet to it, and what is lent to that.
#[derive(Drop)]
pub struct Connected {
    pub player: TcpStream,
    pub outlet: Outlet,
    shared: Arc<SharedRoom>,
    // The room for frames, if it isn't the least.
    room: Option<FrameRoom>,
}

impl Connected {
    /// One to which as much is lent as a server has.
    pub fn open<R: Net<Listener = TcpListener, Stream = TcpStream>>(
        rt: &R,
        alloc: Global,
    ) -> io::Result<Connected> {
        Connected::within(rt, alloc, &SharedRoom::open(alloc, LENT_IN_ALL)?)
    }

    /// One to which this room lends.
    pub fn within<R: Net<Listener = TcpListener, Stream = TcpStream>>(
        rt: &R,
        alloc: Global,
        shared: &Arc<SharedRoom>,
    ) -> io::Result<Connected> {
        let listener = TcpListener::bind(rt, "127.0.0.1:0")?;
        let player = TcpStream::connect(rt, listener.local_addr()?)?;
        let (stream, _) = listener.accept()?;
        stream.set_nonblocking(true)?;
        let (Some(loan), Ok(shared)) = (Loan::of(shared), Arc::try_clone(shared)) else {
            return Err(io::Error::from(ErrorKind::OutOfMemory));
        };
        let stream = mio::net::TcpStream::from_std(stream);
        Ok(Connected {
            player,
            outlet: Outlet::new(alloc, stream, loan),
            shared,
            room: None,
        })
    }

    /// The player, and the outlet to it.
    pub fn into_parts(self) -> (TcpStream, Outlet) {
        let Connected { player, outlet, .. } = self;
        (player, outlet)
    }

    // Takes the room of a rate. How many bytes it has.
    fn take_rate(&mut self, rate: u64) -> u64 {
        let room = FrameRoom::of_rate(rate);
        self.room = Some(room);
        room.bytes() as u64
    }

    // Puts frames until one is dropped. Whether one was.
    fn fill<R: Wait>(&self, rt: &R) -> bool {
        for _ in 0..MANY {
            let put = match self.room {
                Some(room) => self.outlet.put_frame(rt, 7, room, &FRAME),
                None => self.outlet.put(rt, 7, Message::Frame, &FRAME),
            };
            if put == Put::Dropped {
                return true;
            }
        }
        false
    }

    // Puts responses for which there is no room in the end. Whether the last one closes.
    fn closes<R: Wait>(&self, rt: &R) -> bool {
        let mut last = Put::Kept;
        for _ in 0..ALL_ROOM / FRAME_SIZE {
            last = self.outlet.put(rt, 8, Message::Response, &FRAME);
        }
        last == Put::Closed
    }

    // A response waits behind the frames.
    fn keeps_response<R: Wait>(&self, rt: &R) -> bool {
        let held = self.outlet.held(rt);
        self.outlet.put(rt, 8, Message::Response, b"hello") == Put::Kept
            && self.outlet.held(rt) > held
    }

    // Whether it holds so much at most, and has no room for one more frame.
    fn is_full<R: Wait>(&self, rt: &R, room: usize) -> bool {
        let held = self.outlet.held(rt);
        held <= room && room - held < FRAME_SIZE
    }

    fn is_closed<R: Wait>(&self, rt: &R) -> bool {
        self.outlet.put(rt, 0, Message::Response, b"hello") == Put::Closed
            && self.outlet.flush(rt, 0).is_none()
    }

    fn hears(&mut self) -> bool {
        let mut heard = [0; 5];
        self.player.read_exact(&mut heard).is_ok() && heard == *b"hello"
    }

    // What it can't have by itself of all that it holds.
    fn beyond<R: Wait>(&self, rt: &R) -> u64 {
        self.outlet.held(rt).saturating_sub(FRAME_ROOM) as u64
    }

    // The player reads frame after frame up to a response, and what is lent is given back meanwhile.
    // How many frames came, if they are whole.
    fn read_frames<R: Wait>(&mut self, rt: &R) -> io::Result<Option<u32>> {
        let most = self.shared.lent();
        let mut heard = FRAME;
        for frames in 0..MANY {
            self.outlet.flush(rt, 9);
            let is_given_back = self.shared.lent() == self.beyond(rt).min(most);
            self.player.read_exact(&mut heard[..5])?;
            if heard.starts_with(b"hello") {
                return Ok(Some(frames));
            }
            self.player.read_exact(&mut heard[5..])?;
            if !is_given_back || heard != FRAME {
                return Ok(None);
            }
        }
        Ok(None)
    }

    // All frames that fill the room come, and then the response that waits behind them.
    fn reads_all<R: Wait>(&mut self, rt: &R) -> bool {
        let least = self.outlet.held(rt) / FRAME_SIZE;
        match self.read_frames(rt) {
            Ok(Some(frames)) => frames as usize > least && self.outlet.held(rt) == 0,
            _ => false,
        }
    }

    // How much there is of something.
    fn count<R: Wait>(&mut self, rt: &R, what: &str) -> Option<u64> {
        match what {
            "waiting" => Some(self.outlet.waiting(rt) as u64),
            "held" => Some(self.outlet.held(rt) as u64),
            "lent" => Some(self.shared.lent()),
            "flush" => Some(self.outlet.flush(rt, 0)? as u64),
            "drain" => Some(self.outlet.drain(rt) as u64),
            "request-number" => Some(u64::from(self.outlet.next_cseq(rt))),
            "heard-at-end" => Some(self.player.read(&mut [0; 5]).ok()? as u64),
            _ => None,
        }
    }

    // What comes of a message that is put.
    fn put<R: Wait>(&self, rt: &R, what: &str) -> Option<Put> {
        match what {
            "frame" => Some(self.outlet.put(rt, 9, Message::Frame, &FRAME)),
            "response" => Some(self.outlet.put(rt, 0, Message::Response, b"hello")),
            _ => None,
        }
    }

    // Whether something is so.
    fn is_so<R: Wait>(&self, rt: &R, step: Step<'_>) -> Option<bool> {
        match step.word {
            "fill" => Some(self.fill(rt)),
            "keeps-response" => Some(self.keeps_response(rt)),
            "closes-by-responses" => Some(self.closes(rt)),
            "lends-what-is-beyond" => Some(self.shared.lent() == self.beyond(rt)),
            "closed" => Some(self.is_closed(rt)),
            "full-at" => Some(self.is_full(rt, step.rest.parse().unwrap_or(0))),
            _ => None,
        }
    }

    // Does a step. Whether it gives what is wanted, if it is one of these.
    fn acts<R: Wait>(&mut self, rt: &R, step: Step<'_>) -> Option<bool> {
        match step.word {
            "prepare" => Some(prepare(self.outlet.fd())),
            "rate" => Some(step.wants(self.take_rate(step.number))),
            "hears" => Some(self.hears()),
            "reads-all" => Some(self.reads_all(rt)),
            "stalled-at" => {
                let is_closed = self.outlet.close_stalled(rt, step.number);
                Some(is_closed == (step.wanted == "closed"))
            }
            "close" => {
                self.outlet.close(rt);
                Some(true)
            }
            _ => None,
        }
    }
}

impl Scene for Connected {
    fn does<
        R: Wait
            + Clock
            + Files<File = File>
            + Net<Listener = TcpListener, Stream = TcpStream>
            + AllocGlobal,
    >(&mut self, rt: &R, step: Step<'_>) -> bool {
        if let Some(put) = self.put(rt, step.word) {
            return Some(put) == put_of(step.wanted);
        }
        if let Some(is_so) = self.is_so(rt, step) {
            return is_so;
        }
        if let Some(gives) = self.acts(rt, step) {
            return gives;
        }
        let count = self.count(rt, step.word);
        count.is_some_and(|count| step.wants(count))
    }
}

/// Does steps with a connection to which as much is lent as a server has.
pub fn play<
    R: Wait
        + Clock
        + Files<File = File>
        + Net<Listener = TcpListener, Stream = TcpStream>
        + AllocGlobal
        + Abort,
>(rt: &R, line: &str) {
    let Ok(mut connected) = Connected::open(rt, rt.alloc()) else {
        panic!(rt; "there is no connection")
    };
    steps::play(rt, &mut connected, line);
}
