//! A thread for each lane.

ghost use Rattle.std.specs.Arc.{arc_value};
ghost use Rattle.rtsp_lock.specs.Calls.{IsSeatOf, SameSeat};

use rtsp_lock::{BookHandle, BookLock, BookSeat, DrawnNumbers};
use std::alloc::Global;
use std::net::{Net, TcpListener, TcpStream};
use std::rt::Clock;
use std::sync::{Arc, Wait};
use std::thread;
use std::thread::Threads;

/// What a turn of a lane came to.
#[derive(Clone, Copy, PartialEq, Eq)]
pub struct LaneTurn {
    /// How many connections were served to their end in it.
    pub ended: u64,
    /// The lane has nothing more to do.
    pub is_over: bool,
}

/// A source of connections, with all that their requests are answered by.
pub trait Lane: Drop {
    /// One turn: connections are accepted, those that are ready are visited, or one is served to
    /// its end. Each connection has a seat of its own, which is split off the lane's.
    fn turn<R: Wait + Net<Listener = TcpListener, Stream = TcpStream> + Clock>(
        &mut self,
        rt: &R,
        alloc: Global,
        handle: &mut BookHandle,
    ) -> LaneTurn;
}

/// How a pool has ended.
#[derive(Clone, Copy, PartialEq, Eq)]
pub struct PoolEnd {
    /// How many connections were served to their end.
    pub served: u64,
    /// How many lanes got no seat or no thread, and were not run.
    pub idle: u64,
}

// Runs a lane to its end: how many connections it served.
fn run_lane<R: Wait + Net<Listener = TcpListener, Stream = TcpStream> + Clock, L: Lane>(
    rt: &R,
    alloc: Global,
    mut handle: BookHandle,
    mut lane: L,
) -> u64 {
    let mut served = 0u64;
    for _ in rt.forever() {
        let turn = lane.turn(rt, alloc, &mut handle);
        served = served.saturating_add(turn.ended);
        if turn.is_over {
            break;
        }
    }
    served
}

// Runs the lanes, each in a thread of its own with a handle that is split off this one.
fn run_lanes<
    R: Threads + Wait + Net<Listener = TcpListener, Stream = TcpStream> + Clock + Sync,
    L: Lane + Send,
>(rt: &R, alloc: Global, mut own: BookHandle, lanes: Vec<L>) -> PoolEnd {
    let Ok(mut handles) = Vec::with_capacity(alloc, lanes.len()) else {
        return none_served(&lanes);
    };
    thread::scope(thread::scope_env(), rt, move |scope| {
        let mut idle = 0u64;
        for lane in lanes {
            let Some(theirs) = own.split(rt) else {
                idle = idle.saturating_add(1);
                continue;
            };
            match scope.spawn(move || run_lane(rt, alloc, theirs, lane)) {
                Ok(handle) => {
                    let _ = handles.push(handle);
                }
                Err(_) => idle = idle.saturating_add(1),
            }
        }
        let mut served = 0u64;
        for handle in handles {
            served = served.saturating_add(handle.join(rt));
        }
        PoolEnd { served, idle }
    })
}

// The end of a pool of which no lane was run.
fn none_served<L>(lanes: &Vec<L>) -> PoolEnd {
    PoolEnd {
        served: 0,
        idle: lanes.len() as u64,
    }
}

/// Runs each lane in a thread of its own, with a seat of its own, until all of them are over, and
/// joins the threads.
pub fn run_pool<
    R: Threads + Wait + Net<Listener = TcpListener, Stream = TcpStream> + Clock + Sync,
    L: Lane + Send,
>(
    rt: &R,
    alloc: Global,
    lanes: Vec<L>,
    lock: &Arc<BookLock<DrawnNumbers>>,
    seat: &mut BookSeat,
) -> PoolEnd
    requires own { IsSeatOf seat.old (arc_value lock.now) }
    ensures same { SameSeat seat.old seat.new }
{
    let Ok(shared) = Arc::try_clone(lock) else {
        return none_served(&lanes);
    };
    match seat.split(rt, lock) {
        Ok(own) => run_lanes(rt, alloc, BookHandle::new(shared, own), lanes),
        Err(_) => none_served(&lanes),
    }
}
