//! A pool of lanes over devices that tell what they were asked. Each lane has one connection. A
//! `run_pool` that runs one lane after another fails by one of the two orders, though it meets its
//! contract.

ghost use Rattle.rtsp_record.specs.Choices.{HasPorts};

use crate::world::{serve, tone};
use rtsp_content::Table;
use rtsp_engine::{Asker, BindFault, Binder, CountedReader, CountedWriter, ServeEnd, TURNS, Words};
use rtsp_lock::{DrawnNumbers, open_for};
use rtsp_record::Whole;
use rtsp_server::{BookHandle, Lane, LaneTurn, PoolEnd, run_pool, whole_of};
use rtspd::CountedWords;
use std::alloc::Global;
use std::net::{Net, TcpListener, TcpStream};
use std::rt::Clock;
use std::sync::atomic::{AtomicBool, Ordering};
use std::sync::{Arc, Wait};
use std::thread;
use std::thread::Threads;
use std::time::Duration;

const SETUP: &str = "SETUP rtsp://h/tone/a RTSP/2.0\r\nCSeq: 1\r\n\
    Transport: RTP/AVP;unicast;dest_addr=\":8000\"/\":8001\"\r\n\r\n";

// How many milliseconds a binder waits for another lane.
const PATIENCE: u32 = 10_000;

// A binder that binds once something has happened, and refuses where it has waited too long.
#[derive(Drop)]
struct WaitingBinder<'a, R> {
    rt: &'a R,
    until: &'a AtomicBool,
    failures: u64,
}

impl<R: Clock> Binder for WaitingBinder<'_, R> {
    ghost use Rattle.std.specs.Prelude.{⊤};

    ghost calls = { record { binds = λ b a p c. ⊤; fails = λ b a p c. ⊤; unbinds = λ b a p c. ⊤; failures = λ b. b.failures } };

    fn bind(&mut self, _admission: u64, _pair: u16) -> Result<(), BindFault> {
        for _ in 0..PATIENCE {
            if self.until.load(Ordering::SeqCst) {
                return Ok(());
            }
            thread::sleep(self.rt, Duration::from_millis(1));
        }
        self.failures = self.failures.saturating_add(1);
        Err(BindFault)
    }

    fn unbind(&mut self, _admission: u64, _pair: u16) {}

    fn bind_port(&mut self, admission: u64, port: u16) -> Result<(), BindFault> {
        self.bind(admission, port)
    }

    fn unbind_port(&mut self, admission: u64, port: u16) {
        self.unbind(admission, port)
    }
}

// A lane of one connection, on which one SETUP comes.
#[derive(Drop)]
struct OneSetup {
    table: Arc<Table>,
    // Its pair is bound once this is true.
    until: Arc<AtomicBool>,
    // It is set once the SETUP was answered with 200.
    answered: Arc<AtomicBool>,
    // Its session has the id after so many.
    ids: u64,
}

// Whether the request is answered with 200.
fn is_set_up<R: Wait, B: Binder>(
    rt: &R,
    alloc: Global,
    handle: &mut BookHandle,
    binder: &mut B,
    words: &mut CountedWords,
    table: &Table,
    asker: Asker,
) -> bool {
    let mut said: Vec<u8> = Vec::new(alloc);
    let end = serve(
        rt,
        alloc,
        &mut handle.seat,
        &handle.lock,
        binder,
        words,
        table,
        asker,
        &mut CountedReader::new(SETUP.as_bytes()),
        &mut CountedWriter::new(&mut said),
        TURNS,
    );
    end == ServeEnd::Closed && said.as_slice().starts_with(b"RTSP/2.0 200 OK\r\n")
}

impl OneSetup {
    fn serve<R: Wait + Clock>(&self, rt: &R, alloc: Global, handle: &mut BookHandle) -> Option<()> {
        let table = &*self.table;
        let mut own = handle.split(rt)?;
        let conn = own.draw(rt)?;
        let mut binder = WaitingBinder {
            rt,
            until: &self.until,
            failures: 0,
        };
        let mut words = CountedWords::new();
        for _ in 0..self.ids {
            let _ = words.id();
        }
        let asker = Asker {
            conn,
            peer: 0,
            source: None,
        };
        if is_set_up(rt, alloc, &mut own, &mut binder, &mut words, table, asker) {
            self.answered.store(true, Ordering::SeqCst);
        }
        Some(())
    }
}

impl Lane for OneSetup {
    fn turn<R: Wait + Net<Listener = TcpListener, Stream = TcpStream> + Clock>(
        &mut self,
        rt: &R,
        alloc: Global,
        handle: &mut BookHandle,
    ) -> LaneTurn {
        LaneTurn {
            ended: if self.serve(rt, alloc, handle).is_some() {
                1
            } else {
                0
            },
            is_over: true,
        }
    }
}

fn flag(alloc: Global, is_set: bool) -> Option<Arc<AtomicBool>> {
    Arc::new(alloc, AtomicBool::new(is_set)).ok()
}

// Two lanes, of which one binds its pair only once the other's SETUP is answered: the first where
// `is_waiting_first` says so, else the second.
fn lanes(
    alloc: Global,
    is_waiting_first: bool,
    table: &Arc<Table>,
    one: &Arc<AtomicBool>,
    two: &Arc<AtomicBool>,
) -> Option<Vec<OneSetup>> {
    let waiting = OneSetup {
        table: Arc::try_clone(table).ok()?,
        until: Arc::try_clone(two).ok()?,
        answered: Arc::try_clone(one).ok()?,
        ids: 0,
    };
    let other = OneSetup {
        table: Arc::try_clone(table).ok()?,
        until: flag(alloc, true)?,
        answered: Arc::try_clone(two).ok()?,
        ids: 1,
    };
    let pair = if is_waiting_first {
        [waiting, other]
    } else {
        [other, waiting]
    };
    Vec::from_array(alloc, pair).ok()
}

// What a pool of these lanes comes to, over a book of its own.
fn pooled<R: Threads + Wait + Net<Listener = TcpListener, Stream = TcpStream> + Clock + Sync>(
    rt: &R,
    alloc: Global,
    whole: &Whole,
    lanes: Vec<OneSetup>,
) -> Option<PoolEnd>
    requires { HasPorts whole.now }
{
    let (lock, mut seat) = open_for::<DrawnNumbers>(alloc, whole).ok()?;
    let lock = Arc::new(alloc, lock).ok()?;
    Some(run_pool(rt, alloc, lanes, &lock, &mut seat))
}

// Whether both lanes are served.
fn serves_both<R: Threads + Wait + Net<Listener = TcpListener, Stream = TcpStream> + Clock + Sync>(
    rt: &R,
    alloc: Global,
    is_waiting_first: bool,
) -> Option<bool> {
    let table = Arc::new(alloc, tone(alloc)?).ok()?;
    let (one, two) = (flag(alloc, false)?, flag(alloc, false)?);
    let lanes = lanes(alloc, is_waiting_first, &table, &one, &two)?;
    let end = pooled(rt, alloc, &whole_of(&table), lanes)?;
    let are_answered = one.load(Ordering::SeqCst) && two.load(Ordering::SeqCst);
    Some(are_answered && end == PoolEnd { served: 2, idle: 0 })
}

#[test]
fn the_first_lane_waits_for_the_second(rt: HostRuntime) {
    assert!(rt; serves_both(&rt, rt.alloc(), true) == Some(true));
}

#[test]
fn the_second_lane_waits_for_the_first(rt: HostRuntime) {
    assert!(rt; serves_both(&rt, rt.alloc(), false) == Some(true));
}
