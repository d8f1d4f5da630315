//! How a net ends.
use crate::machines::{ASK, FIRST, client, free_port, open};
use io_base::{Job, Net, NetGot, NetPut, Paused, Spawner, Started, ThreadSpawner};
use std::alloc::Global;
use std::io::Write;
use std::process::Abort;
use std::sync::Wait;
use std::sync::atomic::{AtomicU64, Ordering};
use std::test::Fail;
use std::thread;
use std::thread::Threads;
use std::time::{Clock, Duration, Instant};
use tcp_net::NetFault;

/// Waits for a frame, or pauses, until the net is closed.
#[derive(Drop)]
struct Waiter<'a, N: Net> {
    net: &'a N,
    pauses: bool,
    buffer: Vec<u8>,
    /// How many have ended since the net was.
    ended: &'a AtomicU64,
}

impl<'a, N: Net> Job for Waiter<'a, N> {
    fn run(self) {
        let Waiter {
            net,
            pauses,
            mut buffer,
            ended,
        } = self;
        let has_ended = if pauses {
            net.pause(60) == Paused::Ended
        } else {
            net.recv(&mut buffer) == NetGot::Ended && buffer.is_empty()
        };
        if has_ended {
            ended.fetch_add(1, Ordering::SeqCst);
        }
    }
}

/// Two threads wait for frames and one pauses, and the net is closed in a moment. How many of them have ended with it?
fn end_three<R: Threads + Wait + Clock + Abort + Sync, N: Net>(
    rt: &R,
    alloc: Global,
    net: &N,
) -> u64 {
    let ended = AtomicU64::new(0);
    thread::scope(thread::scope_env(), rt, |scope| {
        for pauses in [false, false, true] {
            let mut buffer = Vec::new(alloc);
            let _ = buffer.push(1);
            let waiter = Waiter {
                net,
                pauses,
                buffer,
                ended: &ended,
            };
            assert!(rt; ThreadSpawner.start(scope, waiter) == Started::Yes);
        }
        thread::sleep(rt, Duration::from_millis(100));
        net.close();
    });
    ended.load(Ordering::SeqCst)
}

/// A pause lasts as long as it is to last, and the close ends each wait.
fn expect_ends<R: Threads + Wait + Clock + Abort + Sync, N: Net>(
    rt: &R,
    alloc: Global,
    net: &N,
) -> Result<(), Fail> {
    let began = Instant::now(rt)?;
    assert_eq!(rt; net.pause(1), Paused::Yes);
    // A net counts whole milliseconds, so that a pause may be short by a part of one.
    assert!(rt; began.elapsed(rt)? >= Duration::from_millis(999));
    assert_eq!(rt; end_three(rt, alloc, net), 3);
    assert!(rt; began.elapsed(rt)? < Duration::from_secs(30));
    assert_eq!(rt; net.send(FIRST, &ASK), NetPut::Failed);
    assert_eq!(rt; net.pause(60), Paused::Ended);
    Ok(())
}

/// Two threads wait for frames and one pauses, while the net is ended. Its port is free then.
#[test]
fn an_end_ends_all_waits(rt: HostRuntime) -> Result<(), Fail> {
    let (port, alloc) = (free_port(&rt)?, rt.alloc());
    let net = open(rt, alloc, FIRST, port)?;
    let taken = open(rt, alloc, FIRST, port).err();
    assert_eq!(rt; taken, Some(NetFault::Failed));
    let mut stream = client(&rt, FIRST, port)?;
    expect_ends(&rt, alloc, &net)?;
    let _ = stream.write_all(&ASK);
    open(rt, alloc, FIRST, port)?.close();
    Ok(())
}
