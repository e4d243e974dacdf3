//! Threads that draw numbers and take turns.

ghost use Rattle.std.specs.Prelude.{◌≡◌, ◌+◌, ◌<◌, All, false};
ghost use Rattle.turn_lock.specs.Views.{IsPassOf};

use seq_word::{Drawer, Miss, Numbers};
use std::alloc::Global;
use std::sync::Wait;
use std::thread;
use std::thread::Threads;
use turn_lock::{Logged, Pass, Turn};

// SEQ 0 under IV Index 12345678.
const FIRST: u64 = 0x0024_68ac_f000_0000;

/// A list of SEQs.
#[derive(Drop)]
struct Log {
    seqs: Vec<u32>,
}

impl Logged for Log {
    type Entry = u32;

    type Origin = u32;

    ghost entries = { λ log. log.seqs.items };

    ghost origin = { λ log. 0 };

    fn count(&self) -> u64 {
        self.seqs.len() as u64
    }
}

/// A seat to draw at, and a pass to take turns by.
#[derive(Drop)]
struct Bearer {
    seat: Drawer,
    pass: Pass<Log>,
}

/// Takes a turn, and writes a SEQ in it if there is memory.
fn write<R: Wait>(rt: &R, lock: &Turn<Log>, pass: &mut Pass<Log>, seq: u32)
    requires pass { IsPassOf lock.now pass.old × (pass.old.inside ≡ false) }
    ensures pass { IsPassOf lock.now pass.new × (pass.new.inside ≡ false) }
{
    let mut log = lock.enter(rt, pass);
    let _ = log.seqs.push(seq);
    lock.leave(pass, log);
}

/// Draws a number and writes it, 32 times.
fn work<R: Wait>(rt: &R, numbers: &Numbers, lock: &Turn<Log>, bearer: &mut Bearer)
    requires seat { bearer.old.seat.which ≡ numbers.now.which }
    requires pass { IsPassOf lock.now bearer.old.pass × (bearer.old.pass.inside ≡ false) }
{
    for _ in 0..32 {
        if let Ok(pair) = numbers.draw(rt, &mut bearer.seat) {
            write(rt, lock, &mut bearer.pass, pair.seq);
        }
    }
}

/// A bearer more.
fn another(numbers: &Numbers, lock: &Turn<Log>, seat: &mut Drawer, pass: &mut Pass<Log>) -> Bearer
    requires seat { seat.old.which ≡ numbers.now.which }
    requires pass { IsPassOf lock.now pass.old × (pass.old.inside ≡ false) }
    requires parts { 1 < pass.old.parts }
    ensures seat { seat.new.which ≡ numbers.now.which }
    ensures pass { IsPassOf lock.now pass.new × (pass.new.inside ≡ false) }
    ensures parts { pass.new.parts + 1 ≡ pass.old.parts }
    ensures other_seat { result.seat.which ≡ numbers.now.which }
    ensures other_pass { IsPassOf lock.now result.pass × (result.pass.inside ≡ false) }
{
    Bearer {
        seat: numbers.split(seat),
        pass: lock.split(pass),
    }
}

/// Eight bearers work, in so many threads.
fn work_at_once<R: Threads + Wait + Sync>(
    rt: &R,
    numbers: &Numbers,
    lock: &Turn<Log>,
    seat: &mut Drawer,
    pass: &mut Pass<Log>,
    threads: usize,
)
    requires seat { seat.old.which ≡ numbers.now.which }
    requires pass { IsPassOf lock.now pass.old × (pass.old.inside ≡ false) }
    requires parts { 8 < pass.old.parts }
    requires threads { 0 < threads }
    ensures seat { seat.new.which ≡ numbers.now.which }
    ensures pass { IsPassOf lock.now pass.new × (pass.new.inside ≡ false) }
{
    let mut bearers = [
        another(numbers, lock, seat, pass),
        another(numbers, lock, seat, pass),
        another(numbers, lock, seat, pass),
        another(numbers, lock, seat, pass),
        another(numbers, lock, seat, pass),
        another(numbers, lock, seat, pass),
        another(numbers, lock, seat, pass),
        another(numbers, lock, seat, pass),
    ];
    thread::for_each_mut(
        rt,
        &mut bearers,
        threads,
        &|_, bearer: &mut Bearer|
            requires seat { bearer.now.seat.which ≡ numbers.now.which }
            requires pass { IsPassOf lock.now bearer.now.pass × (bearer.now.pass.inside ≡ false) }
        {
            work(rt, numbers, lock, bearer);
        },
    );
}

/// How many numbers eight bearers write in so many threads.
fn written<R: Threads + Wait + Sync>(
    rt: &R,
    alloc: Global,
    numbers: &Numbers,
    seat: &mut Drawer,
    threads: usize,
) -> usize
    requires seat { seat.old.which ≡ numbers.now.which }
    requires threads { 0 < threads }
    ensures seat { seat.new.which ≡ numbers.now.which }
{
    let log = Log {
        seqs: Vec::new(alloc),
    };
    let Ok((lock, mut pass)) = Turn::start(alloc, log) else {
        return 0;
    };
    work_at_once(rt, numbers, &lock, seat, &mut pass, threads);
    let log = lock.enter(rt, &mut pass);
    lock.close(pass);
    log.seqs.len()
}

/// How many numbers were drawn, by the counter, and how many were written, where eight bearers work in so many threads: as many as one refill
/// reserves.
fn drawn<R: Threads + Wait + Sync>(rt: &R, alloc: Global, threads: usize) -> [u64; 2]
    requires { 0 < threads }
{
    let Ok((numbers, mut keeper, mut seat)) = Numbers::start(alloc, FIRST) else {
        return [0; 2];
    };
    let Err(Miss::Dry(dry)) = numbers.try_draw(&mut seat) else {
        return [0; 2];
    };
    if dry.mark() != FIRST {
        return [0; 2];
    }
    numbers.publish(&mut keeper, &mut seat, dry);
    let count = written(rt, alloc, &numbers, &mut seat, threads);
    let closed = numbers.close(keeper, seat);
    [closed.next() - FIRST, count as u64]
}

#[test]
fn threads_draw_and_take_turns(rt: HostRuntime) {
    assert!(rt; drawn(&rt, rt.alloc(), 2) == [256; 2]);
    assert!(rt; drawn(&rt, rt.alloc(), 8) == [256; 2]);
}
