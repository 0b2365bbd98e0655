//! Draws by one seat, by two, and by threads; tasks that are done by workers.
ghost use Rattle.std.specs.Prelude.{◌≡◌, ℕ, ◌*◌, ◌≤◌, IfOk};
ghost use Rattle.level_workers.specs.Seats.{IsFresh};

use super::*;
use std::alloc::{AllocError, Global};
use std::sync::Wait;
use std::sync::atomic::Ordering::SeqCst;
use std::sync::atomic::{AtomicBool, AtomicU32};
use std::test::Fail;
use std::thread;
use std::thread::Threads;

const MOST_LOADS: u64 = 1_000_000_000;

#[test]
fn a_seat_draws_the_numbers_in_order(rt: HostRuntime) -> Result<(), Fail> {
    let (board, mut seat) = tickets(rt.alloc(), 3, 1)?;
    assert_eq!(rt; board.draw(&mut seat), Some(0));
    assert_eq!(rt; board.draw(&mut seat), Some(1));
    assert_eq!(rt; board.draw(&mut seat), Some(2));
    assert_eq!(rt; board.draw(&mut seat), None);
    assert_eq!(rt; board.draw(&mut seat), None);
    let (empty, mut seat) = tickets(rt.alloc(), 0, 1)?;
    assert_eq!(rt; empty.draw(&mut seat), None);
    Ok(())
}

#[test]
fn a_seat_that_was_split_off_draws_from_the_same_numbers(rt: HostRuntime) -> Result<(), Fail> {
    let (board, mut first) = tickets(rt.alloc(), 3, 2)?;
    let mut second = board.split(&mut first);
    assert_eq!(rt; (first.parts(), second.parts()), (1, 1));
    assert_eq!(rt; board.draw(&mut second), Some(0));
    assert_eq!(rt; board.draw(&mut first), Some(1));
    assert_eq!(rt; board.draw(&mut second), Some(2));
    assert_eq!(rt; board.draw(&mut first), None);
    board.join_seats(&mut first, second);
    assert_eq!(rt; first.parts(), 2);
    assert_eq!(rt; board.draw(&mut first), None);
    Ok(())
}

// Returns when two threads are ready, or the other isn't seen for long.
fn meet(ready: &AtomicU32) {
    ready.fetch_add(1, SeqCst);
    for _ in 0..MOST_LOADS {
        if ready.load(SeqCst) == 2 {
            break;
        }
    }
}

// What a seat draws until it is given None.
fn drawn_by(
    alloc: Global,
    board: &Tickets,
    ready: &AtomicU32,
    mut seat: TicketSeat,
) -> Result<Vec<u32>, AllocError>
    requires { seat.board ≡ board.now }
{
    let mut numbers = Vec::new(alloc);
    meet(ready);
    for _ in 0..u32::MAX {
        let Some(number) = board.draw(&mut seat) else {
            break;
        };
        numbers.push(number)?;
    }
    Ok(numbers)
}

fn drawn_by_two<R: Threads + Wait + Sync>(
    rt: &R,
    alloc: Global,
    board: &Tickets,
    first: TicketSeat,
    second: TicketSeat,
) -> Option<(Vec<u32>, Vec<u32>)>
    requires first { first.board ≡ board.now }
    requires second { second.board ≡ board.now }
{
    let ready = AtomicU32::new(0);
    let ready = &ready;
    thread::scope(
        thread::scope_env(),
        rt,
        |scope|
            requires { (first.board ≡ board.now) × (second.board ≡ board.now) }
        {
            let one = scope
                .spawn(
                    move ||
                        requires { first.board ≡ board.now }
                    { drawn_by(alloc, board, ready, first) },
                )
                .ok()?;
            let other = scope
                .spawn(
                    move ||
                        requires { second.board ≡ board.now }
                    { drawn_by(alloc, board, ready, second) },
                )
                .ok()?;
            Some((one.join(rt).ok()?, other.join(rt).ok()?))
        },
    )
}

#[test]
fn two_threads_of_a_scope_draw_each_number_once(rt: HostRuntime) -> Result<(), Fail> {
    for limit in [3u32, 100_000] {
        let (board, mut first) = tickets(rt.alloc(), limit, 2)?;
        let second = board.split(&mut first);
        let Some((mut all, mut others)) = drawn_by_two(&rt, rt.alloc(), &board, first, second)
        else {
            return Err(Fail::from("no threads"));
        };
        all.append(&mut others)?;
        all.sort()?;
        assert!(rt; all.iter().copied().eq(0..limit), "up to {limit}");
    }
    Ok(())
}

struct Squares;

impl Task for Squares {
    type Out = u64;

    ghost gives = { λ _ number square. square ≡ number * number };

    fn run(&self, number: u32) -> Result<u64, AllocError> {
        let number = u64::from(number);
        Ok(number * number)
    }
}

// It has no memory for one number.
#[derive(Drop)]
struct Refuses(u32);

impl Task for Refuses {
    type Out = u32;

    ghost gives = { λ _ number out. out ≡ number };

    fn run(&self, number: u32) -> Result<u32, AllocError> {
        if number == self.0 {
            return Err(AllocError);
        }
        Ok(number)
    }
}

#[test]
fn workers_give_the_plain_list(rt: HostRuntime) -> Result<(), Fail> {
    let table: [(u32, u32); 6] = [(0, 1), (0, 3), (1, 1), (3, 64), (1000, 3), (1000, 64)];
    for (count, workers) in table {
        if workers == 0 || workers > 64 {
            return Err(Fail::from("no workers"));
        }
        let (board, seat) = tickets(rt.alloc(), count, workers)?;
        let (squares, mut seat) = run_all(&rt, rt.alloc(), &Squares, &board, seat, &NoGate)?;
        let want = (0..u64::from(count)).map(|k| k * k);
        assert!(rt; squares.iter().copied().eq(want), "{count} by {workers}");
        assert_eq!(rt; seat.parts(), workers);
        assert_eq!(rt; board.draw(&mut seat), None);
    }
    Ok(())
}

#[test]
fn a_task_without_memory_leaves_no_list(rt: HostRuntime) -> Result<(), Fail> {
    for (refused, workers) in [(0u32, 1u32), (2, 1), (2, 3), (3, 3)] {
        if workers == 0 || workers > 64 {
            return Err(Fail::from("no workers"));
        }
        let (board, seat) = tickets(rt.alloc(), 3, workers)?;
        let done = run_all(&rt, rt.alloc(), &Refuses(refused), &board, seat, &NoGate);
        assert_eq!(rt; done.is_ok(), refused == 3, "{refused} by {workers}");
    }
    Ok(())
}

// Number 0 waits at it until 1 was begun, or for long.
#[derive(Drop)]
struct Meeting {
    other_began: AtomicBool,
    met: AtomicBool,
    begun: AtomicU32,
    done: AtomicU32,
}

impl Gate for Meeting {
    fn begun(&self, number: u32) {
        self.begun.fetch_add(1, SeqCst);
        if number == 1 {
            self.other_began.store(true, SeqCst);
        }
        if number == 0 {
            for _ in 0..MOST_LOADS {
                if self.other_began.load(SeqCst) {
                    self.met.store(true, SeqCst);
                    break;
                }
            }
        }
    }

    fn done(&self, _number: u32) {
        self.done.fetch_add(1, SeqCst);
    }
}

#[test]
fn two_workers_meet_at_a_gate(rt: HostRuntime) -> Result<(), Fail> {
    let gate = Meeting {
        other_began: AtomicBool::new(false),
        met: AtomicBool::new(false),
        begun: AtomicU32::new(0),
        done: AtomicU32::new(0),
    };
    let (board, seat) = tickets(rt.alloc(), 2, 2)?;
    let (squares, _seat) = run_all(&rt, rt.alloc(), &Squares, &board, seat, &gate)?;
    assert_eq!(rt; squares.as_slice(), [0, 1].as_slice());
    assert!(rt; gate.met.load(SeqCst));
    assert_eq!(rt; (gate.begun.load(SeqCst), gate.done.load(SeqCst)), (2, 2));
    Ok(())
}
