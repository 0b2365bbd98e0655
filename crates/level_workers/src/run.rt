//! All tasks of a board, by as many workers as its seat has parts.
ghost use Rattle.std.specs.Prelude.{◌≡◌, ◌<◌, ◌≤◌, true, false, [], All, IfOk, sum_by, vec_len};
ghost use Rattle.std.specs.Thread.{IsSync, IsSend};
ghost use Rattle.level_workers.specs.Numbers.{EachBelow};
ghost use Rattle.level_workers.specs.Seats.{IsFresh, drawn, parts_of};
ghost use Rattle.level_workers.specs.Outputs.{IsDone, IsPlainList};

use crate::board::{TicketSeat, Tickets};
use crate::order::in_order;
use crate::task::{Gate, Task};
use crate::worker::{Done, do_tasks};
use std::alloc::{AllocError, Global};
use std::thread::{Threads, join};

// A seat for each part of this one.
fn one_seat_each(
    alloc: Global,
    board: &Tickets,
    mut seat: TicketSeat,
) -> Result<Vec<TicketSeat>, AllocError>
    requires { IsFresh board.now seat }
    ensures some { IfOk result (λ seats. 0 < vec_len seats) }
    ensures fresh { IfOk result (λ seats. All (IsFresh board.now) seats.items) }
    ensures parts { IfOk result (λ seats. parts_of seats.items ≡ seat.parts) }
{
    let mut seats = Vec::new(alloc);
    while seat.parts() > 1 {
        seats.push(board.split(&mut seat))?;
    }
    seats.push(seat)?;
    Ok(seats)
}

// The seats are halved at each step, and the first half goes to a new thread where one can be made.
#[cycle(workers)]
fn run_seats<O: Send + Drop, T: Task<Out = O> + Sync, G: Gate + Sync, R: Threads + Sync>(
    rt: &R,
    alloc: Global,
    task: &T,
    board: &Tickets,
    gate: &G,
    mut seats: Vec<TicketSeat>,
) -> Result<Done<O>, AllocError>
    requires some { 0 < vec_len seats }
    requires fresh { All (IsFresh board.now) seats.items }
    ensures { IfOk result (λ done. IsDone (T.gives task.now) board.now (parts_of seats.items) done.0.items done.1) }
{
    if seats.len() == 1 {
        let Some(seat) = seats.pop() else {
            unreachable!()
        };
        return do_tasks(alloc, task, board, gate, seat);
    }
    let others = seats.split_off(seats.len() / 2)?;
    let front = move || -> Result<Done<O>, AllocError>
        requires { IsSync R.row × IsSync T.row × IsSync G.row × IsSend O.row × (0 < vec_len seats) × All (IsFresh board.now) seats.items }
        ensures { IfOk result (λ done. IsDone (T.gives task.entry.now) board.entry.now (parts_of seats.items) done.0.items done.1) }
    { run_seats(rt, alloc, task, board, gate, seats) };
    let back = move || -> Result<Done<O>, AllocError>
        requires { IsSync R.row × IsSync T.row × IsSync G.row × IsSend O.row × (0 < vec_len others) × All (IsFresh board.now) others.items }
        ensures { IfOk result (λ done. IsDone (T.gives task.entry.now) board.entry.now (parts_of others.items) done.0.items done.1) }
    { run_seats(rt, alloc, task, board, gate, others) };
    let (first, second) = join(rt, front, back);
    let (mut outputs, mut seat) = first?;
    let (mut rest, other) = second?;
    board.join_seats(&mut seat, other);
    outputs.append(&mut rest)?;
    Ok((outputs, seat))
}

/// Does the tasks of all numbers below the board's limit, by one worker for each part of the seat. Gives their outputs in
/// the order of the numbers, and the seat, which has drawn all of them.
pub fn run_all<T: Task + Sync, G: Gate + Sync, R: Threads + Sync>(
    rt: &R,
    alloc: Global,
    task: &T,
    board: &Tickets,
    seat: TicketSeat,
    gate: &G,
) -> Result<(Vec<T::Out>, TicketSeat), AllocError>
where
    T::Out: Send,
    requires fresh { IsFresh board.now seat }
    requires whole { seat.parts ≡ board.now.seats }
    requires workers { seat.parts ≤ 64 }
    ensures list { IfOk result (λ r. IsPlainList (T.gives task.now) board.now.limit r.0.items) }
    ensures seat { IfOk result (λ r. (r.1.board ≡ board.now) × (r.1.parts ≡ board.now.seats) × (r.1.met ≡ true)) }
    ensures drew { IfOk result (λ r. EachBelow board.now.limit (drawn r.1)) }
{
    let seats = one_seat_each(alloc, board, seat)?;
    let (outputs, seat) = run_seats(rt, alloc, task, board, gate, seats)?;
    Ok((in_order(alloc, outputs)?, seat))
}
