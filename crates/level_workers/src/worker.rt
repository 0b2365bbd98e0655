//! One worker: it draws numbers and does their tasks until it meets the limit.
ghost use Rattle.std.specs.Prelude.{IfOk};
ghost use Rattle.level_workers.specs.Seats.{IsFresh};
ghost use Rattle.level_workers.specs.Outputs.{IsDone};

use crate::board::{TicketSeat, Tickets};
use crate::task::{Gate, Task};
use std::alloc::{AllocError, Global};

// Outputs with their numbers, and the seat that drew these.
pub(crate) type Done<O> = (Vec<(u32, O)>, TicketSeat);

pub(crate) fn do_tasks<T: Task, G: Gate>(
    alloc: Global,
    task: &T,
    board: &Tickets,
    gate: &G,
    mut seat: TicketSeat,
) -> Result<Done<T::Out>, AllocError>
    requires { IsFresh board.now seat }
    ensures { IfOk result (λ done. IsDone (T.gives task.now) board.now seat.parts done.0.items done.1) }
{
    let mut outputs = Vec::new(alloc);
    while let Some(number) = board.draw(&mut seat) {
        gate.begun(number);
        let output = task.run(number);
        gate.done(number);
        outputs.push((number, output?))?;
    }
    Ok((outputs, seat))
}
