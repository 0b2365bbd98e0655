//! A new board with its first seat.
ghost use Rattle.std.specs.Prelude.{◌≡◌, ◌≤◌, IfOk};
ghost use Rattle.level_workers.specs.Seats.{fresh};

use crate::board::{TicketSeat, Tickets};
use crate::view::Terms;
use atomic_table::Table;
use std::alloc::{AllocError, Global};

/// A board for the numbers below `limit`, and its first seat, which has all its parts.
pub fn tickets(alloc: Global, limit: u32, seats: u32) -> Result<(Tickets, TicketSeat), AllocError>
    requires { 1 ≤ seats }
    ensures board { IfOk result (λ r. (r.0.limit ≡ limit) × (r.0.seats ≡ seats)) }
    ensures seat { IfOk result (λ r. r.1 ≡ fresh r.0 seats) }
{
    let (table, seat) = Table::of_words(alloc, &[0], &Terms { limit, seats })?;
    let board = Tickets { table, limit };
    let seat = TicketSeat {
        seat,
        parts: seats,
        met: false,
    };
    Ok((board, seat))
}
