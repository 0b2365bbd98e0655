//! Boards from which numbers are drawn, and seats that draw them.
ghost use Rattle.std.specs.Prelude.{◌≡◌, ◌≤◌, true, false, ◌++◌, None, IfNone};
ghost use Rattle.level_workers.specs.Numbers.{NoneTwice};
ghost use Rattle.level_workers.specs.Seats.{Finds, one_part, without_part, with_seat, DrewAllIfWhole};

use crate::view::{Both, Draws, Law, Looks, OnePart, Terms, View};
use atomic_table::{Seat, Table};
use std::alloc::Global;
use std::marker::Model;

/// A board from which seats draw the numbers below a limit, each once.
#[derive(Drop)]
pub struct Tickets {
    pub(crate) table: Table<(), View, Terms, Law, Global>,
    pub(crate) limit: u32,
}

impl Model for Tickets {
    ghost use Rattle.std.specs.Prelude.{◌≡◌, ◌<◌, ◌^◌};
    ghost use Rattle.level_workers.specs.Seats.{Board};

    ghost Value = { Board };

    ghost view = { λ t. record { id = t.table.shared.table_id; limit = t.table.shared.key.limit; seats = t.table.shared.key.seats } };

    ghost invariant = { λ t. (t.limit ≡ t.table.shared.key.limit) × (t.table.shared.table_id.words ≡ 1) × (t.table.shared.key.limit < 2 ^ 32) × (t.table.shared.key.seats < 2 ^ 32) };
}

/// A seat at a board. It moves into the thread that draws with it.
#[derive(Drop)]
pub struct TicketSeat {
    pub(crate) seat: Seat<(), View>,
    pub(crate) parts: u32,
    pub(crate) met: bool,
}

impl Model for TicketSeat {
    ghost use Rattle.std.specs.Prelude.{◌≡◌, ◌<◌, []};
    ghost use Rattle.level_workers.specs.Seats.{Held, held};

    ghost Value = { Held };

    ghost view = { λ s. held s.seat.table_id s.seat.me.0 };

    ghost invariant = { λ s. (s.parts ≡ s.seat.me.0.parts) × (s.met ≡ s.seat.me.0.met) × (0 < s.parts) × (s.seat.me.1 ≡ []) };
}

impl TicketSeat {
    /// How many parts of its board it has.
    pub fn parts(&self) -> u32
        ensures { result ≡ self.now.parts }
    {
        self.parts
    }
}

impl Tickets {
    /// Draws the next number: it is the answer if it is below the limit. A seat that was answered None once has met the
    /// limit, and draws no more.
    pub fn draw(&self, seat: &mut TicketSeat) -> Option<u32>
        requires { seat.old.board ≡ self.now }
        ensures same { (seat.new.board ≡ seat.old.board) × (seat.new.parts ≡ seat.old.parts) }
        ensures found { seat.old.met ≡ false → Finds seat.old result seat.new }
        ensures met { seat.old.met ≡ true → (result ≡ None) × (seat.new ≡ seat.old) }
        ensures none { IfNone result (seat.new.met ≡ true) }
        ensures all { seat.old.met ≡ false → DrewAllIfWhole seat.new }
    {
        if seat.met {
            return None;
        }
        let found = self.table.shared.fetch_add::<Draws>(&mut seat.seat, 0, 1);
        if found < u64::from(self.limit) {
            Some(found as u32)
        } else {
            seat.met = true;
            None
        }
    }

    /// A new seat with one part of this one.
    pub fn split(&self, seat: &mut TicketSeat) -> TicketSeat
        requires board { seat.old.board ≡ self.now }
        requires parts { 2 ≤ seat.old.parts }
        ensures new { result ≡ one_part seat.old }
        ensures old { seat.new ≡ without_part seat.old }
    {
        let part = self.table.shared.split_seat::<OnePart>(&mut seat.seat);
        seat.parts -= 1;
        TicketSeat {
            seat: part,
            parts: 1,
            met: seat.met,
        }
    }

    /// Joins a seat to another. Their finds share no number.
    pub fn join_seats(&self, into: &mut TicketSeat, other: TicketSeat)
        requires into { into.old.board ≡ self.now }
        requires other { other.board ≡ self.now }
        ensures both { into.new ≡ with_seat into.old other }
        ensures apart { NoneTwice (into.old.finds ++ other.finds) }
        ensures all { DrewAllIfWhole into.new }
    {
        let TicketSeat { seat, parts, met } = other;
        self.table.shared.join_seat::<Both>(&mut into.seat, seat);
        self.table.shared.load::<Looks>(&mut into.seat, 0);
        into.parts += parts;
        into.met = into.met || met;
    }
}
