//! What a seat knows of its board, and the rule of a board.
use atomic_table::{Join, Play, Split, TableRule};
use std::collections::LinkedList;

/// What a seat knows. No value of it is made.
pub struct View {
    pub limit: u32,
    /// The parts of all seats of the board.
    pub seats: u32,
    /// The parts of this seat.
    pub parts: u32,
    /// The numbers that it found.
    pub finds: LinkedList<u64>,
    /// It found a number at or past the limit, or was split off a seat that had.
    pub met: bool,
}

/// How many numbers a board gives out, and how many parts its seats share.
#[derive(Clone, Copy)]
pub struct Terms {
    pub limit: u32,
    pub seats: u32,
}

/// The rule of a board.
pub struct Law;

impl TableRule<(), View, Terms> for Law {
    ghost use Rattle.level_workers.specs.Views.{first_view};
    ghost use Rattle.level_workers.specs.Rule.{Keeps};

    ghost holds = { λ terms. Keeps terms.limit terms.seats };

    ghost first = { λ terms. first_view terms.limit terms.seats };
}

/// A step that finds a number.
pub struct Draws;

impl Play<(), View> for Draws {
    ghost use Rattle.std.specs.Prelude.{◌≡◌};
    ghost use Rattle.level_workers.specs.Rule.{Drew};

    ghost then = { λ _ before found after. (after.1 ≡ before.1) × Drew before.0 found after.0 };
}

/// A step that only looks.
pub struct Looks;

impl Play<(), View> for Looks {
    ghost use Rattle.std.specs.Prelude.{◌≡◌};
    ghost use Rattle.level_workers.specs.Rule.{Looked};

    ghost then = { λ _ before _ after. (after.1 ≡ before.1) × Looked before.0 after.0 };
}

/// One part of a seat goes to a new one.
pub struct OnePart;

impl Split<View> for OnePart {
    ghost use Rattle.level_workers.specs.Views.{less_a_part, of_one_part};

    ghost left = { less_a_part };

    ghost right = { of_one_part };
}

/// A seat takes in another.
pub struct Both;

impl Join<View> for Both {
    ghost use Rattle.level_workers.specs.Views.{joined, spent};

    ghost both = { joined };

    ghost spent = { spent };
}
