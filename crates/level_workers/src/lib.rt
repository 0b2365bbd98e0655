//! Numbered tasks that are done by workers. Seats at a board draw numbers below a limit, each number once, and the workers
//! of a level draw the tasks that they do.
#![tactic(auto)]

mod board;
mod laws;
mod opening;
mod order;
mod run;
mod task;
mod view;
mod worker;

pub use board::{TicketSeat, Tickets};
pub use laws::{
    a_draw_finds_its_place, a_seat_finds_in_order, each_number_is_found_once,
    outputs_by_number_are_the_plain_list, seats_past_the_limit_drew_all, the_word_stays_low,
};
pub use opening::tickets;
pub use run::run_all;
pub use task::{Gate, NoGate, Task};

#[cfg(test)]
mod tests;
