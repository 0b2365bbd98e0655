//! Lines of output: what a line says, its text, and the order in which lines are written.
#![tactic(auto)]

mod line;
mod order;
mod text;

pub use line::{Line, LineKind};
pub use order::{lines_are_ordered, only_equal_lines_tie, sort_lines};
pub use text::{a_text_line_is_one_line, printable_bytes_are_kept, push_text_line, text_line};
