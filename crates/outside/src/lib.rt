//! The world outside the program: folders to read, a place to write to, what each call on them may
//! answer, and why. Beside the traits stand forms that live in memory.
#![tactic(auto)]

mod asked_tree;
mod chunk_sink;
mod list;
mod memory_sink;
mod memory_tree;
mod plan;
mod question;
mod root;
mod roots;
mod sink;
mod sure_sink;
mod sure_tree;
mod text;
mod tree;

pub use asked_tree::AskedTree;
pub use chunk_sink::ChunkSink;
pub use list::List;
pub use memory_sink::MemorySink;
pub use memory_tree::MemoryTree;
pub use question::Question;
pub use root::Root;
pub use sink::{Sink, SinkFailed};
pub use sure_sink::SureSink;
pub use sure_tree::SureTree;
pub use text::Text;
pub use tree::{Tree, TreeError};
