//! Certificates as trees: lines from pieces, the path through a tree, readers and writers of trees over any rule.
#![tactic(auto)]

mod digits;
mod either;
mod either_machine;
mod feeder;
mod leaves;
mod machine;
mod path;
mod pen;
mod progress;
mod rule;
mod write;

pub use digits::write_set;
pub use either::EitherLeaves;
pub use either_machine::EitherMachine;
pub use feeder::Feeder;
pub use leaves::Leaves;
pub use machine::{LineMachine, MOST_LINE};
pub use path::Path;
pub use pen::Pen;
pub use progress::TreeProgress;
pub use rule::{LINE_ROOM, TreeRule};
pub use write::{write_proof, write_tree};
