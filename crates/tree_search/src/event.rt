//! What a worker of a world does in one step.

/// One step of one worker. The numbers name workers.
#[derive(Clone, Copy)]
pub enum Event {
    /// The worker starts on the next task.
    Take(u64),
    /// The worker reads the shared number.
    Look(u64),
    /// The worker takes its top node.
    Work(u64),
    /// The worker raises the shared number to the value of its best.
    Tell(u64),
    /// The first worker gives its bottom node to the second.
    Give(u64, u64),
}
