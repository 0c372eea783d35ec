//! What is told of workers and the editor while they run.

/// Is told when a worker begins a proposal and when the editor makes an edit, while the lock is free. It may hold the caller
/// back, and so order the threads of a run.
pub trait Gate {
    /// The worker has looked up the work on the tile and is about to propose.
    fn pass(&self, worker: u32, tile: u32);

    /// The editor is about to make the edit at `k`, counted from 0.
    fn edit(&self, k: u64);
}

/// A gate that holds nobody back.
#[derive(Clone, Copy, Debug, PartialEq, Eq)]
pub struct OpenGate;

impl Gate for OpenGate {
    fn pass(&self, _worker: u32, _tile: u32) {}

    fn edit(&self, _k: u64) {}
}
