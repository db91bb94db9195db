// Gates, at which each take of each worker can be watched, or the worker held for a while. Tests use them.

/// Stands before each take of each worker.
pub trait Gate: Sync {
    /// The pool calls it just before each take. The turns of a worker in a round count from 0, so
    /// at a pass with turn t exactly t takes of this worker have answered a block.
    fn pass(&self, worker: u32, turn: u64);
}
