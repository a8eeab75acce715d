/// What a worker passes between taking an entry and its first statement, while it holds no lock. It serves tests.
pub trait Gate {
    /// `rows` is the number of rows that the worker has prepared for that entry, 0 where it has prepared none.
    fn at(&self, worker: u32, entry: u32, rows: u64);
}

/// A gate that does nothing.
#[derive(Clone, Copy)]
pub struct OpenGate;

impl Gate for OpenGate {
    fn at(&self, _worker: u32, _entry: u32, _rows: u64) {}
}
