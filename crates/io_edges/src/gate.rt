//! A gate: where a test may hold packet workers.

/// Calls that a packet worker makes around its work. A test holds workers here; they change nothing.
pub trait Gate {
    /// Comes before worker `worker` classifies frame `number`.
    fn before_classify(&self, worker: u32, number: u32);

    /// Comes behind the entry of frame `number` by worker `worker`.
    fn after_commit(&self, worker: u32, number: u32);
}

/// The gate that holds nobody.
#[derive(Clone, Copy, Debug, Default)]
pub struct OpenGate;

impl Gate for OpenGate {
    fn before_classify(&self, _worker: u32, _number: u32) {}

    fn after_commit(&self, _worker: u32, _number: u32) {}
}
