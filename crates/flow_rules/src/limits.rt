//! The limits of a port.

/// The number of Rx queues (1 to 16), and of rules that may be in effect (1 to 65,536).
#[derive(Clone, Copy, Debug, PartialEq, Eq)]
pub struct Limits {
    pub rxq: u8,
    pub flow_max: u32,
}
