//! The options that the program's words give.
/// The names and numbers that the words give.
#[derive(Clone, Copy)]
pub(crate) struct Options<'a> {
    /// The script's name.
    pub(crate) script: &'a str,
    /// The capture's name.
    pub(crate) capture: Option<&'a str>,
    /// The transmit file's name.
    pub(crate) transmit: Option<&'a str>,
    /// The number of Rx queues.
    pub(crate) rxq: u8,
    /// The number of workers, or 0 for the serial order.
    pub(crate) cores: u8,
    /// How many rules may be in effect.
    pub(crate) flow_max: u32,
}
