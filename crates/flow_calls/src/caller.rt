//! Who makes a call or lets a frame pass.

/// A caller: the shell is 0, the agent of flow queue q (0 to 7) is 1 + q, packet worker w (0 to 15) is 9 + w.
#[derive(Clone, Copy, Debug, Default, PartialEq, Eq)]
pub struct Caller(pub u8);

impl Caller {
    /// The shell, which runs the script's lines.
    pub const SHELL: Caller = Caller(0);

    /// Worker 0, which leads a phase.
    pub const LEAD: Caller = Caller(9);
}
