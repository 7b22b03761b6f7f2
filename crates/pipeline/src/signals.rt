// What a clock shows of its stages.
ghost use Rattle.std.specs.Prelude.{◌≡◌};
ghost use Rattle.pipeline.specs.Signals.{forwarding_number};

/// Where Execute takes a source value from.
#[derive(Clone, Copy, PartialEq, Eq, Default, Debug)]
pub enum Forwarding {
    /// What Decode read.
    #[default]
    Register = 0,
    /// The value that Writeback writes in this clock.
    Writeback = 1,
    /// The value in the Memory slot.
    Memory = 2,
}

impl Forwarding {
    /// The code by which users know it: 0, 1 or 2.
    pub fn number(self) -> u8
        ensures { result ≡ forwarding_number self }
    {
        self as u8
    }
}

/// The six signals of a clock. In the default, nothing is to be reported.
#[derive(Clone, Copy, PartialEq, Eq, Default, Debug)]
pub struct Signals {
    /// Decode waits for a load.
    pub stall: bool,
    /// A write of register 15 is under way, so that nothing is fetched.
    pub write_pending: bool,
    pub branch_taken: bool,
    /// Register 15 is written back.
    pub pc_written: bool,
    pub first: Forwarding,
    pub second: Forwarding,
}
