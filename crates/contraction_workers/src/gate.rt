//! A place where a test may hold the pieces of a job.

/// Told when a piece of a job begins and ends. No result depends on it. The parts are 1 for gauge
/// couplings, 2 for Yukawa couplings, 3 for quartic couplings and 4 for what is left over.
pub trait Gate: Sync {
    /// A piece begins.
    fn enter(&self, part: u32, piece: u32);

    /// A piece ends.
    fn leave(&self, part: u32, piece: u32);
}

/// A gate that does nothing.
#[derive(Clone, Copy, Debug)]
pub struct NoGate;

impl Gate for NoGate {
    fn enter(&self, _part: u32, _piece: u32) {}

    fn leave(&self, _part: u32, _piece: u32) {}
}
