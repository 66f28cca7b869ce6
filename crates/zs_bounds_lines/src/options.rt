//! What the bounds depend on beside the policy.

use zs_bounds::Driver;

/// What the bounds depend on beside the policy.
#[derive(Clone, Copy, Debug, PartialEq, Eq)]
pub(crate) struct Options {
    /// How long attempts take, and how long the driver waits between them.
    pub(crate) driver: Driver,
    /// At most this number of steps of each policy is looked at. `None` is the usual number, which
    /// is lower for large policies.
    pub(crate) steps: Option<u64>,
    /// The time for which attempts that begin within it are counted, in milliseconds.
    pub(crate) within: Option<u64>,
}
