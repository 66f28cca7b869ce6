//! What one step of a schedule returns.

use crate::decision::Decision;
use zs_term::Out;

/// The result of a step, and its cost.
#[derive(Drop)]
pub struct Stepped {
    /// The output.
    pub out: Out,
    /// Whether the schedule continues, and from which moment.
    pub decision: Decision,
    /// The number of nodes that were stepped. A node that was stepped twice counts twice. Nodes
    /// that are only read are not counted: before the step each one, to join the lists; in it those
    /// from which a `map` takes a piece of an output; after it those that make the output.
    pub visits: u64,
}
