//! The parts of the machine.
use ifmap_graph::Graph;
use ifmap_tellings::{Sessions, Standing};

/// The graph, the live sessions, and the subscriptions that stand, in their order.
#[derive(Drop)]
pub struct Parts {
    pub graph: Graph,
    pub sessions: Sessions,
    pub standing: Vec<Standing>,
}
