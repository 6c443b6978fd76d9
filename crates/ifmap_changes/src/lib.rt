//! Changes of the graph while an event is answered: all subscriptions are told of each, and it can be
//! taken back.
#![tactic(auto)]

pub mod asking;
pub mod changes;
pub mod graph_changes;
pub mod laws;
pub mod parts;

pub use asking::Asking;
pub use changes::Made;
pub use ifmap_graph::{Graph, View};
pub use ifmap_tellings::tellings::{
    Pending, Telling, count_told, nothing_pending, tell_alone, tell_sessions,
};
pub use ifmap_tellings::{
    Answer, Ask, Event, PublishOp, Reply, Request, SESSION_SECONDS, Sessions, Standing,
    SubscribeOp, Subscribed, Subscription, Who, clients_fold_fresh_results, fresh, named_size,
    same_links_keep_subscriptions, subscribe, too_big_item, ways_stay, write_reply,
};
pub use parts::Parts;
