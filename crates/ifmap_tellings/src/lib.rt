//! What an event has changed and not yet told: news are queued for sessions, and where a queue is too
//! big one error takes the place of all.
#![tactic(auto)]

mod flagging;
mod overflowing;
mod queueing;
pub mod tellings;

pub use ifmap_standing::laws::{
    same_links_keep_subscriptions, same_marks_keep_subscriptions, ways_stay,
};
pub use ifmap_standing::telling::too_big_item;
pub use ifmap_standing::{
    Answer, Ask, Author, Event, GraphChange, NewsAndWays, PublishOp, Reply, Request,
    SESSION_SECONDS, Sessions, Standing, SubscribeOp, Subscribed, Subscription, Ways, Who,
    clients_fold_fresh_results, fresh, named_size, numbers_keep_walks, plan,
    publishing_keeps_graphs, retract, retracting_keeps_graphs, settle, subscribe, take_change_back,
    tell_change, write_reply,
};
pub use tellings::{
    Pending, Telling, count_told, nothing_pending, queue_news, tell_alone, tell_sessions,
};
