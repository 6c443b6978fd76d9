//! The operations of a subscribe: they are made ready from left to right, all or none, and then carried out.
#![tactic(auto)]

pub mod names;
pub mod readying;
pub mod renamings;
pub mod starting;

pub use ifmap_changes::asking::Asking;
pub use ifmap_changes::changes::{Made, flag_session, flag_sessions, settle_made, undo_made};
pub use ifmap_changes::graph_changes::{
    Publication, publish, take_away, take_away_kept, take_away_one,
};
pub use ifmap_changes::laws::what_is_back_is_sound;
pub use ifmap_changes::parts::Parts;
pub use ifmap_changes::{
    Answer, Ask, Event, Graph, Pending, PublishOp, Reply, Request, SESSION_SECONDS, Standing,
    SubscribeOp, Who, clients_fold_fresh_results, count_told, fresh, nothing_pending,
    same_links_keep_subscriptions, tell_alone, tell_sessions, ways_stay, write_reply,
};
pub use readying::{Readying, SubscribeError};
pub use renamings::Renaming;
