//! What becomes of the names of a subscribe, once all is ready.
ghost use Rattle.std.specs.Prelude.{◌≡◌, ◌≤◌, ◌+◌, ◌++◌, ◌∷◌, List, [], Some, true, false, IfErr, IfOk, IfSome, OnErr, filter, length, map, not, option_to_list, slice_get, vec_capacity, vec_len};
ghost use Rattle.std.specs.List.{insert, list_any};
ghost use Rattle.std.specs.List.Sorted.{IsStrictlySortedBy};
ghost use Rattle.ifmap_changes.specs.Between.{IsSteady};
ghost use Rattle.ifmap_changes.specs.ifmap_graph.Seen.{StaysLean, rows_now};
ghost use Rattle.ifmap_changes.specs.ifmap_machine.State.{standing_order};
ghost use Rattle.ifmap_changes.specs.ifmap_machine.Subscribing.{is_of_name};
ghost use Rattle.ifmap_changes.specs.ifmap_machine.Telling.{tell_session};
ghost use Rattle.ifmap_changes.specs.ifmap_plans.Placing.{put};
ghost use Rattle.ifmap_changes.specs.ifmap_session.Sessions.{Changes, IsLive, spare_of};
ghost use Rattle.ifmap_changes.specs.ifmap_standing.declared.standing.Standing.{Standing};
ghost use Rattle.ifmap_changes.specs.ifmap_standing.Standing.{standing_of};
ghost use Rattle.ifmap_subscribes.specs.declared.renamings.Renaming.{Renaming};
ghost use Rattle.ifmap_subscribes.specs.Renamings.{AreRenamed, CanRenameEach, KeepsNumbered, LetsNumbersGo, StandsAmong, starts_by, order_to_name, stand_where};

use ifmap_changes::parts::Parts;
use ifmap_changes::{Graph, Sessions, Standing, same_links_keep_subscriptions};
use ifmap_elem::{Many, Text};
use ifmap_ident::laws::bytes_tell_identifiers_apart;
use ifmap_search::PollItem;
use std::cmp::Ordering;

/// What becomes of one name: what is to be told of it goes, and its subscription too; then an item
/// is to be told, and a subscription stands, where there are.
#[derive(Drop)]
pub struct Renaming {
    /// The name.
    pub name: Text,
    /// What is to be told of it.
    pub item: Option<PollItem>,
    /// The subscription that is to stand under it.
    pub standing: Option<Standing>,
}

/// Lets go of the numbers that subscriptions hold which are not to stand. It takes no memory.
pub fn release_all(graph: &mut Graph, renamings: Many<Renaming>)
    requires { (standing : List Standing) × IsSteady graph.old (standing ++ starts_by renamings) }
    ensures steady { (standing : List Standing)
        → IsSteady graph.old (standing ++ starts_by renamings) → IsSteady graph.new standing }
    ensures lets_go { LetsNumbersGo graph.old graph.new }
{
    for renaming in renamings.0 {
        release_where(graph, &renaming);
    }
}

// Lets go of the number that the subscription of a renaming holds, where there is one. It takes no
// memory.
fn release_where(graph: &mut Graph, renaming: &Renaming)
    requires { (more : List Standing)
        × IsSteady graph.old (option_to_list renaming.now.standing ++ more) }
    ensures steady { (more : List Standing)
        → IsSteady graph.old (option_to_list renaming.now.standing ++ more)
        → IsSteady graph.new more }
    ensures lets_go { LetsNumbersGo graph.old graph.new }
{
    if let Some(standing) = &renaming.standing {
        release_start(graph, standing);
    }
}

/// Lets go of the number that a subscription holds which does not stand any more, nor is to. It
/// takes no memory.
pub fn release_start(graph: &mut Graph, one: &Standing)
    requires { (more : List Standing) × IsSteady graph.old (one.now ∷ more) }
    ensures steady { (more : List Standing) → IsSteady graph.old (one.now ∷ more)
        → IsSteady graph.new more }
    ensures lets_go { LetsNumbersGo graph.old graph.new }
{
    bytes_tell_identifiers_apart();
    same_links_keep_subscriptions();
    graph.is_view();
    graph.release(one.subscription.region.start);
    graph.is_view();
}

/// The names of a session are renamed, one after the other. It takes no memory.
pub fn rename_each(parts: &mut Parts, serial: u64, renamings: Many<Renaming>)
    requires can { CanRenameEach serial renamings parts.old }
    ensures renamed { AreRenamed serial renamings parts.old parts.new }
    ensures rest { CanRenameEach serial [] parts.new }
{
    for renaming in renamings.0 {
        rename_one(parts, serial, renaming);
    }
    parts.sessions.is_table();
}

// One name of a session is renamed. It takes no memory.
fn rename_one(parts: &mut Parts, serial: u64, renaming: Renaming)
    requires can { (rest : List Renaming) × CanRenameEach serial (renaming ∷ rest) parts.old }
    ensures renamed { AreRenamed serial (renaming ∷ []) parts.old parts.new }
    ensures rest { (rest : List Renaming) → CanRenameEach serial (renaming ∷ rest) parts.old
        → CanRenameEach serial rest parts.new }
{
    parts.sessions.is_table();
    let Renaming {
        name,
        item,
        standing,
    } = renaming;
    parts.sessions.drop_name(serial, &name);
    push_where(&mut parts.sessions, serial, item);
    drop_standing(&mut parts.graph, &mut parts.standing, serial, &name);
    put_where(&mut parts.standing, standing);
}

// Queues an item in a session, where there is one. It takes no memory.
fn push_where(sessions: &mut Sessions, serial: u64, item: Option<PollItem>)
    requires live { IsLive serial sessions.old.live }
    requires room { length (option_to_list item) ≤ spare_of serial sessions.old.spare }
    ensures changes { Changes serial (tell_session (option_to_list item)) sessions.old
        sessions.new }
    ensures spare { spare_of serial sessions.new.spare + length (option_to_list item)
        ≡ spare_of serial sessions.old.spare }
{
    if let Some(item) = item {
        sessions.push(serial, item);
    }
}

// The subscription of a name of a session goes, where there is one. It takes no memory.
fn drop_standing(graph: &mut Graph, standing: &mut Vec<Standing>, serial: u64, name: &Text)
    requires rising { IsStrictlySortedBy standing_order (map standing_of standing.old.items) }
    requires steady { (more : List Standing) × IsSteady graph.old (standing.old.items ++ more) }
    ensures standing { standing.new.items
        ≡ filter (λ x. not (is_of_name serial name.now (standing_of x))) standing.old.items }
    ensures steady { (more : List Standing) → IsSteady graph.old (standing.old.items ++ more)
        → IsSteady graph.new (standing.new.items ++ more) }
    ensures rows { rows_now graph.new ≡ rows_now graph.old }
    ensures lean { StaysLean graph.old graph.new }
    ensures kept { KeepsNumbered graph.old graph.new }
    ensures len { vec_len standing.new ≤ vec_len standing.old }
    ensures capacity { vec_capacity standing.new ≡ vec_capacity standing.old }
{
    if let Ok(at) = place_of_name(standing, serial, name) {
        let former = standing.remove(at);
        release_start(graph, &former);
    }
}

/// Where the subscription of a name of a session stands, or is to stand. It takes no memory.
pub fn place_of_name(standing: &[Standing], serial: u64, name: &Text) -> Result<usize, usize>
    requires { IsStrictlySortedBy standing_order (map standing_of standing.now) }
    ensures found { IfOk result (λ at. (x : Standing) × (slice_get standing.now at ≡ Some x)
        × (is_of_name serial name.now (standing_of x) ≡ true)) }
    ensures only { OnErr result (list_any
        (λ x. is_of_name serial name.now (standing_of x)) standing.now
        ≡ false) }
    ensures gap { IfErr result (λ at. (x : Standing) → x.serial ≡ serial → x.name ≡ name.now
        → map standing_of (insert standing.now at x)
        ≡ put standing_order (standing_of x) (map standing_of standing.now)) }
    ensures within { IfErr result (λ at. at ≤ length standing.now) }
{
    standing.binary_search_by(|other| order_to_name(other, serial, name))
}

// How a subscription stands to that of a session under a name.
fn order_to_name(one: &Standing, serial: u64, name: &Text) -> Ordering
    ensures { result ≡ order_to_name serial name.now one.now }
{
    one.order(serial, name)
}

// A subscription stands at its place, where there is one: none has its name, and there is room. It
// takes no memory.
fn put_where(standing: &mut Vec<Standing>, begun: Option<Standing>)
    requires rising { IsStrictlySortedBy standing_order (map standing_of standing.old.items) }
    requires free { IfSome begun (λ x. list_any
        (λ other. is_of_name x.serial x.name (standing_of other))
        standing.old.items ≡ false) }
    requires room { vec_len standing.old + length (option_to_list begun)
        ≤ vec_capacity standing.old }
    ensures standing { map standing_of standing.new.items
        ≡ stand_where begun (map standing_of standing.old.items) }
    ensures among { StandsAmong begun standing.old.items standing.new.items }
    ensures len { vec_len standing.new ≡ vec_len standing.old + length (option_to_list begun) }
    ensures capacity { vec_capacity standing.new ≡ vec_capacity standing.old }
{
    if let Some(begun) = begun {
        let place = place_of_name(standing, begun.serial, &begun.name).unwrap_err();
        standing.insert(place, begun).unwrap();
    }
}
