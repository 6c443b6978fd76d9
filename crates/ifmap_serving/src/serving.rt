//! Stands, served beside each other over one hall.
ghost use Rattle.std.specs.Prelude.{◌≡◌, ◌≢◌, ◌≤◌, ◌<◌, ◌==◌, ℕ, IfOk, OnOk, OnErr, length, slice_index_or};
ghost use Rattle.std.specs.List.{list_any};
ghost use Rattle.ifmap_hall.specs.Passes.{IsOf, view_of};
ghost use Rattle.ifmap_io.specs.Limits.{most_workers};
ghost use Rattle.ifmap_io.specs.Statuses.{link_fault_status, no_memory_status};
ghost use Rattle.ifmap_serving.specs.declared.stands.Stand.{Stand};
ghost use Rattle.ifmap_serving.specs.Stands.{AreReady, AreServed, AreUnserved, HasUnusedPass, OpensServer};
ghost use Rattle.ifmap_serving.specs.Stands.{IsStandServed, ServerHall, WorksBy, status_of_stands, words_at};
ghost use Rattle.ifmap_serving.specs.Works.{door_seen};

use crate::stands::Stand;
use crate::working::work;
use ifmap_desks::{Core, CoreMachine, Gate, PassDesk, SESSION_SECONDS, silent_passes_recall};
use ifmap_hall::{Hall, Pass};
use ifmap_io::statuses::{DONE, LINK_FAULT, NO_MEMORY};
use ifmap_io::{Clock, Door};
use rand_chacha::ChaCha20Rng;
use rand_core::SeedableRng;
use std::alloc::{AllocError as NoMemory, Global};
use std::sync::Wait;
use std::thread;
use std::thread::Threads;

/// What the entries that the server keeps beside its base may weigh at most, in bytes.
pub const MOST_KEPT: u64 = 500_000_000;

/// What one event may weigh at most, in bytes.
pub const GREATEST_WEIGHT: u64 = 80_001_000;

// What all workers have in common.
#[derive(Drop)]
struct Common<'a, R, C> {
    rt: &'a R,
    alloc: Global,
    hall: &'a Hall<CoreMachine>,
    key: &'a [u8; 32],
    clock: &'a C,
}

/// Serves the doors of 1 to 256 stands, each by a worker in a thread of its own, until each door
/// has no link left or fails. All workers ask one hall, which begins with an empty core. The random
/// words of a worker are those of the key's stream whose number is its place. The status is 6 at
/// want of memory for the hall and its passes, and then no door is touched; 7 where a door failed;
/// and else 0.
pub fn serve<R: Threads + Wait + Sync, D: Door + Send, C: Clock + Sync, G: Gate + Send>(
    rt: &R,
    alloc: Global,
    key: [u8; 32],
    stands: &mut [Stand<D, G>],
    clock: &C,
) -> u8
    requires some { 1 ≤ length stands.old }
    requires few { length stands.old ≤ most_workers }
    ensures unserved { result ≡ no_memory_status → AreUnserved stands.old stands.new }
    ensures served { result ≢ no_memory_status
        → AreServed (C.gives clock.now) (door_seen D.links D.faults) key stands.old stands.new }
    ensures status { result ≢ no_memory_status → result ≡ status_of_stands stands.new }
{
    let Ok((hall, mut pass)) = begin_hall(alloc) else {
        return NO_MEMORY;
    };
    let Ok(()) = hand_out(&hall, &mut pass, stands) else {
        return NO_MEMORY;
    };
    run_workers(rt, alloc, &hall, &key, clock, stands);
    status_of_stands(stands)
}

// The hall of a server, and its first pass.
fn begin_hall(alloc: Global) -> Result<(Hall<CoreMachine>, Pass<CoreMachine>), NoMemory>
    ensures hall { IfOk result (λ r. IsOf r.0 r.1) }
    ensures view { IfOk result (λ r. OpensServer (view_of r.1)) }
{
    let machine = CoreMachine {
        core: Core::new(alloc, SESSION_SECONDS),
    };
    let base = CoreMachine {
        core: Core::new(alloc, SESSION_SECONDS),
    };
    Hall::begin(alloc, machine, base, MOST_KEPT, GREATEST_WEIGHT)
}

// Gives each stand its place and a pass.
fn hand_out<D, G>(
    hall: &Hall<CoreMachine>,
    pass: &mut Pass<CoreMachine>,
    stands: &mut [Stand<D, G>],
) -> Result<(), NoMemory>
    requires hall { IsOf hall.now pass.old }
    requires view { OpensServer (view_of pass.old) }
    requires few { length stands.old ≤ most_workers }
    ensures ok { OnOk result (AreReady hall.now stands.old stands.new) }
    ensures err { OnErr result (AreUnserved stands.old stands.new) }
{
    let mut place = 0;
    for stand in stands {
        let own = hall.split(pass)?;
        stand.pass = Some(own);
        stand.place = place;
        place += 1;
    }
    Ok(())
}

// A hall that workers share, behind a type of which no more is known: that it can be shared is then a
// bound, and need not be found out of all that the core is made of.
trait Shared {
    ghost hall: { Self → ServerHall };

    fn hall(&self) -> &Hall<CoreMachine>
        ensures { result.now ≡ hall self.now };
}

impl Shared for Hall<CoreMachine> {
    ghost hall = { λ hall. hall };

    fn hall(&self) -> &Hall<CoreMachine> {
        self
    }
}

// Serves each stand by a worker of its own.
fn run_workers<R, X: Shared + Sync, D: Door + Send, C: Clock + Sync, G: Gate + Send>(
    rt: &R,
    alloc: Global,
    shared: &X,
    key: &[u8; 32],
    clock: &C,
    stands: &mut [Stand<D, G>],
)
where
    R: Threads + Wait + Sync,
    requires some { 1 ≤ length stands.old }
    requires ready { (i : ℕ) (d : Stand D G) → i < length stands.old
        → HasUnusedPass (X.hall shared.now) (slice_index_or stands.old i d) }
    ensures { (i : ℕ) (d : Stand D G) → i < length stands.old
        → IsStandServed (C.gives clock.now) (door_seen D.links D.faults) key.now
        (X.hall shared.now) (slice_index_or stands.old i d).place
        (slice_index_or stands.old i d) (slice_index_or stands.new i d) }
{
    let workers = stands.len();
    thread::for_each_mut(
        rt,
        stands,
        workers,
        &|_, stand: &mut Stand<D, G>|
            requires { HasUnusedPass (X.hall shared.now) stand.now }
            ensures { IsStandServed (C.gives clock.entry.now) (door_seen D.links D.faults)
                key.entry.now (X.hall shared.entry.now)
                stand.entry.now.place stand.entry.now stand.exit.now }
        {
            let common = Common {
                rt,
                alloc,
                hall: shared.hall(),
                key,
                clock,
            };
            serve_stand(&common, stand)
        },
    );
}

// Works at the stand.
fn serve_stand<R: Wait, D: Door, C: Clock, G: Gate>(
    common: &Common<'_, R, C>,
    stand: &mut Stand<D, G>,
)
    requires { HasUnusedPass common.now.hall.now stand.old }
    ensures { IsStandServed (C.gives common.now.clock.now) (door_seen D.links D.faults)
        common.now.key.now common.now.hall.now stand.old.place stand.old stand.new }
{
    let Stand {
        door,
        gate,
        pass,
        place,
        status,
    } = stand;
    let Some(pass) = pass else {
        unreachable!();
    };
    let mut words = words_at(*common.key, *place);
    *status = serve_pass(common, pass, door, &mut words, gate);
}

// Works at a door by a pass of the hall.
fn serve_pass<R: Wait, D: Door, C: Clock, G: Gate>(
    common: &Common<'_, R, C>,
    pass: &mut Pass<CoreMachine>,
    door: &mut D,
    words: &mut ChaCha20Rng,
    gate: &mut G,
) -> u8
    requires hall { IsOf common.now.hall.now pass.old }
    requires view { OpensServer (view_of pass.old) }
    ensures hall { IsOf common.now.hall.now pass.new }
    ensures works { WorksBy (C.gives common.now.clock.now) common.now.hall.now words.old
        (view_of pass.new) (door_seen D.links D.faults door.old)
        (door_seen D.links D.faults door.new) result }
{
    silent_passes_recall();
    let mut desk = PassDesk::new(common.rt, common.alloc, common.hall, pass);
    work(
        common.rt,
        common.alloc,
        &mut desk,
        door,
        common.clock,
        words,
        gate,
    )
}

// The key's stream of this number, from its start.
fn words_at(key: [u8; 32], number: u32) -> ChaCha20Rng
    ensures { result ≡ words_at key number }
{
    let mut words = ChaCha20Rng::from_seed(key);
    words.set_stream(u64::from(number));
    words
}

// 7 where a stand has that status, and else 0.
fn status_of_stands<D, G>(stands: &[Stand<D, G>]) -> u8
    ensures { result ≡ status_of_stands stands.now }
{
    if has_failed(stands) { LINK_FAULT } else { DONE }
}

// The door of a stand failed.
fn has_failed<D, G>(stands: &[Stand<D, G>]) -> bool
    ensures { result ≡ list_any (λ (s : Stand D G). s.status == link_fault_status) stands.now }
{
    stands.iter().any(|stand| stand.status == LINK_FAULT)
}
