//! The program `mapd`: its words, the outside, and one call.
#![tactic(auto)]

mod outside;

ghost use Rattle.std.specs.Prelude.{◌≡◌, IfErr, IfOk, List, [], map, string_bytes};
ghost use Rattle.std.specs.Process.{exit_status};
ghost use Rattle.ifmap_io.specs.Statuses.{link_fault_status, no_memory_status};
ghost use Rattle.ifmap_program.specs.Runs.{Runs, outside_seen};
ghost use Rattle.ifmap_program.specs.ifmap_server.Ends.{source_and_sink};
ghost use Rattle.ifmap_serving.specs.declared.stands.Stand.{Stand};
ghost use Rattle.ifmap_serving.specs.Works.{door_seen};
ghost use Rattle.mapd.specs.Done.{IsRunDone, RunsOver, ServesOrBeginsNone};

use crate::outside::{OpenGate, ProgressLine, random_key, stands_at};
use ifmap_command::{Form, form_of};
use ifmap_drill::{NoProgress, Progress};
use ifmap_elem::Text;
use ifmap_io::statuses::{LINK_FAULT, NO_MEMORY};
use ifmap_io::{Clock, Door, Sink, Source, StdSink, StdSource, SystemClock, TcpDoor};
use ifmap_program::{RunSetting, run};
use ifmap_serving::Stand;
use ifmap_words::words_of;
use std::alloc::AllocError as NoMemory;
use std::io::IsTerminal;
use std::net::{Net, TcpListener, TcpStream};
use std::process::ExitCode;
use std::random::RandomSource;
use std::sync::Wait;
use std::thread::Threads;
use std::{env, time};

fn main(rt: HostRuntime) -> ExitCode {
    let mut source = StdSource::new(rt.stdin());
    let mut sink = StdSink::new(rt.stdout());
    let mut progress = ProgressLine::new(&rt, rt.stderr().is_terminal());
    let words = words_of(rt.alloc(), env::args(&rt));
    exit_code_of_run(&rt, words, &mut source, &mut sink, &mut progress)
}

// Runs with the words that were given, where there was memory for them.
fn exit_code_of_run<R, S: Source, K: Sink, P: Progress>(
    rt: &R,
    words: Result<Vec<String>, NoMemory>,
    source: &mut S,
    sink: &mut K,
    progress: &mut P,
) -> ExitCode
where
    R: Threads
        + Wait
        + Sync
        + time::Clock
        + Net<Listener = TcpListener, Stream = TcpStream>
        + RandomSource,
    R: Eprint + AllocGlobal,
    ensures done { IfOk words (λ given. IsRunDone (map string_bytes given.items)
        (exit_status result)
        (source_and_sink (S.left source.old) (S.faults source.old) (K.held sink.old)
        (K.faults sink.old))
        (source_and_sink (S.left source.new) (S.faults source.new) (K.held sink.new)
        (K.faults sink.new))) }
    ensures no_memory { IfErr words (λ _. exit_status result ≡ no_memory_status) }
{
    let Ok(words) = words else {
        return exit_code_of(NO_MEMORY);
    };
    exit_code_of(run_words(rt, words.as_slice(), source, sink, progress))
}

fn exit_code_of(status: u8) -> ExitCode
    ensures { exit_status result ≡ status }
{
    ExitCode::from(status)
}

// Runs with these words, with a listener where they ask for a server.
fn run_words<R, S: Source, K: Sink, P: Progress>(
    rt: &R,
    words: &[String],
    source: &mut S,
    sink: &mut K,
    progress: &mut P,
) -> u8
where
    R: Threads
        + Wait
        + Sync
        + time::Clock
        + Net<Listener = TcpListener, Stream = TcpStream>
        + RandomSource,
    R: Eprint + AllocGlobal,
    ensures { IsRunDone (map string_bytes words.now) result
        (source_and_sink (S.left source.old) (S.faults source.old) (K.held sink.old)
        (K.faults sink.old))
        (source_and_sink (S.left source.new) (S.faults source.new) (K.held sink.new)
        (K.faults sink.new)) }
{
    match form_of(rt.alloc(), words) {
        Form::Serve { address, workers } => {
            listen_at(rt, words, &address, workers, source, sink)
        }
        _ => run_plainly(rt, words, source, sink, progress),
    }
}

// Runs with nothing to serve, and a key of zeros.
fn run_plainly<R, S: Source, K: Sink, P: Progress>(
    rt: &R,
    words: &[String],
    source: &mut S,
    sink: &mut K,
    progress: &mut P,
) -> u8
where
    R: Threads + Wait + Sync + time::Clock + AllocGlobal,
    ensures { RunsOver [] (map string_bytes words.now) result
        (source_and_sink (S.left source.old) (S.faults source.old) (K.held sink.old)
        (K.faults sink.old))
        (source_and_sink (S.left source.new) (S.faults source.new) (K.held sink.new)
        (K.faults sink.new)) }
{
    let clock = SystemClock::new(rt);
    let setting = RunSetting {
        rt,
        alloc: rt.alloc(),
        key: [0; 32],
        clock: &clock,
    };
    run_alone(&setting, words, source, sink, progress)
}

// Runs with no stand.
fn run_alone<R: Threads + Wait + Sync, C: Clock + Sync, S: Source, K: Sink, P: Progress>(
    setting: &RunSetting<'_, R, C>,
    words: &[String],
    source: &mut S,
    sink: &mut K,
    progress: &mut P,
) -> u8
    ensures { (left : List (Stand TcpDoor OpenGate)) × Runs (C.gives setting.now.clock.now)
        (door_seen ⟦<TcpDoor<'static> as Door>⟧.links ⟦<TcpDoor<'static> as Door>⟧.faults)
        setting.now.key
        (map string_bytes words.now) result
        (outside_seen (source_and_sink (S.left source.old) (S.faults source.old) (K.held sink.old)
        (K.faults sink.old)) [])
        (outside_seen (source_and_sink (S.left source.new) (S.faults source.new) (K.held sink.new)
        (K.faults sink.new)) left) }
{
    let mut stands: [Stand<TcpDoor<'_>, OpenGate>; 0] = [];
    run(setting, words, source, sink, &mut stands, progress)
}

// Serves at that address by so many workers, as the words ask.
fn listen_at<R, S: Source, K: Sink>(
    rt: &R,
    words: &[String],
    address: &Text,
    workers: u32,
    source: &mut S,
    sink: &mut K,
) -> u8
where
    R: Threads
        + Wait
        + Sync
        + time::Clock
        + Net<Listener = TcpListener, Stream = TcpStream>
        + RandomSource,
    R: Eprint + AllocGlobal,
    ensures { ServesOrBeginsNone workers (map string_bytes words.now) result
        (source_and_sink (S.left source.old) (S.faults source.old) (K.held sink.old)
        (K.faults sink.old))
        (source_and_sink (S.left source.new) (S.faults source.new) (K.held sink.new)
        (K.faults sink.new)) }
{
    let Ok(listener) = TcpListener::bind(rt, address.as_str()) else {
        return tell_cannot_listen(rt);
    };
    let Ok(key) = random_key(rt) else {
        return tell_cannot_listen(rt);
    };
    let Ok(mut stands) = stands_at(rt.alloc(), &listener, workers) else {
        return NO_MEMORY;
    };
    let clock = SystemClock::new(rt);
    let setting = RunSetting {
        rt,
        alloc: rt.alloc(),
        key,
        clock: &clock,
    };
    run(
        &setting,
        words,
        source,
        sink,
        stands.as_mut_slice(),
        &mut NoProgress,
    )
}

// Tells that nothing listens, and answers the status for that.
fn tell_cannot_listen<R: Eprint>(rt: &R) -> u8
    ensures { result ≡ link_fault_status }
{
    let _told = eprintln!(rt; "mapd: cannot listen");
    LINK_FAULT
}
