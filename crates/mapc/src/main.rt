//! The program `mapc`: its words, two connections, the standard streams, and one call.
#![tactic(auto)]

mod destinations;
mod endings;

ghost use Rattle.std.specs.Prelude.{◌≡◌, IsFalse};
ghost use Rattle.std.specs.Process.{exit_status};
ghost use Rattle.ifmap_client_script.specs.Ends.{source_and_ports, ports};
ghost use Rattle.ifmap_client_script.specs.Promises.{IsCarriedOut};
ghost use Rattle.ifmap_http.specs.Wires.{wire_seen};
ghost use Rattle.mapc.specs.Statuses.{end_status};

use crate::destinations::{Destination, destination_of};
use crate::endings::{End, status_of};
use ifmap_client_script::{Outcome, run_script};
use ifmap_http::Wire;
use ifmap_io::{Link, Sink, Source, StdSink, StdSource, TcpLink};
use ifmap_words::words_of;
use std::alloc::Global;
use std::io::ErrorKind;
use std::net::{Net, TcpStream};
use std::process::ExitCode;
use std::{env, io};

fn main(rt: HostRuntime) -> ExitCode {
    let end = match words_of(rt.alloc(), env::args(&rt)) {
        Ok(words) => run(&rt, words.as_slice()),
        Err(_) => End::Script(Outcome::NoMemory),
    };
    if end != End::Script(Outcome::Done) {
        let _told = eprintln!(rt; "{end}");
    }
    exit_code_of(end)
}

// All that the program does with its words.
fn run(rt: &HostRuntime, words: &[String]) -> End {
    match destination_of(rt.alloc(), words) {
        Ok(Some(to)) => connect_and_carry_out(rt, &to),
        Ok(None) => End::Usage,
        Err(_) => End::Script(Outcome::NoMemory),
    }
}

// Carries out the script of standard input over two connections.
fn connect_and_carry_out(rt: &HostRuntime, to: &Destination) -> End {
    match (connect(rt, to), connect(rt, to)) {
        (Ok(first), Ok(second)) => carry_out_over(rt, to, first, second),
        (Err(error), _) => end_without(error),
        (_, Err(error)) => end_without(error),
    }
}

// How the program ends where no connection was made.
fn end_without(error: io::Error) -> End {
    if error.kind() == ErrorKind::OutOfMemory {
        return End::Script(Outcome::NoMemory);
    }
    End::NoConnection
}

// Carries out the script of standard input over these links.
fn carry_out_over(rt: &HostRuntime, to: &Destination, first: TcpLink, second: TcpLink) -> End {
    let mut source = StdSource::new(rt.stdin());
    let mut sink = StdSink::new(rt.stdout());
    let mut first = Wire::new(rt.alloc(), first);
    let mut second = Wire::new(rt.alloc(), second);
    let alloc = rt.alloc();
    End::Script(carry_out(alloc, to, &mut source, &mut sink, &mut first, &mut second))
}

// A link to the address of a destination.
fn connect<R: Net<Stream = TcpStream>>(net: &R, to: &Destination) -> io::Result<TcpLink> {
    let stream = TcpStream::connect(net, to.host.as_str())?;
    Ok(TcpLink::new(stream))
}

// Carries out the script of that source for the client of a destination, over two wires to its host.
fn carry_out<S: Source, K: Sink, A: Link, B: Link>(
    alloc: Global,
    to: &Destination,
    source: &mut S,
    sink: &mut K,
    first: &mut Wire<A>,
    second: &mut Wire<B>,
) -> Outcome
    requires first { IsFalse first.old.spent }
    requires second { IsFalse second.old.spent }
    ensures { let seen = wire_seen A.left A.held A.Source.faults A.Sink.faults in
        let polls_seen = wire_seen B.left B.held B.Source.faults B.Sink.faults in
        IsCarriedOut (record { client = to.now.client; host = to.now.host })
        (source_and_ports (S.left source.old) (S.faults source.old)
        (ports (K.held sink.old) (K.faults sink.old) (seen first.old) (polls_seen second.old)))
        (source_and_ports (S.left source.new) (S.faults source.new)
        (ports (K.held sink.new) (K.faults sink.new) (seen first.new) (polls_seen second.new)))
        result }
{
    run_script(alloc, &to.client, &to.host, source, sink, first, second)
}

fn exit_code_of(end: End) -> ExitCode
    ensures { exit_status result ≡ end_status end }
{
    ExitCode::from(status_of(end))
}
