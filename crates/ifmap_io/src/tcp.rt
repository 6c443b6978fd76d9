//! The adapters over the system's TCP sockets. They tell nothing, and count each error.
ghost use Rattle.std.specs.Prelude.{◌≡◌, IfOk, IsSome, None};
ghost use Rattle.std.specs.Io.{ReadsAtMost};
ghost use Rattle.ifmap_io.specs.Causes.{HasCause};
ghost use Rattle.ifmap_io.specs.Doors.{Accepts};
ghost use Rattle.ifmap_io.specs.Links.{wire_link_seen};
ghost use Rattle.ifmap_io.specs.Memory.{faults_after};

use crate::doors::Door;
use crate::ends::{Failed, Sink, Source};
use crate::links::Link;
use crate::std_ends::count_error;
use std::io::{self, Read, Write};
use std::marker::Model;
use std::net::{TcpListener, TcpStream};
use std::time::Duration;

// How long a read or a write of a connection that a door hands out may wait, in seconds: a little
// longer than a session lives without a request.
const SILENCE: u64 = 200;

// How often a door tries to take a connection before it fails. A connection that was given up before it
// was taken fails a try.
const TRIES: u32 = 100;

/// A link over a TCP stream. Contracts see it as its two counts of faults.
#[derive(Drop)]
pub struct TcpLink {
    stream: TcpStream,
    read_faults: u64,
    write_faults: u64,
}

impl Model for TcpLink {
    ghost use Rattle.ifmap_io.specs.Tcp.{Counts};

    ghost Value = { Counts };

    ghost view = { λ l. record { read_faults = l.read_faults; write_faults = l.write_faults } };
}

impl TcpLink {
    /// A link over that stream, which dropping the link closes. Where the system can, what is written
    /// is sent without delay.
    pub fn new(stream: TcpStream) -> TcpLink
        ensures { result ≡ record { read_faults = 0; write_faults = 0 } }
    {
        let _sends_at_once = stream.set_nodelay(true);
        TcpLink {
            stream,
            read_faults: 0,
            write_faults: 0,
        }
    }
}

impl Source for TcpLink {
    ghost left = { λ _. None };

    ghost faults = { λ l. l.read_faults };

    ghost outgoing = { λ l. record { bytes = None; faults = l.write_faults } };

    fn read(&mut self, room: &mut [u8]) -> Result<usize, Failed>
        ensures bound { ReadsAtMost result room.new }
        ensures cause { HasCause self.old.read_faults self.new.read_faults result }
        ensures counted { self.new ≡ record self.old {
          read_faults = faults_after result self.old.read_faults;
        } }
    {
        count_error(self.stream.read(room), &mut self.read_faults)
    }
}

impl Sink for TcpLink {
    ghost held = { λ _. None };

    ghost faults = { λ l. l.write_faults };

    ghost incoming = { λ l. record { bytes = None; faults = l.read_faults } };

    fn write_all(&mut self, bytes: &[u8]) -> Result<(), Failed>
        ensures cause { HasCause self.old.write_faults self.new.write_faults result }
        ensures counted { self.new ≡ record self.old {
          write_faults = faults_after result self.old.write_faults;
        } }
    {
        count_error(self.stream.write_all(bytes), &mut self.write_faults)
    }

    fn flush(&mut self) -> Result<(), Failed>
        ensures cause { HasCause self.old.write_faults self.new.write_faults result }
        ensures counted { self.new ≡ record self.old {
          write_faults = faults_after result self.old.write_faults;
        } }
    {
        count_error(self.stream.flush(), &mut self.write_faults)
    }
}

impl Link for TcpLink {
    ghost use Rattle.std.specs.Prelude.{refl};

    ghost outgoing_is = { λ link. refl };

    ghost incoming_is = { λ link. refl };
}

// The next connection that a listener has.
fn take_connection(listener: &TcpListener) -> io::Result<TcpStream> {
    for _ in 1..TRIES {
        if let Ok((stream, _)) = listener.accept() {
            return Ok(stream);
        }
    }
    let (stream, _) = listener.accept()?;
    Ok(stream)
}

// Lets reads and writes of a stream fail once they have waited too long, so that a peer that is gone
// does not hold its link for ever.
fn limit_silence(stream: &TcpStream) -> io::Result<()> {
    let silence = Some(Duration::from_secs(SILENCE));
    stream.set_read_timeout(silence)?;
    stream.set_write_timeout(silence)
}

/// A door over a TCP listener. Contracts see it as its count of faults. It never answers None. A read
/// or a write of a link that it hands out fails once it has waited for 200 seconds.
#[derive(Drop)]
pub struct TcpDoor<'a> {
    listener: &'a TcpListener,
    faults: u64,
}

impl<'a> Model for TcpDoor<'a> {
    ghost use Rattle.std.specs.Prelude.{ℕ};

    ghost Value = { ℕ };

    ghost view = { λ d. d.faults };
}

impl<'a> TcpDoor<'a> {
    /// A door over that listener, which several doors may share.
    pub fn new(listener: &'a TcpListener) -> TcpDoor<'a>
        ensures { result ≡ 0 }
    {
        TcpDoor {
            listener,
            faults: 0,
        }
    }
}

impl<'a> Door for TcpDoor<'a> {
    type Wire = TcpLink;

    ghost links = { λ _. None };

    ghost faults = { λ d. d };

    fn accept(&mut self) -> Result<Option<TcpLink>, Failed>
        ensures links { Accepts
            (wire_link_seen ⟦<TcpLink as Source>⟧.left ⟦<TcpLink as Sink>⟧.held
            ⟦<TcpLink as Source>⟧.faults ⟦<TcpLink as Sink>⟧.faults)
            None None result }
        ensures some { IfOk result IsSome }
        ensures cause { HasCause self.old self.new result }
        ensures counted { self.new ≡ faults_after result self.old }
    {
        let stream = count_error(take_connection(self.listener), &mut self.faults)?;
        count_error(limit_silence(&stream), &mut self.faults)?;
        Ok(Some(TcpLink::new(stream)))
    }

    fn ended(&mut self, _link: TcpLink) {}
}
