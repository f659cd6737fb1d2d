//! The door to the network.
ghost use Rattle.std.specs.Prelude.{◌≡◌, Some, None, IsNone, IsErr, IfOk, OnOk, OnErr};
ghost use Rattle.tm_base.specs.Causes.{HasCause, one_fault_more};
ghost use Rattle.tm_base.specs.Listening.{IsBoundTo, one_link_more};
ghost use Rattle.tm_base.specs.StdEdge.{IsFresh};

use crate::failed::Failed;
use crate::link::Link;
use crate::listener::Listener;
use crate::std_sink::StdSink;
use crate::std_source::StdSource;
use crate::system_clock::SystemClock;
use crate::tcp_source::TcpSource;
use std::io::{self, ErrorKind};
use std::marker::Model;
use std::net::{Ipv4Addr, Net, SocketAddr, TcpListener, TcpStream};
use std::rt;
use std::sync::Wait;

/// A link over TCP.
pub type TcpLink<N> = Link<StdSource<TcpSource>, StdSink<TcpStream>, SystemClock<N>>;

/// The door to the network: a listener on the loopback address, and on no other. What is written to a link is sent at
/// once. Where a link's source is dropped, its connection ends: see [`TcpSource`].
#[derive(Drop)]
pub struct TcpDoor<N> {
    net: N,
    listener: Option<TcpListener>,
    port: Option<u16>,
    accepted: u64,
    faults: u64,
}

impl<N> Model for TcpDoor<N> {
    ghost use Rattle.std.specs.Prelude.{◌↔◌, IsSome};
    ghost use Rattle.tm_base.specs.Listening.{DoorState};

    ghost Value = { DoorState };

    ghost view = { λ d. record { port = d.port; accepted = d.accepted; faults = d.faults } };

    // It listens where it is bound to a port, and only there.
    ghost invariant = { λ d. IsSome d.port ↔ IsSome d.listener };
}

impl<N> TcpDoor<N> {
    /// A door over the runtime, which is bound to no port.
    pub fn new(net: N) -> TcpDoor<N>
        ensures { result ≡ record { port = None; accepted = 0; faults = 0 } }
    {
        TcpDoor {
            net,
            listener: None,
            port: None,
            accepted: 0,
            faults: 0,
        }
    }

    /// How many links were handed out. The count stays at `u64::MAX`.
    pub fn accepted(&self) -> u64
        ensures { result ≡ self.now.accepted }
    {
        self.accepted
    }

    /// The faults so far. The count stays at `u64::MAX`.
    pub fn faults(&self) -> u64
        ensures { result ≡ self.now.faults }
    {
        self.faults
    }
}

impl<
    N: Net<Stream = TcpStream, Listener = TcpListener> + rt::Clock + Copy + Send + Drop + 'static,
> Listener for TcpDoor<N> {
    type I = StdSource<TcpSource>;

    type O = StdSink<TcpStream>;

    type W = SystemClock<N>;

    ghost faults = { λ d. d.faults };

    ghost port = { λ d. d.port };

    ghost accepted = { λ d. d.accepted };

    /// The port before, if there was one, is let go.
    fn bind(&mut self, wanted: u16) -> Result<u16, Failed>
        ensures port { IfOk result (λ bound. IsBoundTo self.new.port bound) }
        ensures stays { OnErr result (self.new.port ≡ self.old.port) }
        ensures accepted { self.new.accepted ≡ self.old.accepted }
        ensures cause { HasCause self.old.faults self.new.faults result }
        ensures no_fault { OnOk result (self.new.faults ≡ self.old.faults) }

        // It tells the port, and a call that fails counts one fault.
        ensures told { IfOk result (λ bound. self.new.port ≡ Some bound) }
        ensures one_fault { OnErr result (self.new.faults ≡ one_fault_more self.old.faults) }
    {
        match listen(&self.net, wanted) {
            Ok((listener, bound)) => {
                self.listener = Some(listener);
                self.port = Some(bound);
                Ok(bound)
            }
            Err(_) => {
                self.faults = self.faults.saturating_add(1);
                Err(Failed)
            }
        }
    }

    /// It waits for a peer. A peer that is gone again before it is handed out is passed over. A door that is bound to no
    /// port fails at once.
    fn accept<R: Wait>(&mut self, _rt: &R) -> Result<TcpLink<N>, Failed>
        ensures port { self.new.port ≡ self.old.port }
        ensures accepted { OnOk result (self.new.accepted ≡ one_link_more self.old.accepted) }
        ensures stays { OnErr result (self.new.accepted ≡ self.old.accepted) }
        ensures cause { HasCause self.old.faults self.new.faults result }
        ensures no_fault { OnOk result (self.new.faults ≡ self.old.faults) }

        // A link is fresh, and a call that fails counts one fault.
        ensures fresh { IfOk result IsFresh }
        ensures one_fault { OnErr result (self.new.faults ≡ one_fault_more self.old.faults) }
        ensures unbound { IsNone self.old.port → IsErr result }
    {
        match next_of(&self.listener) {
            Some((reads, writes)) => {
                self.accepted = self.accepted.saturating_add(1);
                Ok(Link {
                    source: StdSource::new(TcpSource::new(reads)),
                    sink: StdSink::new(writes),
                    clock: SystemClock::new(self.net),
                })
            }
            None => {
                self.faults = self.faults.saturating_add(1);
                Err(Failed)
            }
        }
    }
}

// A listener on the loopback address, and its port.
fn listen<N: Net<Stream = TcpStream, Listener = TcpListener>>(
    net: &N,
    wanted: u16,
) -> io::Result<(TcpListener, u16)> {
    let listener = TcpListener::bind(net, SocketAddr::from((Ipv4Addr::LOCALHOST, wanted)))?;
    let bound = listener.local_addr()?.port();
    Ok((listener, bound))
}

// The next connection, as its two sides.
fn next_of(listener: &Option<TcpListener>) -> Option<(TcpStream, TcpStream)>
    ensures { IsNone listener.now → IsNone result }
{
    let Some(listener) = listener else {
        return None;
    };
    for _ in 0..u64::MAX {
        match listener.accept() {
            Ok((stream, _)) => return sides_of(stream).ok(),
            Err(error) if is_passing(error.kind()) => {}
            Err(_) => return None,
        }
    }
    None
}

// The two sides of a connection, whose bytes are sent as they are written.
fn sides_of(stream: TcpStream) -> io::Result<(TcpStream, TcpStream)> {
    stream.set_nodelay(true)?;
    let writes = stream.try_clone()?;
    Ok((stream, writes))
}

// A signal came, or the peer is gone.
fn is_passing(kind: ErrorKind) -> bool {
    matches!(kind, ErrorKind::Interrupted | ErrorKind::ConnectionAborted)
}
