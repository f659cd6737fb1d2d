//! The reading side of a connection.

use std::io::{self, Read};
use std::net::{Shutdown, TcpStream};
use std::time::Duration;

/// The most bytes that are read and dropped where a connection is let go.
const DRAINED: usize = 65_536;

/// How many milliseconds each of those reads waits for the peer.
const DRAIN_WAIT: u64 = 100;

/// The reading side of a connection, which ends the whole of it where it is dropped: the peer is told that nothing more is
/// written, and what it still sends is read and dropped, up to a bound. A system that closes a connection over bytes that
/// nobody read may throw away what was written last.
#[derive(Debug)]
pub struct TcpSource {
    stream: TcpStream,
}

impl TcpSource {
    /// The reading side of this connection.
    pub(crate) fn new(stream: TcpStream) -> TcpSource {
        TcpSource { stream }
    }
}

impl Read for TcpSource {
    fn read(&mut self, buf: &mut [u8]) -> io::Result<usize> {
        self.stream.read(buf)
    }
}

impl Drop for TcpSource {
    fn drop(self) {
        let TcpSource { stream } = self;
        let _ = end(stream);
    }
}

// Tells the peer that nothing more is written, and reads on to its end, up to the bounds.
fn end(mut stream: TcpStream) -> io::Result<()> {
    stream.shutdown(Shutdown::Write)?;
    stream.set_read_timeout(Some(Duration::from_millis(DRAIN_WAIT)))?;
    let mut dropped = [0; 4_096];
    for _ in 0..DRAINED / 4_096 {
        if stream.read(&mut dropped)? == 0 {
            break;
        }
    }
    Ok(())
}
