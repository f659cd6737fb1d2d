//! A link over the loopback address.

use std::alloc::Global;
use std::io::{self, Write};
use std::net::{Ipv4Addr, Net, SocketAddr, TcpStream};
use std::test::Fail;
use std::thread;
use tm_base::{Failed, Listener, Sink, Source, TcpDoor, TcpLink, write_all};

// Reads once, writes two words, and lets the link go, of which most was not read.
fn serve<N: Drop>(link: TcpLink<N>) -> Result<usize, Failed> {
    let mut link = link;
    let mut buffer = [0; 8];
    let count = link.source.read(&mut buffer)?;
    write_all(&mut link.sink, b"good")?;
    write_all(&mut link.sink, b"bye")?;
    Ok(count)
}

// What a peer is told that sends more than is read.
fn told<R: Net<Stream = TcpStream>>(rt: &R, alloc: Global, port: u16) -> io::Result<String> {
    let mut stream = TcpStream::connect(rt, SocketAddr::from((Ipv4Addr::LOCALHOST, port)))?;
    stream.write_all(&[b'x'; 20_000])?;
    io::read_to_string(alloc, stream)
}

#[test]
fn a_door_tells_its_peer_all(rt: HostRuntime) -> Result<(), Fail> {
    let alloc = rt.alloc();
    let mut door = TcpDoor::new(rt);
    assert!(rt; door.accept(&rt).is_err(), "it is bound to no port");
    let port = door.bind(0)?;
    assert!(rt; port != 0);
    let peer = thread::spawn(&rt, move || told(&rt, alloc, port).ok())?;
    let link = door.accept(&rt)?;
    let served = serve(link);
    let heard = peer.join(&rt);
    assert!(rt;
        served.is_ok_and(|count| 0 < count && count <= 8),
        "{served:?}"
    );
    assert_eq!(rt; heard.as_deref(), Some("goodbye"));
    assert!(rt; door.accepted() == 1 && door.faults() == 1);
    let mut other = TcpDoor::new(rt);
    assert_eq!(rt; other.bind(port), Err(Failed), "another door has it");
    Ok(())
}
