//! A connection of the system, both ends in one thread, one after the other; and its clock.

ghost use Rattle.std.specs.Prelude.{◌<◌, IsTrue, length};

use colo_base::{Clock, Failed, Heard, Link};
use colo_outside::{SocketLink, SystemClock};
use std::io::{Read, Write};
use std::net::TcpListener;
use std::test::Fail;

/// What comes, after quiet answers.
fn hear<L: Link>(link: &mut L, into: &mut [u8]) -> Result<Heard, Failed>
    requires opened { IsTrue (L.state link.old).opened }
    requires room { 0 < length into.old }
    ensures { IsTrue (L.state link.new).opened }
{
    for _ in 0..5000 {
        match link.receive(into)? {
            Heard::Quiet => {}
            heard => return Ok(heard),
        }
    }
    Ok(Heard::Quiet)
}

#[test]
fn hears_and_sends_over_loopback(rt: HostRuntime) -> Result<(), Fail> {
    let listener = TcpListener::bind(&rt, "127.0.0.1:0")?;
    let port = listener.local_addr()?.port();
    let address = format!(in rt.alloc(); "127.0.0.1:{port}")?;
    let mut link = SocketLink::new(&rt);
    link.open(address.as_str())?;
    let (mut peer, _) = listener.accept()?;
    let mut into = [0u8; 16];
    assert_eq!(rt; link.receive(&mut into), Ok(Heard::Quiet));
    link.send(b"ask")?;
    let mut asked = [0u8; 3];
    peer.read_exact(&mut asked)?;
    assert_eq!(rt; asked, *b"ask");
    peer.write_all(b"answer")?;
    assert_eq!(rt; hear(&mut link, &mut into), Ok(Heard::Took(6)));
    assert_eq!(rt; &into[..6], b"answer".as_slice());
    drop(peer);
    assert_eq!(rt; hear(&mut link, &mut into), Ok(Heard::Ended));
    Ok(())
}

#[test]
fn opens_no_port_that_is_closed(rt: HostRuntime) -> Result<(), Fail> {
    let port = TcpListener::bind(&rt, "127.0.0.1:0")?.local_addr()?.port();
    let address = format!(in rt.alloc(); "127.0.0.1:{port}")?;
    let mut link = SocketLink::new(&rt);
    assert_eq!(rt; link.open(address.as_str()), Err(Failed));
    Ok(())
}

#[test]
fn counts_microseconds(rt: HostRuntime) -> Result<(), Fail> {
    let mut clock = SystemClock::new(&rt);
    let first = clock.ticks();
    std::thread::sleep(&rt, std::time::Duration::from_millis(2));
    let passed = clock.ticks().saturating_sub(first);
    assert!(rt; (2_000..2_000_000).contains(&passed));
    Ok(())
}
