//! A connection of the system.

ghost use Rattle.std.specs.Prelude.{◌≡◌, false};
ghost use Rattle.std.specs.Io.{ReadsAtMost};

use colo_base::{Failed, Heard, Link};
use std::io;
use std::io::{ErrorKind, Read, Write};
use std::marker::Model;
use std::net::{Net, OpenStream, TcpStream};
use std::time::Duration;

/// After so many quiet answers in a row a receive waits for a byte.
const PATIENCE: u32 = 256;

/// How long it then waits, in milliseconds.
const WAIT: u64 = 1;

/// A TCP connection of the system. A contract sees whether it was opened, and how many calls of
/// each kind failed or were quiet.
///
/// A receive that finds no byte answers `Quiet` at once, so that a busy pair never waits. After 256
/// such answers in a row it waits a millisecond for a byte, so that an idle pair leaves the
/// processor to others; a byte that comes ends the wait.
#[derive(Drop)]
pub struct SocketLink<'a, R: Net> {
    net: &'a R,
    stream: Option<R::Stream>,
    quiet_row: u32,
    open_faults: u64,
    receive_faults: u64,
    send_faults: u64,
    quiets: u64,
}

impl<'a, R: Net> Model for SocketLink<'a, R> {
    ghost use Rattle.std.specs.Prelude.{is_some};
    ghost use Rattle.colo_outside.specs.Counts.{LinkCounts};

    ghost Value = { LinkCounts };

    ghost view = { λ l. record {
      opened = is_some l.stream;
      open_faults = l.open_faults;
      receive_faults = l.receive_faults;
      send_faults = l.send_faults;
      quiets = l.quiets;
    } };
}

impl<'a, R: Net> SocketLink<'a, R> {
    /// A link over the network that `net` reaches, which isn't open, and of which no call has
    /// failed.
    pub fn new(net: &'a R) -> SocketLink<'a, R>
        ensures { result ≡ record {
          opened = false;
          open_faults = 0;
          receive_faults = 0;
          send_faults = 0;
          quiets = 0;
        } }
    {
        SocketLink {
            net,
            stream: None,
            quiet_row: 0,
            open_faults: 0,
            receive_faults: 0,
            send_faults: 0,
            quiets: 0,
        }
    }
}

/// Connects to an address. Small pieces aren't held back, and no read waits.
fn connect<R: Net>(net: &R, address: &str) -> io::Result<R::Stream> {
    let stream = TcpStream::connect(net, address)?;
    stream.set_nodelay(true)?;
    stream.set_read_timeout(Some(Duration::from_millis(WAIT)))?;
    stream.set_nonblocking(true)?;
    Ok(stream)
}

/// Reads once; waits a little for a byte where that is asked for.
fn read_once<S: Read + OpenStream>(
    stream: &mut S,
    into: &mut [u8],
    waits: bool,
) -> io::Result<usize>
    ensures { ReadsAtMost result into.new }
{
    if !waits {
        return stream.read(into);
    }
    stream.set_nonblocking(false)?;
    let answer = stream.read(into);
    stream.set_nonblocking(true)?;
    answer
}

/// Writes all bytes, and waits until they are taken.
fn write_all<S: Write + OpenStream>(stream: &mut S, bytes: &[u8]) -> io::Result<()> {
    stream.set_nonblocking(false)?;
    stream.write_all(bytes)?;
    stream.set_nonblocking(true)
}

/// Whether an error says that no byte has come yet.
fn is_quiet(error: &io::Error) -> bool {
    matches!(
        error.kind(),
        ErrorKind::WouldBlock | ErrorKind::TimedOut | ErrorKind::Interrupted
    )
}

impl<'a, R: Net> Link for SocketLink<'a, R> {
    ghost use Rattle.colo_outside.specs.Counts.{state_of};

    ghost state = { state_of };

    /// Connects to the address, four numbers and a port, and waits until the peer answers. A link
    /// that was open is closed only where the new one opens.
    fn open(&mut self, address: &str) -> Result<(), Failed> {
        if let Ok(stream) = connect(self.net, address) {
            self.stream = Some(stream);
            self.quiet_row = 0;
            return Ok(());
        }
        self.open_faults = self.open_faults.saturating_add(1);
        Err(Failed)
    }

    /// Reads once.
    fn receive(&mut self, into: &mut [u8]) -> Result<Heard, Failed> {
        let Some(stream) = self.stream.as_mut() else {
            unreachable!();
        };
        match read_once(stream, into, self.quiet_row >= PATIENCE) {
            Ok(0) => Ok(Heard::Ended),
            Ok(taken) => {
                self.quiet_row = 0;
                Ok(Heard::Took(taken))
            }
            Err(error) if is_quiet(&error) => {
                self.quiet_row = self.quiet_row.saturating_add(1);
                self.quiets = self.quiets.saturating_add(1);
                Ok(Heard::Quiet)
            }
            Err(_) => {
                self.receive_faults = self.receive_faults.saturating_add(1);
                Err(Failed)
            }
        }
    }

    /// Writes all bytes, and waits until they are taken. A write that takes nothing is `Failed`.
    fn send(&mut self, bytes: &[u8]) -> Result<(), Failed> {
        let Some(stream) = self.stream.as_mut() else {
            unreachable!();
        };
        if write_all(stream, bytes).is_ok() {
            return Ok(());
        }
        self.send_faults = self.send_faults.saturating_add(1);
        Err(Failed)
    }
}
