//! A port of this machine, opened or met.
use std::io;
use std::net::{Ipv4Addr, Net, OpenStream, SocketAddr};
use std::time::Duration;

/// A port of this machine, and how many seconds its other end may send or take nothing: 0 for as long as it likes.
#[derive(Clone, Copy)]
pub struct Place {
    pub port: u16,
    pub timeout: u32,
}

/// Opens a port of this machine, which no other machine reaches.
pub fn bind<R: Net>(rt: &R, port: u16) -> io::Result<R::Listener> {
    rt.bind(local(port))
}

/// Makes a connection to a port of this machine. A message in parts waits for no word of the other end that the first part came.
pub fn connect<R: Net>(rt: &R, place: Place) -> io::Result<R::Stream> {
    let stream = rt.connect(local(place.port))?;
    prepare(&stream, place.timeout)?;
    Ok(stream)
}

/// Makes a stream one that sends each message at once, and of which a read and a write fail after so many seconds in which the other
/// end sent or took nothing; 0 is no such time.
pub fn prepare<S: OpenStream>(stream: &S, timeout: u32) -> io::Result<()> {
    stream.set_nodelay(true)?;
    if timeout > 0 {
        let longest = Some(Duration::from_secs(timeout as u64));
        stream.set_read_timeout(longest)?;
        stream.set_write_timeout(longest)?;
    }
    Ok(())
}

// The address of a port on this machine.
fn local(port: u16) -> SocketAddr {
    SocketAddr::from((Ipv4Addr::LOCALHOST, port))
}
