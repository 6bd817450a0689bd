//! Control connections over TCP, or over a socket in the system's folders, to which each is a stream of bytes.

ghost use Rattle.std.specs.Prelude.{◌≡◌};
ghost use Rattle.std.specs.Io.{ReadsAtMost, WritesAtMost};

use std::io::{self, Read, Write};
use std::net::{TcpListener, TcpStream};
use std::os::fd::{AsRawFd, RawFd};
use std::os::unix::net::{UnixListener, UnixStream};
use std::time::Duration;

/// Where control connections come in.
#[derive(Drop)]
pub enum ControlListener {
    /// At a TCP port.
    Tcp(TcpListener),
    /// At a path.
    Unix(UnixListener),
}

/// A control connection.
#[derive(Drop)]
pub enum ControlStream {
    /// Over TCP.
    Tcp(TcpStream),
    /// By a path.
    Unix(UnixStream),
}

impl ControlListener {
    /// Another handle of the same socket. An error is the system's, as of those below.
    pub fn try_clone(&self) -> io::Result<ControlListener> {
        match self {
            ControlListener::Tcp(listener) => Ok(ControlListener::Tcp(listener.try_clone()?)),
            ControlListener::Unix(listener) => Ok(ControlListener::Unix(listener.try_clone()?)),
        }
    }

    /// Has it not wait any more.
    pub(crate) fn stop_waiting(&self) -> io::Result<()> {
        match self {
            ControlListener::Tcp(listener) => listener.set_nonblocking(true),
            ControlListener::Unix(listener) => listener.set_nonblocking(true),
        }
    }

    /// The next connection that has come. An error is that none has, or the system's.
    pub(crate) fn accept(&self) -> io::Result<ControlStream> {
        match self {
            ControlListener::Tcp(listener) => {
                let (stream, _) = listener.accept()?;
                Ok(ControlStream::Tcp(stream))
            }
            ControlListener::Unix(listener) => {
                let (stream, _) = listener.accept()?;
                Ok(ControlStream::Unix(stream))
            }
        }
    }
}

impl AsRawFd for ControlListener {
    fn as_raw_fd(&self) -> RawFd {
        match self {
            ControlListener::Tcp(listener) => listener.as_raw_fd(),
            ControlListener::Unix(listener) => listener.as_raw_fd(),
        }
    }
}

impl ControlStream {
    /// Another handle of the same connection. An error is the system's, as of those below.
    pub(crate) fn try_clone(&self) -> io::Result<ControlStream> {
        match self {
            ControlStream::Tcp(stream) => Ok(ControlStream::Tcp(stream.try_clone()?)),
            ControlStream::Unix(stream) => Ok(ControlStream::Unix(stream.try_clone()?)),
        }
    }

    /// Has it not wait any more.
    pub(crate) fn stop_waiting(&self) -> io::Result<()> {
        match self {
            ControlStream::Tcp(stream) => stream.set_nonblocking(true),
            ControlStream::Unix(stream) => stream.set_nonblocking(true),
        }
    }

    /// Has a read wait no longer than so; one that would gives `WouldBlock`.
    pub fn set_read_timeout(&self, most: Duration) -> io::Result<()> {
        match self {
            ControlStream::Tcp(stream) => stream.set_read_timeout(Some(most)),
            ControlStream::Unix(stream) => stream.set_read_timeout(Some(most)),
        }
    }

    /// The same of a write.
    pub fn set_write_timeout(&self, most: Duration) -> io::Result<()> {
        match self {
            ControlStream::Tcp(stream) => stream.set_write_timeout(Some(most)),
            ControlStream::Unix(stream) => stream.set_write_timeout(Some(most)),
        }
    }
}

impl Read for ControlStream {
    fn read(&mut self, buf: &mut [u8]) -> io::Result<usize>
        ensures bound { ReadsAtMost result buf.new }
    {
        match self {
            ControlStream::Tcp(stream) => stream.read(buf),
            ControlStream::Unix(stream) => stream.read(buf),
        }
    }
}

impl Write for ControlStream {
    fn write(&mut self, buf: &[u8]) -> io::Result<usize>
        ensures bound { WritesAtMost result buf.now }
    {
        match self {
            ControlStream::Tcp(stream) => stream.write(buf),
            ControlStream::Unix(stream) => stream.write(buf),
        }
    }

    /// The system holds nothing back.
    fn flush(&mut self) -> io::Result<()> {
        Ok(())
    }
}

impl AsRawFd for ControlStream {
    fn as_raw_fd(&self) -> RawFd {
        match self {
            ControlStream::Tcp(stream) => stream.as_raw_fd(),
            ControlStream::Unix(stream) => stream.as_raw_fd(),
        }
    }
}
