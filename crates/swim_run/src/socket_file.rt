//! A control socket at a path. **What the system does can't be proved: these functions are to be read and believed.**

use std::fs::{self, File, Permissions};
use std::io::{self, ErrorKind};
use std::net::Net;
use std::os::unix::fs::{FileTypeExt, MetadataExt, PermissionsExt};
use std::os::unix::net::{UnixListener, UnixStream};
use std::rt::Files;
use swim_settings::ControlPath;

/// Who may connect to a new socket: its owner alone.
const MODE: u32 = 0o600;

/// Whether an error of a connection says that nobody listens any more: a process that was killed leaves its socket.
fn is_left(kind: ErrorKind) -> bool {
    matches!(kind, ErrorKind::ConnectionRefused | ErrorKind::NotFound)
}

/// Refuses a path at which somebody listens, or where something stands that is no socket. An error is the system's, too.
pub(crate) fn refuse_taken<R: Net + Files<File = File>>(rt: &R, path: &str) -> io::Result<()> {
    match fs::symlink_metadata(rt, path) {
        Ok(found) if !found.file_type().is_socket() => {
            return Err(ErrorKind::AlreadyExists.into());
        }
        Ok(_) => {}
        Err(error) if error.kind() == ErrorKind::NotFound => return Ok(()),
        Err(error) => return Err(error),
    }
    match UnixStream::connect(rt, path) {
        Ok(_) => Err(ErrorKind::AddrInUse.into()),
        Err(error) if is_left(error.kind()) => Ok(()),
        Err(error) => Err(error),
    }
}

/// Takes a file away, if there is one.
fn remove<R: Files<File = File>>(rt: &R, path: &str) -> io::Result<()> {
    match fs::remove_file(rt, path) {
        Err(error) if error.kind() == ErrorKind::NotFound => Ok(()),
        removed => removed,
    }
}

/// The file of a socket that this process made, by its path and by what the system tells it from any other by.
#[derive(Drop)]
pub(crate) struct SocketFile {
    path: ControlPath,
    device: u64,
    inode: u64,
}

impl SocketFile {
    /// Makes a socket that its owner alone may use, and gives it this path, in the place of one at which nobody listens any more. Until it
    /// has its path nobody looks for it, so that none who is let in by another mode finds it.
    pub(crate) fn bind<R>(rt: &R, path: ControlPath) -> io::Result<(UnixListener, SocketFile)>
    where
        R: Net + Files<File = File> + AllocGlobal,
    {
        refuse_taken(rt, path.as_str())?;
        let aside = format!(in rt.alloc(); "{path}.new")?;
        remove(rt, aside.as_str())?;
        let listener = UnixListener::bind(rt, aside.as_str())?;
        fs::set_permissions(rt, aside.as_str(), Permissions::from_mode(MODE))?;
        fs::rename(rt, aside.as_str(), path.as_str())?;
        let found = fs::symlink_metadata(rt, path.as_str())?;
        let (device, inode) = (found.dev(), found.ino());
        let file = SocketFile {
            path,
            device,
            inode,
        };
        Ok((listener, file))
    }

    /// Takes the file away, unless another one has its path now.
    pub(crate) fn remove<R: Files<File = File>>(&self, rt: &R) {
        let Ok(found) = fs::symlink_metadata(rt, self.path.as_str()) else {
            return;
        };
        if found.dev() == self.device && found.ino() == self.inode {
            let _ = fs::remove_file(rt, self.path.as_str());
        }
    }
}
