//! The calls that changed a disk.

/// A call that changed a disk.
#[derive(Drop)]
pub(crate) enum Call {
    Write { at: u64, bytes: Vec<u8> },
    Sync,
}
