//! What a running member finds around it.

use crate::listing::JoinList;
use crate::rereading::Read;
use std::sync::Mutex;
use swim_log::LogLevel;

/// What a running member finds around it: the system, whence its threads and its clock come and where its lines go, from which level on,
/// and the path of its settings file.
#[derive(Clone, Copy)]
pub(crate) struct Surroundings<'a, T> {
    pub(crate) rt: HostRuntime,
    pub(crate) logged: &'a T,
    pub(crate) level: &'a LogLevel,
    pub(crate) config: &'a str,
}

/// What the thread of its doors and its host hand each other: whom the member joins, and what was read of its settings again.
#[derive(Drop)]
pub(crate) struct HandedOver {
    pub(crate) listing: Mutex<JoinList>,
    pub(crate) reread: Mutex<Option<Read>>,
}
