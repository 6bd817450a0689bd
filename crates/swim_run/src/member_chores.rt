//! What the thread of a running member's doors sees to besides.

use crate::file_watch::FileWatch;
use crate::host_lookup::HostLookup;
use crate::settings_reading::SettingsReading;
use log::Log;
use std::fs::File;
use std::rt::Files;
use std::sync::Wait;
use std::thread::Threads;
use std::time::Clock;
use swim_serve::Chores;

/// The state file is watched, the hosts of the join list are looked up, and the settings are read once more where that is asked for.
#[derive(Drop)]
pub(crate) struct MemberChores<'a, R, W, T> {
    pub(crate) file: FileWatch<R, W>,
    pub(crate) hosts: HostLookup<'a, T>,
    pub(crate) settings: SettingsReading<'a, T>,
}

impl<'a, R: Files<File = File> + Copy, W: Log, T: Threads + Wait + Log + Clock> Chores
    for MemberChores<'a, R, W, T> {
    fn see_to(&mut self) -> bool {
        self.file.look();
        self.hosts.look()
    }

    fn prepare_reload(&mut self) -> bool {
        self.settings.prepare()
    }
}
