//! Reading the settings file again, beside the member.

use crate::errand::{Errand, outcome_of};
use crate::reading::checked_at;
use crate::rereading::{Read, start_reading};
use std::sync::{Mutex, Wait};
use std::thread::{self, Threads};
use std::time::{Clock, Duration};

/// How often it is looked at once whether a file is read, which most files are by then.
const LOOKS: u32 = 20;

/// From one of these looks to the next, in milliseconds.
const LOOK_MILLIS: u64 = 1;

/// Has the settings file at this path read in a thread of its own once the line `reload` was heard: a large file, or a slow disk, holds
/// up nothing but the answer to that line.
#[derive(Drop)]
pub(crate) struct SettingsReading<'a, T> {
    rt: HostRuntime,
    logged: &'a T,
    config: &'a str,
    reread: &'a Mutex<Option<Read>>,
    reading: Option<Errand<Read>>,
}

impl<'a, T: Threads + Wait + Clock> SettingsReading<'a, T> {
    /// A reading of this file, which puts what is read there.
    pub(crate) fn new(
        rt: HostRuntime,
        logged: &'a T,
        config: &'a str,
        reread: &'a Mutex<Option<Read>>,
    ) -> SettingsReading<'a, T> {
        SettingsReading {
            rt,
            logged,
            config,
            reread,
            reading: None,
        }
    }

    /// What was read is there to be taken.
    fn put(&self, read: Read) {
        *self.reread.lock(self.logged) = Some(read);
    }

    /// Has a thread read it, unless it is read in a moment: then it is there to be taken. Without memory or a thread for it the file is
    /// read at once.
    fn begin(&mut self) -> bool {
        let Some(reading) = start_reading(self.logged, self.rt, self.config) else {
            self.put(checked_at(&self.rt, self.config));
            return true;
        };
        if self.is_done_soon(&reading) {
            self.put(reading.outcome(self.logged));
            return true;
        }
        self.reading = Some(reading);
        false
    }

    /// Whether it is done, which is looked at for a moment.
    fn is_done_soon(&self, reading: &Errand<Read>) -> bool {
        for _ in 0..LOOKS {
            if reading.is_done() {
                return true;
            }
            thread::sleep(self.logged, Duration::from_millis(LOOK_MILLIS));
        }
        false
    }

    /// Has the file read, and says whether it is: then what was read is there to be taken.
    pub(crate) fn prepare(&mut self) -> bool {
        if self.reading.is_none() {
            return self.begin();
        }
        match outcome_of(&mut self.reading, self.logged) {
            Some(read) => {
                self.put(read);
                true
            }
            None => false,
        }
    }
}
