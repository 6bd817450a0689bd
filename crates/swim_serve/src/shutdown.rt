//! The end of an era, as each worker is told of it.

use swim_handle::Pace;
use swim_shell::Alarm;

/// Ends all workers of an era, wherever they wait.
///
/// No wake is lost. First the end is set, and then all who wait are woken: the sender by a notification, the ticker from its
/// rest, and those that wait at sockets by their alarms. Each of these keeps a wake that comes while nobody waits, and the next
/// wait ends at once. So a worker whose gate saw no end waits until its wake at most, and its gate, asked again, sees the end.
#[derive(Drop)]
pub struct Shutdown<'a, A: Alarm> {
    pace: &'a Pace,
    alarms: &'a [A],
}

impl<'a, A: Alarm> Shutdown<'a, A> {
    /// Of the era that has this pace, some of whose workers wait until one of these alarms rings.
    pub fn new(pace: &'a Pace, alarms: &'a [A]) -> Shutdown<'a, A> {
        Shutdown { pace, alarms }
    }

    /// The pace of the era.
    pub(crate) fn pace(&self) -> &'a Pace {
        self.pace
    }

    /// A worker has ended: all others are to end.
    pub fn end(&self) {
        self.pace.end();
        for alarm in self.alarms {
            alarm.ring();
        }
    }
}
