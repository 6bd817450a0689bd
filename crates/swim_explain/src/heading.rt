//! Of whom a story is told, and by whom.

use std::fmt;
use swim_member::Settings;
use swim_record::EraTime;
use swim_wire::Endpoint;

/// Of whom a story is told, the settings of the member that tells it, and when its era was.
#[derive(Clone, Copy)]
pub(crate) struct Heading {
    pub(crate) settings: Settings,
    pub(crate) time: Option<EraTime>,
    pub(crate) who: Endpoint,
}

impl fmt::Display for Heading {
    fn fmt<W: fmt::Write>(&self, f: &mut fmt::Formatter<W>) -> fmt::Result {
        let Heading {
            settings,
            time,
            who,
        } = *self;
        let Settings {
            me,
            period,
            suspect,
            forget,
            ..
        } = settings;
        write!(
            f,
            "{who}, as {me} saw it. Its ticks: a probe has {period}, a suspicion stands {suspect}, a confirm is forgotten after {forget}"
        )?;
        match time {
            Some(time) => {
                let tick = time.tick;
                write!(f, "; a tick is {tick} ms")
            }
            None => f.write_str("; when that was is not recorded"),
        }
    }
}
