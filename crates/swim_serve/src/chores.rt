//! What the desk's thread does beside its connections.

use std::time::Duration;
use swim_shell::Doors;

/// What a member has to see to beside its calls. Nothing of it waits for long, since the desk's connections wait meanwhile.
pub trait Chores {
    /// Sees to what is due, each time that no connection has anything to say. True asks for the end of the present era, after which
    /// the host is asked.
    fn see_to(&mut self) -> bool;

    /// The line `reload` was heard. What it asks for is made ready beside the workers, none of which waits for it. Says whether it is,
    /// so that the era may end; if not, this is asked again for the same connection, and for no other one until it is.
    fn prepare_reload(&mut self) -> bool;
}

/// Nothing is to be seen to, and nothing to be made ready.
#[derive(Clone, Copy)]
pub struct NoChores;

impl Chores for NoChores {
    fn see_to(&mut self) -> bool {
        false
    }

    fn prepare_reload(&mut self) -> bool {
        true
    }
}

/// Doors, and what else is seen to by the thread that attends to them.
#[derive(Drop)]
pub struct DoorsAndChores<O, H> {
    doors: O,
    chores: H,
}

impl<O, H> DoorsAndChores<O, H> {
    /// Both of them.
    pub fn new(doors: O, chores: H) -> DoorsAndChores<O, H> {
        DoorsAndChores { doors, chores }
    }
}

impl<O: Doors, H> Doors for DoorsAndChores<O, H> {
    type Reader = O::Reader;

    type Writer = O::Writer;

    fn next(&mut self) -> Option<(O::Reader, O::Writer)> {
        self.doors.next()
    }

    fn wait(&mut self, most: Duration) {
        self.doors.wait(most);
    }
}

impl<O, H: Chores> Chores for DoorsAndChores<O, H> {
    fn see_to(&mut self) -> bool {
        self.chores.see_to()
    }

    fn prepare_reload(&mut self) -> bool {
        self.chores.prepare_reload()
    }
}
