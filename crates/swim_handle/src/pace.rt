//! What tells the workers of an era that there is something to do, and that the era is over. All but the sender notify it between two
//! turns, and it rests until they do, so that what a call put into the outbox goes out at once and nobody spins.

ghost use Rattle.std.specs.Prelude.{◌≡◌, if◌then◌else◌};
ghost use Rattle.swim_shell.specs.declared.gate.Turn.TheVariants as turning;

use std::sync::Wait;
use std::sync::atomic::{AtomicBool, AtomicU64, Ordering};
use std::thread::Parker;
use std::time::{Clock, Duration};
use swim_shell::{Gate, Turn};

/// How long a wait lasts at most, in milliseconds.
const WAIT_MILLIS: u64 = 100;

/// Any thread notifies, and one waits. No notification is lost: each lets one wait pass. A call puts fewer datagrams into
/// the outbox than the sender takes in a turn, so a turn for each notification keeps up.
#[derive(Drop)]
struct Notify {
    /// The notifications that no wait has taken yet.
    left: AtomicU64,
    parker: Parker,
}

impl Notify {
    /// Without a notification.
    fn new() -> Notify {
        Notify {
            left: AtomicU64::new(0),
            parker: Parker::new(),
        }
    }

    /// Lets one wait pass.
    fn notify(&self) {
        self.left.fetch_add(1, Ordering::SeqCst);
        self.parker.unpark();
    }

    /// Takes a notification that was not taken yet, and says whether there was one. Only the thread that waits may ask.
    fn take(&self) -> bool {
        if self.left.load(Ordering::SeqCst) == 0 {
            return false;
        }
        self.left.fetch_sub(1, Ordering::SeqCst);
        true
    }

    /// Waits for a notification, a tenth of a second at most.
    fn wait<R: Wait>(&self, rt: &R) {
        if !self.take() {
            self.parker
                .park_timeout(rt, Duration::from_millis(WAIT_MILLIS));
            self.take();
        }
    }
}

/// Whether a worker goes on in an era that is over, or is not.
fn turn_if_over(is_over: bool) -> Turn
    ensures { result ≡ (if is_over then turning.Stop else turning.Go) }
{
    if is_over { Turn::Stop } else { Turn::Go }
}

/// What the gates of an era share.
#[derive(Drop)]
pub struct Pace {
    /// That there may be something to send.
    to_send: Notify,
    /// Whether a worker has ended, and so all others are to end.
    has_ended: AtomicBool,
    /// Wakes the ticker.
    rest: Parker,
}

impl Pace {
    /// Of an era that begins.
    pub fn new() -> Pace {
        Pace {
            to_send: Notify::new(),
            has_ended: AtomicBool::new(false),
            rest: Parker::new(),
        }
    }

    /// There may be something to send: the sender is woken.
    pub fn notify(&self) {
        self.to_send.notify();
    }

    /// The era is over: whoever rests, and whoever waits to send, is woken. A rest that begins later ends at once.
    pub fn end(&self) {
        self.has_ended.store(true, Ordering::SeqCst);
        self.rest.unpark();
        self.to_send.notify();
    }

    /// Rests so long, or until the era is over. One thread at a time may rest.
    pub fn rest<R: Wait>(&self, rt: &R, time: Duration) {
        if self.turn() == Turn::Go {
            self.rest.park_timeout(rt, time);
        }
    }

    /// Whether a worker goes on: until one has ended.
    pub fn turn(&self) -> Turn {
        turn_if_over(self.has_ended.load(Ordering::SeqCst))
    }
}

/// Notifies the sender, and lets its worker go on, which waits for its input itself.
#[derive(Drop)]
pub struct Notifying<'a> {
    pace: &'a Pace,
}

impl<'a> Notifying<'a> {
    /// A gate that notifies.
    pub fn new(pace: &'a Pace) -> Notifying<'a> {
        Notifying { pace }
    }
}

impl<'a> Gate for Notifying<'a> {
    ghost use Rattle.std.specs.Prelude.{[]};

    ghost tells = { ⊥ };

    ghost turns = { λ _. [] };

    fn turn(&mut self) -> Turn {
        self.pace.notify();
        self.pace.turn()
    }
}

/// Rests until the sender is notified.
#[derive(Drop)]
pub struct Resting<'a, R: Wait> {
    rt: &'a R,
    pace: &'a Pace,
}

impl<'a, R: Wait> Resting<'a, R> {
    /// A gate that waits for a notification.
    pub fn new(rt: &'a R, pace: &'a Pace) -> Resting<'a, R> {
        Resting { rt, pace }
    }
}

impl<'a, R: Wait> Gate for Resting<'a, R> {
    ghost use Rattle.std.specs.Prelude.{[]};

    ghost tells = { ⊥ };

    ghost turns = { λ _. [] };

    fn turn(&mut self) -> Turn {
        self.pace.to_send.wait(self.rt);
        self.pace.turn()
    }
}
