//! The workers of a member that runs: each has turns, takes what comes in a turn, and makes one call for it. What came and
//! which lines were read can be read off the calls. No worker knows how a call is made.
#![tactic(auto)]

mod about;
mod alarm;
mod answer_writer;
mod answers;
mod caller;
mod conversation;
mod counters;
mod counts;
mod doors;
mod gate;
mod inbound;
mod lines;
mod printer;
mod quiet_clock;
mod receiver;
mod request;
mod sender;
mod ticker;
mod worker;

pub use about::{About, Alone, ProgramVersion, VERSION, VERSION_MAX, Who, about_answer, is_alone};
pub use alarm::{Alarm, Alarmed};
pub use answers::{SETTINGS_REFUSED, answer_of};
pub use caller::{Caller, Observer, Refusal};
pub use conversation::{ControlEnd, Conversation};
pub use counters::{COUNTERS, Counter, Counters, ERA_COUNTS, NOTES_FROM};
pub use counts::{CALL_COUNTS, CallCounts, EventKind, NOTE_KINDS};
pub use doors::Doors;
pub use gate::{Gate, Turn};
pub use inbound::{Inbound, ReceiveFault};
pub use lines::{LINE_MAX, LineText};
pub use printer::{ANSWER_MAX, AnswerText};
pub use quiet_clock::QuietClock;
pub use receiver::{FAILURES_MAX, Receiver};
pub use request::{Request, understand};
pub use sender::{Outgoing, SendWorker};
pub use ticker::Ticker;
pub use worker::{Worker, WorkerEnd, run};
