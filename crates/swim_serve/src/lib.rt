//! The workers of a running member in their threads, era after era.
#![tactic(auto)]

mod attending;
mod chores;
mod connection_queue;
mod desk;
mod era;
mod era_counts;
mod era_saves;
mod expulsion;
mod fault;
mod grace;
mod host;
mod job;
mod outgoing;
mod outside;
mod serving;
mod shutdown;
mod threads;
mod tick_timer;

pub use attending::{Attended, Workers, attend};
pub use chores::{Chores, DoorsAndChores, NoChores};
pub use desk::Desk;
pub use era::{CutEra, EraEnd, EraEnds, EraFault, run_era};
pub use fault::Fault;
pub use grace::MemberEnd;
pub use host::{Host, Joins};
pub use job::{Job, Left, Manned};
pub use outgoing::RingLink;
pub use outside::{LifeSetup, Outside};
pub use serving::{EndedMember, run_kept, run_member};
pub use shutdown::Shutdown;
pub use threads::{Back, Work, serve};
pub use tick_timer::{Pacing, TickTimer};
