//! `swim web`: what a running member says, for a browser, for Prometheus and for programs, over HTTP.
//! One thread asks the member each second, and another answers from what it said last, so that a member that hangs keeps no reader
//! waiting. Nothing is claimed of what the system does.
#![tactic(auto)]

mod asking;
mod known;
mod peer;
mod server;
mod web;

pub use web::{Web, serve_web};
