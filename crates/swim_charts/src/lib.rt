//! Numbers as tables and pictures: ranks of values, and drawings of views, latencies and sweeps as SVG text.
#![tactic(auto)]

mod curves;
mod drawing;
mod ranks;
mod thousandths;
mod tiles;
mod views;

pub use curves::Curve;
pub use drawing::{Area, Drawing};
pub use ranks::{Spread, of_hundred, spread_of};
pub use thousandths::Thousandths;
pub use tiles::Tiles;
pub use views::{Tally, Views};
