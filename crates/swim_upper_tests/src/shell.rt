//! Workers over a member that they call directly, and conversations over connections in parts. The texts are those of
//! docs/reference/CONTROL.md.

mod direct;
mod fakes;
mod inbounds;
mod lines;
mod turns;
mod workers;
