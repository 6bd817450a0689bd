//! The tests with threads: those of sockets (`swim_net`), of callers, watches and senders (`swim_shared`), of workers and what they
//! log (`swim_serve`), and the examples of embedding (`rollerblack`), over public calls alone.
#![tactic(auto)]

#[cfg(test)]
mod embedded;
#[cfg(test)]
mod net;
#[cfg(test)]
mod same;
#[cfg(test)]
mod serve;
#[cfg(test)]
mod shared;
