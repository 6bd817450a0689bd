//! The examples in the head of `rollerblack`.

mod by_hand;
mod over_udp;
