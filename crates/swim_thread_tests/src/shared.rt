//! Callers, watches and senders of one node. The expected values follow from the rules of turns,
//! eras and sends.

mod calls;
mod reads;
mod sends;
mod thirds;
