//! The tests of the member and of what it stands on, each in a file that is named as its crate. They stand here, over public calls alone,
//! since a crate with tests of its own is proved twice.
#![tactic(auto)]

#[cfg(test)]
mod disk;
#[cfg(test)]
mod gossip;
#[cfg(test)]
mod member;
#[cfg(test)]
mod news;
#[cfg(test)]
mod node;
#[cfg(test)]
mod rules;
#[cfg(test)]
mod same;
#[cfg(test)]
mod state;
#[cfg(test)]
mod wire;
