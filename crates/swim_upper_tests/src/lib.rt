//! The tests of workers, of settings, and of the texts that are recorded and played, each in a file that is named as its crate. They stand
//! here, over public calls alone, since a crate with tests of its own is proved twice.
#![tactic(auto)]

#[cfg(test)]
mod play;
#[cfg(test)]
mod record;
#[cfg(test)]
mod replay;
#[cfg(test)]
mod same;
#[cfg(test)]
mod script;
#[cfg(test)]
mod settings;
#[cfg(test)]
mod shell;
