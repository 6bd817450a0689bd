//! The tests of groups, of their checker, of simulations, of what these draw and of what `swim simulate` prints, each in a file that
//! is named as its crate, over public calls alone.
#![tactic(auto)]

#[cfg(test)]
mod charts;
#[cfg(test)]
mod check;
#[cfg(test)]
mod detect;
#[cfg(test)]
mod group;
#[cfg(test)]
mod same;
#[cfg(test)]
mod simulate;
#[cfg(test)]
mod survey;
