//! How soon a group finds a member that failed, and whom it suspects.
#![tactic(auto)]

mod laws;

pub use laws::{
    nodes_find_the_silent, nodes_have_causes, only_the_gone_are_suspected, stopped_are_found,
    suspected_were_accused,
};
