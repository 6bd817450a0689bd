//! Sockets: what comes, what fails, and waits that another thread ends.

mod connections;
mod datagrams;
mod receives;
mod scene;
