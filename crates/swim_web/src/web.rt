//! `swim web`.

use crate::asking::{Asking, follow};
use crate::known::Known;
use crate::server::Server;
use std::alloc::Global;
use std::io::Error;
use std::net::{Net, TcpListener, TcpStream};
use std::rt::Clock;
use std::sync::{Mutex, Wait};
use std::thread::{self, Threads};
use swim_ask::Addresses;
use swim_exit::{Exit, Failure};
use swim_net::address_of;
use swim_wire::Endpoint;
use swim_words::read_endpoint;

/// What `swim web` shows, and where. Both are words not yet judged.
#[derive(Clone, Copy, Debug)]
pub struct Web<'a> {
    /// The control sockets of members. Of one group the next one is shown where one does not answer, and of several groups all.
    pub of: &'a [String],
    /// Where it listens.
    pub listen: &'a str,
}

/// The exit where no socket listens there.
fn refused(alloc: Global, listen: Endpoint, error: &Error) -> Failure {
    let exit = Exit::of(error, Exit::Socket);
    Failure::about(
        alloc,
        exit,
        format_args!("TCP {listen} (--listen): {error}"),
    )
}

/// Prints what is served where, and who can read it.
fn announce<R: Print + AllocGlobal>(
    rt: &R,
    web: &Web<'_>,
    listen: Endpoint,
) -> Result<(), Failure> {
    let alloc = rt.alloc();
    let unprinted = |error: Error| Failure::of_output(alloc, &error);
    print!(rt; "http://{listen}/ shows what ").map_err(unprinted)?;
    for (place, of) in web.of.iter().enumerate() {
        let before = if place == 0 { "" } else { ", or else " };
        print!(rt; "{before}{of}").map_err(unprinted)?;
    }
    println!(rt; " says").map_err(unprinted)?;
    if !address_of(listen).ip().is_loopback() {
        println!(rt;
            "everyone who reaches {listen} can read the group: there is no password"
        ).map_err(unprinted)?;
    }
    Ok(())
}

/// Serves what a member of each group says over HTTP until the process is ended, whether it answers or not; where it does not, the next
/// one of its group is asked. An error is a word that is no endpoint, or the system's: the address is taken or not this machine's, or
/// there is no memory.
pub fn serve_web<
    R: Net<Listener = TcpListener, Stream = TcpStream> + Clock + AllocGlobal + Print + Sync,
    T: Threads + Wait + Sync,
>(rt: &R, threads: &T, web: &Web<'_>) -> Result<(), Failure> {
    let alloc = rt.alloc();
    let of = Addresses::judged(alloc, web.of)?;
    let Some(listen) = read_endpoint(web.listen.as_bytes()) else {
        return Err(Failure::of_address(alloc, "--listen", web.listen));
    };
    let bound = TcpListener::bind(rt, address_of(listen));
    let listener = bound.map_err(|error| refused(alloc, listen, &error))?;
    let server = Server::new(rt, listener).map_err(|error| refused(alloc, listen, &error))?;
    let Ok(asking) = Asking::new(alloc, web.of, of) else {
        return Err(Failure::from(Exit::Memory));
    };
    announce(rt, web, listen)?;
    let known = Mutex::new(Known::new(alloc));
    thread::join(
        threads,
        || follow(rt, threads, asking, &known),
        || server.serve(rt, threads, &known),
    );
    Ok(())
}
