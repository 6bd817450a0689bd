//! Where a member is asked.

use crate::asking::LIMIT_MILLIS;
use crate::lookup::Lookup;
use std::alloc::Global;
use std::net::Net;
use std::thread::Threads;
use std::time::Instant;
use std::{io, str};
use swim_exit::{Exit, Failure};
use swim_net::first_address;
use swim_settings::{ControlPlace, read_control};
use swim_wire::Endpoint;
use swim_words::read_host;

/// What the word is called that names a control socket.
const ADDRESS: &str = "ADDR";

/// Refuses a word that names no control socket: it is neither the path of one, nor an endpoint, nor a host name and a port.
pub(crate) fn judge(alloc: Global, word: &str) -> Result<(), Failure> {
    if read_control(word).is_some() || read_host(word.as_bytes()).is_some() {
        Ok(())
    } else {
        Err(Failure::of_address(alloc, ADDRESS, word))
    }
}

/// The exit where a host has no address.
fn unknown(alloc: Global, word: &str) -> Failure {
    Failure::about(alloc, Exit::Host, format_args!("{ADDRESS} {word:?}"))
}

/// The address that was looked up of the host that a word names. An error is that there is none, or no memory.
fn taken(
    alloc: Global,
    word: &str,
    found: io::Result<Option<Endpoint>>,
) -> Result<ControlPlace, Failure> {
    match found {
        Ok(Some(endpoint)) => Ok(ControlPlace::Tcp(endpoint)),
        Ok(None) => Err(unknown(alloc, word)),
        Err(error) => {
            let exit = Exit::of(&error, Exit::Host);
            Err(Failure::about(alloc, exit, format_args!("{ADDRESS} {word:?}: {error}")))
        }
    }
}

/// The host and the port that a word names, which is neither a path nor an endpoint.
fn host_in(word: &str) -> Option<(&str, u16)> {
    let (host, port) = read_host(word.as_bytes())?;
    Some((str::from_utf8(host).ok()?, port))
}

/// The control socket that a word names now: a path or an endpoint as it stands, or else a port of a host, which is looked up each time. An error
/// says that the word is none of these, that no such host was found, or that there was no memory. A lookup may take long.
pub fn find<R: Net + AllocGlobal>(rt: &R, word: &str) -> Result<ControlPlace, Failure> {
    if let Some(place) = read_control(word) {
        return Ok(place);
    }
    let Some((host, port)) = host_in(word) else {
        return Err(Failure::of_address(rt.alloc(), ADDRESS, word));
    };
    taken(rt.alloc(), word, first_address(rt, host, port))
}

/// The same, where a lookup that takes more than 5 seconds from that start on is given up: then no such host was found. Where there is
/// no thread for it, it is waited for.
pub(crate) fn find_from<T: Threads>(
    rt: &HostRuntime,
    threads: &T,
    word: &str,
    start: &Instant,
) -> Result<ControlPlace, Failure> {
    if let Some(place) = read_control(word) {
        return Ok(place);
    }
    let alloc = rt.alloc();
    let Some((host, port)) = host_in(word) else {
        return Err(Failure::of_address(alloc, ADDRESS, word));
    };
    let Some(lookup) = Lookup::start(threads, *rt, host, port) else {
        return taken(alloc, word, first_address(rt, host, port));
    };
    match lookup.found_within(threads, rt, start, LIMIT_MILLIS) {
        Some(found) => taken(alloc, word, found),
        None => Err(unknown(alloc, word)),
    }
}
