//! The head of a request, read from the bytes that came.

ghost use Rattle.std.specs.Prelude.{◌≡◌, ◌≢◌, IfSome, IfNone, codes, drop, length};
ghost use Rattle.swim_words.specs.Words.{No};
ghost use Rattle.swim_http.specs.Requests.{IsAbsolute, IsMethod, IsPath, IsPathOf, IsReading};
ghost use Rattle.swim_http.specs.Requests.{from_slash, path_in, path_text};

use httparse::spans::{EMPTY_HEADER_SPAN, parse_request};
use httparse::{Error, Status};
use swim_words::split_at_byte;

/// The most bytes of a head that has not ended.
pub const HEAD_MAX: usize = 8192;

/// The most fields of a head.
pub const FIELDS_MAX: usize = 64;

/// What an absolute target begins with, as a proxy is sent: letters of any case.
const SCHEME: &[u8] = b"http://";

/// What a request is to do.
#[derive(Clone, Copy, Debug, PartialEq, Eq)]
pub enum Method {
    /// Give a page.
    Get,
    /// Give the head of its answer alone.
    Head,
    /// Anything else.
    Other,
}

impl Method {
    /// The method with this name.
    fn of(name: &[u8]) -> Method
        ensures { IsMethod name.now result }
    {
        match name {
            b"GET" => Method::Get,
            b"HEAD" => Method::Head,
            _ => Method::Other,
        }
    }
}

/// What is served.
#[derive(Clone, Copy, Debug, PartialEq, Eq)]
pub enum Path {
    /// The group as a page, at `/`.
    Page,
    /// The numbers of the member, at `/metrics`.
    Metrics,
    /// All rows, at `/members.json`.
    Members,
    /// Whether the member is running, at `/health`.
    Health,
}

impl Path {
    /// What is served at this path, if anything is.
    fn of(path: &[u8]) -> Option<Path>
        ensures { IsPath path.now result }
    {
        match path {
            b"/" => Some(Path::Page),
            b"/metrics" => Some(Path::Metrics),
            b"/members.json" => Some(Path::Members),
            b"/health" => Some(Path::Health),
            _ => None,
        }
    }
}

/// The path of a target: what stands before its query.
fn path_in(target: &[u8]) -> &[u8]
    ensures { result.now ≡ path_in target.now }
{
    match split_at_byte(target, b'?') {
        Some((path, _)) => path,
        None => target,
    }
}

/// What stands behind the scheme of an absolute path; none where it is not absolute.
fn after_scheme(path: &[u8]) -> Option<&[u8]>
    ensures absolute { IfSome result (λ rest. IsAbsolute path.now) }
    ensures rest { IfSome result (λ rest. rest.now ≡ drop (length (codes "http://")) path.now) }
    ensures none { IfNone result (¬ IsAbsolute path.now) }
{
    let (scheme, rest) = path.split_at_checked(SCHEME.len())?;
    if scheme.eq_ignore_ascii_case(SCHEME) {
        Some(rest)
    } else {
        None
    }
}

/// What the text has from its first slash on; a slash where it has none.
fn from_slash(text: &[u8]) -> &[u8]
    ensures { result.now ≡ from_slash text.now }
{
    match split_at_byte(text, b'/') {
        Some((host, _)) => &text[host.len()..],
        None => b"/",
    }
}

/// The path of a target without its query, and without the scheme and the host that an absolute target begins with.
fn path_of(target: &[u8]) -> &[u8]
    ensures { IsPathOf target.now result.now }
{
    let path = path_in(target);
    match after_scheme(path) {
        Some(rest) => from_slash(rest),
        None => path,
    }
}

/// A request.
#[derive(Clone, Copy, Debug, PartialEq, Eq)]
pub struct HttpRequest {
    /// What it is to do.
    pub method: Method,
    /// What it asks for; none where nothing is served there.
    pub path: Option<Path>,
}

/// What the bytes that came on a connection say.
#[derive(Clone, Copy, Debug, PartialEq, Eq)]
pub enum RequestReading {
    /// A head that has not ended.
    More,
    /// A request. What follows its head is not looked at.
    Asked(HttpRequest),
    /// No request, whatever follows.
    Bad,
    /// A head of `HEAD_MAX` bytes that has not ended, or one of more than `FIELDS_MAX` fields.
    TooLong,
}

/// What the bytes say that came so far.
pub fn read_request(bytes: &[u8]) -> RequestReading
    ensures { IsReading bytes.now result }
{
    let mut fields = [EMPTY_HEADER_SPAN; FIELDS_MAX];
    match parse_request(bytes, &mut fields) {
        Ok(Status::Complete(head)) => RequestReading::Asked(HttpRequest {
            method: Method::of(head.method.of(bytes)),
            path: Path::of(path_of(head.path.of(bytes))),
        }),
        Ok(Status::Partial) => {
            if bytes.len() < HEAD_MAX {
                RequestReading::More
            } else {
                RequestReading::TooLong
            }
        }
        Err(Error::TooManyHeaders) => RequestReading::TooLong,
        Err(_) => RequestReading::Bad,
    }
}
