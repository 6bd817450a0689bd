//! Which answer a request gets.

ghost use Rattle.std.specs.Prelude.{◌≡◌};
ghost use Rattle.swim_http.specs.Answers.{answer_for, answer_asked, code_line, health_code, served};

use crate::request::{HttpRequest, Method, Path, RequestReading};
use swim_member::Phase;

/// The code of an answer.
#[derive(Clone, Copy, Debug, PartialEq, Eq)]
pub enum Code {
    /// 200: here it is.
    Fine,
    /// 400: that was no request.
    Bad,
    /// 404: nothing is served there.
    NotFound,
    /// 405: only GET and HEAD are served.
    NotAllowed,
    /// 431: the head of the request was too long.
    TooLong,
    /// 503: the member is not running, or does not answer.
    Unavailable,
}

impl Code {
    /// The number and the words of the first line.
    pub fn line(self) -> &'static str
        ensures { result.now ≡ code_line self }
    {
        match self {
            Code::Fine => "200 OK",
            Code::Bad => "400 Bad Request",
            Code::NotFound => "404 Not Found",
            Code::NotAllowed => "405 Method Not Allowed",
            Code::TooLong => "431 Request Header Fields Too Large",
            Code::Unavailable => "503 Service Unavailable",
        }
    }
}

/// What an answer has in its body.
#[derive(Clone, Copy, Debug, PartialEq, Eq)]
pub enum Content {
    /// The group as a page.
    Page,
    /// The numbers of the member.
    Metrics,
    /// All rows.
    Members,
    /// The word for the member's phase, or that it does not answer.
    Phase,
    /// The code.
    Code,
}

/// An answer.
#[derive(Clone, Copy, Debug, PartialEq, Eq)]
pub struct Response {
    /// Its code.
    pub code: Code,
    /// What it has in its body.
    pub content: Content,
}

/// The code by which health is answered.
fn health_code(phase: Option<Phase>) -> Code
    ensures { result ≡ health_code phase }
{
    match phase {
        Some(Phase::Running) => Code::Fine,
        _ => Code::Unavailable,
    }
}

/// An answer that says its code alone.
fn plain(code: Code) -> Response
    ensures code { result.code ≡ code }
    ensures content { result.content ≡ Content.Code }
{
    Response {
        code,
        content: Content::Code,
    }
}

/// The answer to what a path is asked for.
fn served(path: Path, phase: Option<Phase>) -> Response
    ensures { result ≡ served path phase }
{
    match path {
        Path::Page => Response {
            code: Code::Fine,
            content: Content::Page,
        },
        Path::Metrics => Response {
            code: Code::Fine,
            content: Content::Metrics,
        },
        Path::Members if phase.is_some() => Response {
            code: Code::Fine,
            content: Content::Members,
        },
        Path::Members => plain(Code::Unavailable),
        Path::Health => Response {
            code: health_code(phase),
            content: Content::Phase,
        },
    }
}

/// The answer to a request, by the member's phase; none where the member does not answer.
fn asked(request: HttpRequest, phase: Option<Phase>) -> Response
    ensures { result ≡ answer_asked request phase }
{
    if request.method == Method::Other {
        return plain(Code::NotAllowed);
    }
    match request.path {
        Some(path) => served(path, phase),
        None => plain(Code::NotFound),
    }
}

/// The answer to what came on a connection, by the member's phase, which is none where the member does not answer. What has not
/// come whole when its time is over is no request.
pub fn answer_for(reading: RequestReading, phase: Option<Phase>) -> Response
    ensures { result ≡ answer_for reading phase }
{
    match reading {
        RequestReading::Asked(request) => asked(request, phase),
        RequestReading::TooLong => plain(Code::TooLong),
        RequestReading::Bad | RequestReading::More => plain(Code::Bad),
    }
}
