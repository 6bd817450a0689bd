//! An answer as it is sent.

ghost use Rattle.std.specs.Prelude.{◌≡◌, ◌++◌, ◌∷◌, [], OnOk, IfOk};
ghost use Rattle.swim_http.specs.Answers.{IsBody, IsResponse, allow_text, alone_words, health_line, code_line, content_type, http_head, code_head, phase_in, safety_text, sent_text, size_text, type_text, wants_head};

use crate::answer::{Code, Content, Response, answer_for};
use crate::metrics::write_metrics;
use crate::page::write_page;
use crate::request::{HttpRequest, Method, RequestReading};
use crate::rows::write_members;
use crate::seen::Seen;
use std::alloc::{AllocError, Global};
use std::fmt::Write;

/// What a browser may do with an answer: keep none, guess no type, and load nothing from elsewhere.
const SAFETY: &str =
    "Connection: close\r\nCache-Control: no-store\r\nX-Content-Type-Options: nosniff\r\nContent-Security-Policy: default-src 'none'; connect-src 'self'; script-src 'unsafe-inline'; style-src 'unsafe-inline'; base-uri 'none'; form-action 'none'; frame-ancestors 'none'\r\n\r\n";

/// The type of a body.
fn content_type(content: Content) -> &'static str
    ensures { result.now ≡ content_type content }
{
    match content {
        Content::Page => "text/html; charset=utf-8",
        Content::Metrics => "text/plain; version=0.0.4; charset=utf-8",
        Content::Members => "application/x-ndjson",
        Content::Phase | Content::Code => "text/plain; charset=utf-8",
    }
}

/// The field that a refused method owes.
fn allow(code: Code) -> &'static str
    ensures { result.now ≡ allow_text code }
{
    match code {
        Code::NotAllowed => "Allow: GET, HEAD\r\n",
        _ => "",
    }
}

/// Adds the first line of an answer, and the methods there are where another one was refused.
#[tactic(auto, unfolding(crate::specs::Answers::code_head))]
fn write_line(text: &mut String, code: Code) -> Result<(), AllocError>
    ensures { OnOk result (text.new.bytes.items ≡ text.old.bytes.items ++ code_head code) }
{
    let line = code.line();
    let allow = allow(code);
    write!(text, "HTTP/1.1 {line}\r\n{allow}")
}

/// Adds the type of a body.
#[tactic(auto, unfolding(crate::specs::Answers::type_text))]
fn write_type(text: &mut String, content: Content) -> Result<(), AllocError>
    ensures { OnOk result (text.new.bytes.items ≡ text.old.bytes.items ++ type_text content) }
{
    let kind = content_type(content);
    write!(text, "Content-Type: {kind}\r\n")
}

/// Adds how many bytes a body has.
#[tactic(auto, unfolding(crate::specs::Answers::size_text))]
fn write_size(text: &mut String, size: usize) -> Result<(), AllocError>
    ensures { OnOk result (text.new.bytes.items ≡ text.old.bytes.items ++ size_text size) }
{
    write!(text, "Content-Length: {size}\r\n")
}

/// Adds what a browser may do with an answer, which ends its head.
#[tactic(auto, unfolding(crate::specs::Answers::safety_text))]
fn write_safety(text: &mut String) -> Result<(), AllocError>
    ensures { OnOk result (text.new.bytes.items ≡ text.old.bytes.items ++ safety_text) }
{
    text.push_str(SAFETY)
}

/// Adds the head of an answer whose body has so many bytes.
fn write_head(text: &mut String, answer: Response, size: usize) -> Result<(), AllocError>
    ensures { OnOk result (text.new.bytes.items
        ≡ text.old.bytes.items ++ http_head answer size) }
{
    write_line(text, answer.code)?;
    write_type(text, answer.content)?;
    write_size(text, size)?;
    write_safety(text)
}

/// What stands behind the phase.
fn alone_words(is_alone: bool) -> &'static str
    ensures { result.now ≡ alone_words is_alone }
{
    if is_alone { ", alone" } else { "" }
}

/// Adds the phase and whether the member is alone, or that it does not answer.
pub(crate) fn write_phase(text: &mut String, seen: &Seen) -> Result<(), AllocError>
    ensures { OnOk result (text.new.bytes.items
        ≡ text.old.bytes.items ++ health_line seen.now) }
{
    match seen.phase() {
        Some(phase) => {
            let (phase, alone) = (phase.name(), alone_words(seen.is_alone()));
            writeln!(text, "{phase}{alone}")
        }
        None => text.push_str("not answering\n"),
    }
}

/// Adds the line of a code.
pub(crate) fn write_code(text: &mut String, code: Code) -> Result<(), AllocError>
    ensures { OnOk result (text.new.bytes.items
        ≡ text.old.bytes.items ++ (code_line code ++ 10 ∷ [])) }
{
    let line = code.line();
    writeln!(text, "{line}")
}

/// The body of an answer.
fn body_of(alloc: Global, answer: Response, seen: &Seen) -> Result<String, AllocError>
    ensures { IfOk result (λ body. IsBody answer seen.now body.bytes.items) }
{
    let mut body = String::new(alloc);
    match answer.content {
        Content::Page => write_page(&mut body, seen)?,
        Content::Metrics => write_metrics(&mut body, seen)?,
        Content::Members => write_members(&mut body, &seen.rows)?,
        Content::Phase => write_phase(&mut body, seen)?,
        Content::Code => write_code(&mut body, answer.code)?,
    }
    Ok(body)
}

/// Whether the head of the answer is wanted alone.
fn wants_head(reading: RequestReading) -> bool
    ensures { result ≡ wants_head reading }
{
    matches!(
        reading,
        RequestReading::Asked(HttpRequest {
            method: Method::Head,
            ..
        })
    )
}

/// An answer with this body, or its head alone where that is wanted.
pub(crate) fn sent(
    alloc: Global,
    reading: RequestReading,
    answer: Response,
    body: &str,
) -> Result<String, AllocError>
    ensures { IfOk result (λ text. text.bytes.items ≡ sent_text reading answer body.now) }
{
    let mut text = String::new(alloc);
    write_head(&mut text, answer, body.len())?;
    if !wants_head(reading) {
        text.push_str(body)?;
    }
    Ok(text)
}

/// What is sent on a connection on which this came, as the member was seen.
pub fn response(alloc: Global, reading: RequestReading, seen: &Seen) -> Result<String, AllocError>
    ensures { IfOk result (λ text. IsResponse reading seen.now text.bytes.items) }
{
    let answer = answer_for(reading, seen.phase());
    let body = body_of(alloc, answer, seen)?;
    sent(alloc, reading, answer, &body)
}
