//! An answer that shows several groups.

ghost use Rattle.std.specs.Prelude.{◌≡◌, ◌++◌, OnOk, IfOk, flat_map};
ghost use Rattle.swim_http.specs.Directory.{IsBodyOfAll, IsDirectory, group_health};

use crate::answer::{Content, Response, answer_for};
use crate::directory_page::{write_directory_page, write_directory_rows};
use crate::group::{SeenGroup, phase_of_all};
use crate::group_metrics::write_group_metrics;
use crate::request::RequestReading;
use crate::writing::{sent, write_code, write_phase};
use std::alloc::{AllocError, Global};
use std::fmt::Write;

/// Adds a group's number and what is said of the health of its member.
fn write_health(text: &mut String, group: &SeenGroup) -> Result<(), AllocError>
    ensures { OnOk result (text.new.bytes.items
        ≡ text.old.bytes.items ++ group_health group.now) }
{
    let number = group.number;
    write!(text, "{number} ")?;
    write_phase(text, &group.seen)
}

/// Adds the same of all groups.
fn write_all_health(text: &mut String, groups: &[SeenGroup]) -> Result<(), AllocError>
    ensures { OnOk result (text.new.bytes.items
        ≡ text.old.bytes.items ++ flat_map group_health groups.now) }
{
    for group in groups {
        write_health(text, group)?;
    }
    Ok(())
}

/// The body of an answer.
fn body_of_all(alloc: Global, answer: Response, groups: &[SeenGroup]) -> Result<String, AllocError>
    ensures { IfOk result (λ body. IsBodyOfAll answer groups.now body.bytes.items) }
{
    let mut body = String::new(alloc);
    match answer.content {
        Content::Page => write_directory_page(&mut body, groups)?,
        Content::Metrics => write_group_metrics(&mut body, groups)?,
        Content::Members => write_directory_rows(&mut body, groups)?,
        Content::Phase => write_all_health(&mut body, groups)?,
        Content::Code => write_code(&mut body, answer.code)?,
    }
    Ok(body)
}

/// What is sent on a connection on which this came, as the groups were seen: their numbers, rows and health together.
pub fn directory_response(
    alloc: Global,
    reading: RequestReading,
    groups: &[SeenGroup],
) -> Result<String, AllocError>
    ensures { IfOk result (λ text. IsDirectory reading groups.now text.bytes.items) }
{
    let answer = answer_for(reading, phase_of_all(groups));
    let body = body_of_all(alloc, answer, groups)?;
    sent(alloc, reading, answer, &body)
}
