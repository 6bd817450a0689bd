//! Several groups as a page, and all their rows.

use crate::group::SeenGroup;
use crate::metrics::count_kind;
use crate::page::{HEAD, STYLE, TAIL, remark};
use crate::rows::write_row;
use std::alloc::AllocError;
use std::fmt::Write;
use swim_news::state_name;
use swim_wire::{Update, UpdateKind};

/// How many rows of this kind the groups have that answer.
fn count_in_all(kind: UpdateKind, groups: &[SeenGroup]) -> usize {
    let mut all: usize = 0;
    for group in groups {
        if group.seen.status.is_some() {
            all = all.saturating_add(count_kind(kind, group.seen.rows.as_slice()));
        }
    }
    all
}

/// Adds what the page is about: how many groups, and how many members are alive of those that are known.
fn write_title(text: &mut String, groups: &[SeenGroup]) -> Result<(), AllocError> {
    let count = groups.len();
    let alive = count_in_all(UpdateKind::Alive, groups);
    let suspected = count_in_all(UpdateKind::Suspect, groups);
    let all = alive.saturating_add(suspected);
    let all = all.saturating_add(count_in_all(UpdateKind::Confirm, groups));
    write!(text, "{count} groups: {alive} of {all} alive")
}

/// Adds the row of a group.
fn write_group(text: &mut String, group: &SeenGroup) -> Result<(), AllocError> {
    let (number, quiet, rows) = (group.number, group.seen.quiet, group.seen.rows.as_slice());
    let Some(status) = group.seen.status else {
        return write!(
            text,
            "<tr><td>{number}</td><td class=\"lost\" colspan=\"5\">no member answers, since {quiet} s</td></tr>\n"
        );
    };
    write!(text, "<tr><td>{number}</td><td>")?;
    if let Some(about) = &group.seen.about {
        let me = about.who.me;
        write!(text, "{me}, ")?;
    }
    let phase = status.phase.name();
    write!(text, "{phase}</td>")?;
    for kind in [UpdateKind::Alive, UpdateKind::Suspect, UpdateKind::Confirm] {
        let count = count_kind(kind, rows);
        write!(text, "<td class=\"number\">{count}</td>")?;
    }
    write!(text, "<td class=\"number\">{quiet} s</td></tr>\n")
}

/// Adds the table of groups.
fn write_groups(text: &mut String, groups: &[SeenGroup]) -> Result<(), AllocError> {
    text.push_str(
        "<table>\n<caption>Groups</caption>\n<thead><tr><th scope=\"col\">Group</th><th scope=\"col\">Says</th><th scope=\"col\" class=\"number\">Alive</th><th scope=\"col\" class=\"number\">Suspect</th><th scope=\"col\" class=\"number\">Failed</th><th scope=\"col\" class=\"number\">Last change</th></tr></thead>\n<tbody>\n",
    )?;
    for group in groups {
        write_group(text, group)?;
    }
    text.push_str("</tbody>\n</table>\n")
}

/// Adds the row of a member of a group.
fn write_member(text: &mut String, group: &SeenGroup, row: &Update) -> Result<(), AllocError> {
    let (who, state, number) = (row.who, state_name(row.kind), row.number);
    let (of, remark) = (group.number, remark(group.seen.leavers.as_slice(), who));
    write!(
        text,
        "<tr><td>{of}</td><td>{who}</td><td class=\"{state}\">{state}{remark}</td><td class=\"number\">{number}</td></tr>\n"
    )
}

/// Adds the members of a group that are not alive.
fn write_others(text: &mut String, group: &SeenGroup) -> Result<(), AllocError> {
    for row in group.seen.rows.as_slice() {
        if row.kind != UpdateKind::Alive {
            write_member(text, group, row)?;
        }
    }
    Ok(())
}

/// Adds the table of all members that are not alive.
fn write_all_others(text: &mut String, groups: &[SeenGroup]) -> Result<(), AllocError> {
    text.push_str(
        "<table>\n<caption>Members that are not alive</caption>\n<thead><tr><th scope=\"col\">Group</th><th scope=\"col\">Member</th><th scope=\"col\">State</th><th scope=\"col\" class=\"number\">Incarnation</th></tr></thead>\n<tbody>\n",
    )?;
    for group in groups {
        write_others(text, group)?;
    }
    text.push_str("</tbody>\n</table>\n")
}

/// Adds the whole page.
pub(crate) fn write_directory_page(
    text: &mut String,
    groups: &[SeenGroup],
) -> Result<(), AllocError> {
    text.push_str(HEAD)?;
    write_title(text, groups)?;
    text.push_str(STYLE)?;
    write_title(text, groups)?;
    text.push_str("</h1>\n<div class=\"views\">\n")?;
    write_groups(text, groups)?;
    write_all_others(text, groups)?;
    text.push_str(TAIL)
}

/// Adds the rows of a group as JSON, an object a line, each with the number of its group.
fn write_rows(text: &mut String, group: &SeenGroup) -> Result<(), AllocError> {
    let of = group.number;
    for row in group.seen.rows.as_slice() {
        write!(text, "{{\"group\":{of},")?;
        write_row(text, row)?;
    }
    Ok(())
}

/// Adds the rows of all groups.
pub(crate) fn write_directory_rows(
    text: &mut String,
    groups: &[SeenGroup],
) -> Result<(), AllocError> {
    for group in groups {
        write_rows(text, group)?;
    }
    Ok(())
}
