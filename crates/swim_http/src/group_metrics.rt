//! The numbers of several groups, as Prometheus reads them: each with its group.

ghost use Rattle.std.specs.Prelude.{◌≡◌, ◌++◌, OnOk, flat_map};
ghost use Rattle.swim_http.specs.Groups.{alone_of, directory_text, family_help, family_name, family_sample, family_text, info_of, rows_of};

use crate::gauges::{write_head, write_sample};
use crate::group::SeenGroup;
use crate::members::{write_each, write_flag, write_labels};
use crate::metrics::write_counts;
use std::alloc::AllocError;

/// A metric that is told of each group.
#[derive(Clone, Copy, Debug, PartialEq, Eq)]
enum Family {
    /// Whether a member of the group answers.
    Up,
    /// For how long nothing changed.
    Quiet,
    /// How many rows are of each kind.
    Kinds,
    /// The state of each member.
    States,
    /// Who answers.
    Info,
    /// Whether that one is alone.
    Alone,
}

impl Family {
    /// Its name.
    fn name(self) -> &'static str
        ensures { result.now ≡ family_name self }
    {
        match self {
            Family::Up => "swim_up",
            Family::Quiet => "swim_quiet_seconds",
            Family::Kinds => "swim_members",
            Family::States => "swim_member_state",
            Family::Info => "swim_info",
            Family::Alone => "swim_alone",
        }
    }

    /// What it is.
    fn help(self) -> &'static str
        ensures { result.now ≡ family_help self }
    {
        match self {
            Family::Up => "Whether a member of the group answers.",
            Family::Quiet => "Seconds since this server last saw a change of the group.",
            Family::Kinds => "Members of the group by their state.",
            Family::States => "1 for the state of each member that has a row.",
            Family::Info => "Which member of the group answers.",
            Family::Alone => "Whether that member has others to join and knows none of them.",
        }
    }
}

/// Adds which member of a group answers, where one does and tells that.
fn write_info(text: &mut String, group: &SeenGroup) -> Result<(), AllocError>
    ensures { OnOk result (text.new.bytes.items ≡ text.old.bytes.items ++ info_of group.now) }
{
    match (&group.seen.status, &group.seen.about) {
        (Some(_), Some(about)) => write_labels(text, &about.who),
        _ => Ok(()),
    }
}

/// Adds whether that member is alone, where it tells that.
fn write_alone(text: &mut String, group: &SeenGroup) -> Result<(), AllocError>
    ensures { OnOk result (text.new.bytes.items ≡ text.old.bytes.items ++ alone_of group.now) }
{
    match (&group.seen.status, &group.seen.about) {
        (Some(_), Some(about)) => write_flag(text, Some(group.number), about.is_alone),
        _ => Ok(()),
    }
}

/// Adds what a metric of rows says of a group, of which a member answers.
fn write_rows(text: &mut String, group: &SeenGroup, has_states: bool) -> Result<(), AllocError>
    ensures { OnOk result (text.new.bytes.items
        ≡ text.old.bytes.items ++ rows_of has_states group.now) }
{
    if group.seen.status.is_none() {
        return Ok(());
    }
    let rows = group.seen.rows.as_slice();
    if has_states {
        write_each(text, Some(group.number), rows)
    } else {
        write_counts(text, Some(group.number), rows)
    }
}

/// Adds what a metric says of a group.
fn write_told(text: &mut String, family: Family, group: &SeenGroup) -> Result<(), AllocError>
    ensures { OnOk result (text.new.bytes.items
        ≡ text.old.bytes.items ++ family_sample family group.now) }
{
    match family {
        Family::Up => {
            let is_up = u64::from(group.seen.status.is_some());
            write_sample(text, family.name(), Some(group.number), is_up)
        }
        Family::Quiet => { write_sample(text, family.name(), Some(group.number), group.seen.quiet) }
        Family::Kinds => write_rows(text, group, false),
        Family::States => write_rows(text, group, true),
        Family::Info => write_info(text, group),
        Family::Alone => write_alone(text, group),
    }
}

/// Adds what a metric says of each group.
fn write_samples(text: &mut String, family: Family, groups: &[SeenGroup]) -> Result<(), AllocError>
    ensures { OnOk result (text.new.bytes.items
        ≡ text.old.bytes.items ++ flat_map (family_sample family) groups.now) }
{
    for group in groups {
        write_told(text, family, group)?;
    }
    Ok(())
}

/// Adds a metric of all groups.
fn write_family(text: &mut String, family: Family, groups: &[SeenGroup]) -> Result<(), AllocError>
    ensures { OnOk result (text.new.bytes.items
        ≡ text.old.bytes.items ++ family_text family groups.now) }
{
    write_head(text, family.name(), family.help())?;
    write_samples(text, family, groups)
}

/// Adds the numbers of several groups, as Prometheus reads them.
pub(crate) fn write_group_metrics(text: &mut String, groups: &[SeenGroup]) -> Result<(), AllocError>
    ensures { OnOk result (text.new.bytes.items
        ≡ text.old.bytes.items ++ directory_text groups.now) }
{
    write_family(text, Family::Up, groups)?;
    write_family(text, Family::Quiet, groups)?;
    write_family(text, Family::Kinds, groups)?;
    write_family(text, Family::States, groups)?;
    write_family(text, Family::Info, groups)?;
    write_family(text, Family::Alone, groups)
}
