//! Who a member is, and the state of each one that it knows, as Prometheus reads them.

ghost use Rattle.std.specs.Prelude.{◌≡◌, ◌++◌, OnOk};
ghost use Rattle.swim_http.specs.Members.{about_told, alone_sample, alone_text, info_sample, info_text, since_text, state_sample, state_samples, states_text};

use crate::gauges::{GroupLabel, write_gauge, write_head, write_sample};
use std::alloc::AllocError;
use std::fmt::Write;
use swim_news::state_name;
use swim_shell::{About, Who};
use swim_wire::Update;

/// Adds the state of a member of a group.
#[tactic(auto, unfolding(crate::specs::Members::state_sample))]
fn write_state(text: &mut String, group: Option<u64>, row: &Update) -> Result<(), AllocError>
    ensures { OnOk result (text.new.bytes.items
        ≡ text.old.bytes.items ++ state_sample group row.now) }
{
    let (of, who, state) = (GroupLabel { number: group }, row.who, state_name(row.kind));
    write!(
        text,
        "swim_member_state{{group=\"{of}\",member=\"{who}\",state=\"{state}\"}} 1\n"
    )
}

/// Adds the states of the members of a group, one after the other.
pub(crate) fn write_each(
    text: &mut String,
    group: Option<u64>,
    rows: &[Update],
) -> Result<(), AllocError>
    ensures { OnOk result (text.new.bytes.items
        ≡ text.old.bytes.items ++ state_samples group rows.now) }
{
    for row in rows {
        write_state(text, group, row)?;
    }
    Ok(())
}

/// Adds the state of each member that has a row.
pub(crate) fn write_states(
    text: &mut String,
    group: Option<u64>,
    rows: &[Update],
) -> Result<(), AllocError>
    ensures { OnOk result (text.new.bytes.items
        ≡ text.old.bytes.items ++ states_text group rows.now) }
{
    let help = "1 for the state of each member that has a row, itself among them.";
    write_head(text, "swim_member_state", help)?;
    write_each(text, group, rows)
}

/// Adds the labels of a member.
#[tactic(auto, unfolding(crate::specs::Members::info_sample))]
pub(crate) fn write_labels(text: &mut String, who: &Who) -> Result<(), AllocError>
    ensures { OnOk result (text.new.bytes.items
        ≡ text.old.bytes.items ++ info_sample who.now) }
{
    let (me, group, rules, version) = (who.me, who.group, who.rules.code(), who.version.as_str());
    write!(
        text,
        "swim_info{{member=\"{me}\",group=\"{group}\",rules=\"{rules}\",version=\"{version}\"}} 1\n"
    )
}

/// Adds who the member is.
fn write_info(text: &mut String, who: &Who) -> Result<(), AllocError>
    ensures { OnOk result (text.new.bytes.items ≡ text.old.bytes.items ++ info_text who.now) }
{
    write_head(text, "swim_info", "Who the member is.")?;
    write_labels(text, who)
}

/// Adds whether a member of a group is alone.
pub(crate) fn write_flag(
    text: &mut String,
    group: Option<u64>,
    is_alone: bool,
) -> Result<(), AllocError>
    ensures { OnOk result (text.new.bytes.items
        ≡ text.old.bytes.items ++ alone_sample group is_alone) }
{
    write_sample(text, "swim_alone", group, u64::from(is_alone))
}

/// Adds whether the member is alone.
fn write_alone(text: &mut String, group: Option<u64>, is_alone: bool) -> Result<(), AllocError>
    ensures { OnOk result (text.new.bytes.items
        ≡ text.old.bytes.items ++ alone_text group is_alone) }
{
    let help = "Whether the member has others to join and knows none of them.";
    write_head(text, "swim_alone", help)?;
    write_flag(text, group, is_alone)
}

/// Adds who the member is and whether it is alone, where it told that.
pub(crate) fn write_about(
    text: &mut String,
    group: Option<u64>,
    about: &Option<About>,
) -> Result<(), AllocError>
    ensures { OnOk result (text.new.bytes.items
        ≡ text.old.bytes.items ++ about_told group about.now) }
{
    match about {
        Some(about) => {
            write_info(text, &about.who)?;
            write_alone(text, group, about.is_alone)
        }
        None => Ok(()),
    }
}

/// Adds since when the member runs, where that is known.
pub(crate) fn write_since(
    text: &mut String,
    group: Option<u64>,
    since: Option<u64>,
) -> Result<(), AllocError>
    ensures { OnOk result (text.new.bytes.items
        ≡ text.old.bytes.items ++ since_text group since) }
{
    let help = "When the member began, in seconds since 1970.";
    match since {
        Some(since) => write_gauge(text, "swim_up_since", help, group, since),
        None => Ok(()),
    }
}
