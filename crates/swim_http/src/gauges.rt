//! Metrics that may rise and fall, each with the group that it is of.

ghost use Rattle.std.specs.Prelude.{◌≡◌, ◌++◌, OnOk};
ghost use Rattle.swim_http.specs.Gauges.{gauge, gauge_head, sample, sample_of};

use std::alloc::AllocError;
use std::fmt::{self, Write};

/// The label of a group: empty where the group is not known, which is as no label.
#[derive(Clone, Copy, Debug, PartialEq, Eq)]
pub(crate) struct GroupLabel {
    /// The number of the group.
    pub(crate) number: Option<u64>,
}

impl fmt::Display for GroupLabel {
    ghost use Rattle.std.specs.Prelude.{Some};
    ghost use Rattle.swim_http.specs.Gauges.{group_word};

    ghost output = { λ label. Some (group_word label.number) };

    fn fmt<W: fmt::Write>(&self, f: &mut fmt::Formatter<W>) -> fmt::Result {
        match self.number {
            Some(number) => write!(f, "{number}"),
            None => Ok(()),
        }
    }
}

/// Adds what stands before the numbers of a metric.
#[tactic(auto, unfolding(crate::specs::Gauges::gauge_head))]
pub(crate) fn write_head(text: &mut String, name: &str, help: &str) -> Result<(), AllocError>
    ensures { OnOk result (text.new.bytes.items
        ≡ text.old.bytes.items ++ gauge_head name.now help.now) }
{
    write!(text, "# HELP {name} {help}\n# TYPE {name} gauge\n")
}

/// Adds a number of a metric.
#[tactic(auto, unfolding(crate::specs::Gauges::sample))]
pub(crate) fn write_sample(
    text: &mut String,
    name: &str,
    group: Option<u64>,
    number: u64,
) -> Result<(), AllocError>
    ensures { OnOk result (text.new.bytes.items
        ≡ text.old.bytes.items ++ sample name.now group number) }
{
    let of = GroupLabel { number: group };
    write!(text, "{name}{{group=\"{of}\"}} {number}\n")
}

/// Adds a number of a metric that is of one of several things.
#[tactic(auto, unfolding(crate::specs::Gauges::sample_of))]
pub(crate) fn write_of(
    text: &mut String,
    name: &str,
    group: Option<u64>,
    label: &str,
    word: &str,
    number: u64,
) -> Result<(), AllocError>
    ensures { OnOk result (text.new.bytes.items
        ≡ text.old.bytes.items ++ sample_of name.now group label.now word.now number) }
{
    let of = GroupLabel { number: group };
    write!(
        text,
        "{name}{{group=\"{of}\",{label}=\"{word}\"}} {number}\n"
    )
}

/// Adds a metric with one number.
pub(crate) fn write_gauge(
    text: &mut String,
    name: &str,
    help: &str,
    group: Option<u64>,
    number: u64,
) -> Result<(), AllocError>
    ensures { OnOk result (text.new.bytes.items
        ≡ text.old.bytes.items ++ gauge name.now help.now group number) }
{
    write_head(text, name, help)?;
    write_sample(text, name, group, number)
}
