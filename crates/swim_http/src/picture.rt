//! The group as a picture: its members on a circle.

ghost use Rattle.std.specs.Prelude.{◌<◌, ◌≤◌, length, IfSome};

use crate::metrics::count_kind;
use std::alloc::AllocError;
use std::fmt::{self, Write};
use std::net::Ipv4Addr;
use swim_news::state_name;
use swim_wire::{MEMBERS_MAX, Update, UpdateKind};

/// The most members whose names all stand beside them, outside the circle. Of more the circle is larger, and only those that are not
/// alive have names, inside it.
const NAMED_MAX: usize = 14;

/// The most members whose circles have room for a letter, and the most whose circles stand apart without one.
const LETTERED_MAX: usize = 40;

const APART_MAX: usize = 96;

/// Thousandths of a degree in a whole turn.
const TURN: usize = 360_000;

/// How far a name inside the circle is from the next one at least: beside the middle, and above or below it.
const GAP_BESIDE: usize = 16_000;

const GAP_ABOVE: usize = 36_000;

/// Where a member stands on the circle, in thousandths of a degree from above. It prints as degrees.
#[derive(Clone, Copy)]
struct Angle(usize);

/// Where a name stands: how high above the middle before it is turned, and which end of it is there.
#[derive(Clone, Copy)]
struct NamePlace {
    at: u32,
    anchor: &'static str,
}

impl Angle {
    /// The angle of one of so many members.
    fn of(place: usize, count: usize) -> Angle
        requires some { 0 < count }
        requires fits { place < MEMBERS_MAX }
    {
        Angle(place * TURN / count)
    }

    /// Where the name of a member there stands outside the circle: one beside the circle begins or ends there, and one above or
    /// below has its middle there.
    fn outside(self) -> NamePlace
        ensures { (3 ≤ result.at) × (result.at < 260) }
    {
        let (at, anchor) = match self.0 {
            15_000..=165_000 => (118, "start"),
            195_000..=345_000 => (118, "end"),
            _ => (104, "middle"),
        };
        NamePlace { at, anchor }
    }

    /// The same inside the larger circle.
    fn inside(self) -> NamePlace
        ensures { (3 ≤ result.at) × (result.at < 260) }
    {
        let (at, anchor) = match self.0 {
            30_000..=150_000 => (112, "end"),
            210_000..=330_000 => (112, "start"),
            _ => (142, "middle"),
        };
        NamePlace { at, anchor }
    }

    /// Whether a name inside the circle there keeps clear of one that stands there.
    fn is_clear_of(self, named: Angle) -> bool {
        let gap = match self.0 {
            30_000..=150_000 | 210_000..=330_000 => GAP_BESIDE,
            _ => GAP_ABOVE,
        };
        self.0.saturating_sub(named.0) >= gap
    }
}

impl fmt::Display for Angle {
    fn fmt<W: fmt::Write>(&self, f: &mut fmt::Formatter<W>) -> fmt::Result {
        let (whole, part) = (self.0 / 1000, self.0 % 1000);
        write!(f, "{whole}.{part:03}")
    }
}

/// A circle of members.
#[derive(Clone, Copy)]
struct Ring {
    /// How many they are.
    count: usize,
    /// How high the first one stands; the middle is at 260.
    top: u32,
    /// The radius of a member's own circle.
    radius: u32,
}

impl Ring {
    /// The circle of so many.
    fn of(count: usize) -> Ring
        ensures { result.top ≤ 140 }
    {
        let top = if count <= NAMED_MAX { 140 } else { 92 };
        let radius = if count <= LETTERED_MAX {
            12
        } else if count <= APART_MAX {
            5
        } else {
            2
        };
        Ring { count, top, radius }
    }
}

/// The letter for what a row says.
fn letter(kind: UpdateKind) -> &'static str {
    match kind {
        UpdateKind::Alive => "A",
        UpdateKind::Suspect => "S",
        UpdateKind::Confirm => "F",
    }
}

/// Adds the letter of a member inside its circle, upright.
fn write_letter(text: &mut String, row: &Update, angle: Angle, top: u32) -> Result<(), AllocError>
    requires { top ≤ 140 }
{
    let (letter, line) = (letter(row.kind), top + 5);
    write!(
        text,
        "<text class=\"letter\" x=\"260\" y=\"{line}\" transform=\"rotate(-{angle} 260 {top})\">{letter}</text>"
    )
}

/// Adds the name of a member and what its row says, upright and in two lines.
fn write_name(
    text: &mut String,
    row: &Update,
    angle: Angle,
    place: NamePlace,
) -> Result<(), AllocError>
    requires { (3 ≤ place.at) × (place.at < 260) }
{
    let (host, port) = (Ipv4Addr::from_bits(row.who.address()), row.who.port());
    let state = state_name(row.kind);
    let NamePlace { at, anchor } = place;
    let (upper, lower) = (at - 3, at + 15);
    write!(
        text,
        "<text text-anchor=\"{anchor}\" transform=\"rotate(-{angle} 260 {at})\"><tspan x=\"260\" y=\"{upper}\">{host}</tspan><tspan x=\"260\" y=\"{lower}\">:{port} {state}</tspan></text>"
    )
}

/// Adds a member.
fn write_member(
    text: &mut String,
    row: &Update,
    angle: Angle,
    ring: Ring,
    name_at: Option<NamePlace>,
) -> Result<(), AllocError>
    requires top { ring.top ≤ 140 }
    requires place { IfSome name_at (λ place. (3 ≤ place.at) × (place.at < 260)) }
{
    let (who, state) = (row.who, state_name(row.kind));
    let Ring { top, radius, .. } = ring;
    write!(
        text,
        "<g transform=\"rotate({angle} 260 260)\"><circle class=\"{state}\" cx=\"260\" cy=\"{top}\" r=\"{radius}\"><title>{who} {state}</title></circle>"
    )?;
    if ring.count <= LETTERED_MAX {
        write_letter(text, row, angle, top)?;
    }
    if let Some(place) = name_at {
        write_name(text, row, angle, place)?;
    }
    text.push_str("</g>\n")
}

/// Adds all members, each with its name.
fn write_named(text: &mut String, rows: &[Update], ring: Ring) -> Result<(), AllocError>
    requires most { length rows.now ≤ MEMBERS_MAX }
    requires top { ring.top ≤ 140 }
{
    let count = rows.len();
    for (place, row) in rows.iter().enumerate() {
        let angle = Angle::of(place, count);
        write_member(text, row, angle, ring, Some(angle.outside()))?;
    }
    Ok(())
}

/// Where the name of a member stands in the larger circle: none of one that is alive, and of one that is too near to the one named last.
fn name_of(row: &Update, angle: Angle, named: Option<Angle>) -> Option<NamePlace>
    ensures { IfSome result (λ place. (3 ≤ place.at) × (place.at < 260)) }
{
    let is_clear = match named {
        Some(named) => angle.is_clear_of(named),
        None => true,
    };
    if row.kind != UpdateKind::Alive && is_clear {
        Some(angle.inside())
    } else {
        None
    }
}

/// Adds all members, and names of those that are not alive.
fn write_dots(text: &mut String, rows: &[Update], ring: Ring) -> Result<(), AllocError>
    requires most { length rows.now ≤ MEMBERS_MAX }
    requires top { ring.top ≤ 140 }
{
    let count = rows.len();
    let mut named = None;
    for (place, row) in rows.iter().enumerate() {
        let angle = Angle::of(place, count);
        let name_at = name_of(row, angle, named);
        if name_at.is_some() {
            named = Some(angle);
        }
        write_member(text, row, angle, ring, name_at)?;
    }
    Ok(())
}

/// Adds how many members are of each kind.
fn write_counts(text: &mut String, rows: &[Update]) -> Result<(), AllocError> {
    let alive = count_kind(UpdateKind::Alive, rows);
    let suspect = count_kind(UpdateKind::Suspect, rows);
    let failed = count_kind(UpdateKind::Confirm, rows);
    write!(
        text,
        "<figcaption id=\"counts\"><span class=\"alive\">{alive} alive</span>, <span class=\"suspect\">{suspect} suspect</span>, <span class=\"failed\">{failed} failed</span> (or left)</figcaption>\n"
    )
}

/// Adds the picture of these members, and in words how many are of each kind.
pub(crate) fn write_picture(text: &mut String, rows: &[Update]) -> Result<(), AllocError>
    requires most { length rows.now ≤ MEMBERS_MAX }
{
    let ring = Ring::of(rows.len());
    let radius = 260 - ring.top;
    write!(
        text,
        "<figure>\n<svg viewBox=\"-20 70 560 380\" role=\"img\" aria-labelledby=\"counts\">\n<circle class=\"ring\" cx=\"260\" cy=\"260\" r=\"{radius}\"/>\n"
    )?;
    if ring.count <= NAMED_MAX {
        write_named(text, rows, ring)?;
    } else {
        write_dots(text, rows, ring)?;
    }
    text.push_str("</svg>\n")?;
    write_counts(text, rows)?;
    text.push_str("</figure>\n")
}
