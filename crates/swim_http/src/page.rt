//! The group as a page, whole without scripts. With them it follows what changes.

use crate::metrics::count_kind;
use crate::picture::write_picture;
use crate::seen::Seen;
use std::alloc::AllocError;
use std::fmt::Write;
use swim_news::state_name;
use swim_shell::{About, Alone};
use swim_wire::{Endpoint, Update, UpdateKind};

/// What stands before the title.
pub(crate) const HEAD: &str = r#"<!DOCTYPE html>
<html lang="en">
<head>
<meta charset="utf-8">
<meta name="viewport" content="width=device-width, initial-scale=1">
<title>"#;

/// What stands between the title and the body. Without scripts a browser loads the page anew each five seconds.
pub(crate) const STYLE: &str = r#"</title>
<noscript><meta http-equiv="refresh" content="5"></noscript>
<style>
:root { color-scheme: light dark; --text: #1f2328; --ground: #ffffff; --line: #d1d9e0; --alive: #1a7f37; --suspect: #8a5a00; --failed: #b3202b; }
@media (prefers-color-scheme: dark) { :root { --text: #e6edf3; --ground: #0d1117; --line: #3d444d; --alive: #4ac26b; --suspect: #e3a72f; --failed: #ff8078; } }
body { margin: 0 auto; max-width: 62rem; padding: 1rem; font: 1rem/1.5 system-ui, sans-serif; color: var(--text); background: var(--ground); }
h1 { margin: 0; font-size: 1.5rem; }
p { margin: .25rem 0 1rem; }
.views { display: flex; flex-wrap: wrap; gap: 1rem 2rem; align-items: flex-start; }
figure { flex: 1 1 20rem; margin: 0; max-width: 34rem; }
svg { display: block; width: 100%; height: auto; overflow: visible; }
svg text { font-size: 14px; fill: var(--text); }
svg .letter { font-size: 14px; font-weight: 700; text-anchor: middle; fill: var(--ground); }
@media (max-width: 40rem) { svg text { font-size: 17px; } }
.ring { fill: none; stroke: var(--line); stroke-width: 2; }
circle.alive { fill: var(--alive); }
circle.suspect { fill: var(--suspect); }
circle.failed { fill: var(--failed); }
figcaption { text-align: center; }
table { flex: 1 1 18rem; border-collapse: collapse; }
caption { text-align: left; font-weight: 700; }
th, td { padding: .25rem .5rem; border-bottom: 1px solid var(--line); text-align: left; }
td { font-variant-numeric: tabular-nums; }
.number { text-align: right; }
.lost, #lost { font-weight: 700; color: var(--failed); }
.old { filter: grayscale(1); opacity: .6; }
span.alive, td.alive { color: var(--alive); font-weight: 600; }
span.suspect, td.suspect { color: var(--suspect); font-weight: 600; }
span.failed, td.failed { color: var(--failed); font-weight: 600; }
</style>
</head>
<body>
<main>
<h1>"#;

/// What stands behind what is seen. Each two seconds the script asks for the rows, and where they are others, and else each ten
/// seconds, it takes what is seen from the page anew.
pub(crate) const TAIL: &str = r#"</div>
</main>
<p id="lost" role="status"></p>
<p>For programs: <a href="/metrics">metrics</a>, <a href="/members.json">members</a>, <a href="/health">health</a>.</p>
<script>
"use strict";
let last = null, turn = 0;
async function read(path) {
  const answer = await fetch(path, { cache: "no-store" });
  return answer.status + await answer.text();
}
async function follow() {
  const lost = document.getElementById("lost");
  try {
    const now = await read("/members.json");
    turn += 1;
    if (now !== last || turn % 5 === 0) {
      const page = new DOMParser().parseFromString((await read("/")).slice(3), "text/html");
      document.querySelector("main").replaceWith(page.querySelector("main"));
      document.title = page.title;
      last = now;
    }
    lost.textContent = "";
  } catch (error) {
    last = null;
    lost.textContent = "This page's server does not answer. What stands here is old.";
    document.querySelector(".views").classList.add("old");
  }
  setTimeout(follow, 2000);
}
follow();
</script>
</body>
</html>
"#;

/// Adds what the page is about: the member, if it told who it is, and how many are alive of those that it knows.
fn write_title(text: &mut String, seen: &Seen) -> Result<(), AllocError> {
    match &seen.about {
        Some(about) => {
            let me = about.who.me;
            write!(text, "{me}: ")?;
        }
        None => text.push_str("SWIM: ")?,
    }
    if seen.status.is_none() {
        return text.push_str("no answer");
    }
    let rows = seen.rows.as_slice();
    let (alive, all) = (count_kind(UpdateKind::Alive, rows), rows.len());
    write!(text, "{alive} of {all} alive")
}

/// Adds that the member is alone, where it is.
fn write_alone(text: &mut String, about: &About) -> Result<(), AllocError> {
    if !about.is_alone {
        return Ok(());
    }
    let alone = Alone(about.who);
    write!(text, "<p class=\"lost\">{alone}</p>\n")
}

/// Adds who the member is, where it told that, and that it is alone, where it is.
fn write_about(text: &mut String, about: &Option<About>) -> Result<(), AllocError> {
    let Some(about) = about else {
        return Ok(());
    };
    let who = about.who;
    write!(text, "<p>{who}.</p>\n")?;
    write_alone(text, about)
}

/// Adds what the member says of itself, or that it does not answer.
fn write_state(text: &mut String, seen: &Seen) -> Result<(), AllocError> {
    let quiet = seen.quiet;
    let Some(status) = seen.status else {
        return write!(
            text,
            "<p class=\"lost\">The member does not answer, since {quiet} s. What stands here is what it said last.</p>\n"
        );
    };
    let (phase, number) = (status.phase.name(), status.number);
    write!(
        text,
        "<p>It is <strong>{phase}</strong>, with incarnation {number}. Last change: {quiet} s ago.</p>\n"
    )?;
    write_about(text, &seen.about)
}

/// What stands behind the state of a member, where it may have left.
pub(crate) fn remark(leavers: &[Endpoint], who: Endpoint) -> &'static str {
    if leavers.contains(&who) {
        " (it may have left)"
    } else {
        ""
    }
}

/// Adds the row of a member.
fn write_row(text: &mut String, row: &Update, leavers: &[Endpoint]) -> Result<(), AllocError> {
    let (who, state, number) = (row.who, state_name(row.kind), row.number);
    let remark = remark(leavers, who);
    write!(
        text,
        "<tr><td>{who}</td><td class=\"{state}\">{state}{remark}</td><td class=\"number\">{number}</td></tr>\n"
    )
}

/// Adds the rows of this kind.
fn write_rows(text: &mut String, kind: UpdateKind, seen: &Seen) -> Result<(), AllocError> {
    for row in seen.rows.as_slice() {
        if row.kind == kind {
            write_row(text, row, seen.leavers.as_slice())?;
        }
    }
    Ok(())
}

/// Adds the table of all members, those that failed first, and then those that are suspected.
fn write_table(text: &mut String, seen: &Seen) -> Result<(), AllocError> {
    text.push_str(
        "<table>\n<caption>Members</caption>\n<thead><tr><th scope=\"col\">Member</th><th scope=\"col\">State</th><th scope=\"col\" class=\"number\">Incarnation</th></tr></thead>\n<tbody>\n",
    )?;
    write_rows(text, UpdateKind::Confirm, seen)?;
    write_rows(text, UpdateKind::Suspect, seen)?;
    write_rows(text, UpdateKind::Alive, seen)?;
    text.push_str("</tbody>\n</table>\n")
}

/// Adds the picture and the table, grey where the member does not answer.
fn write_views(text: &mut String, seen: &Seen) -> Result<(), AllocError> {
    let class = if seen.status.is_some() {
        "views"
    } else {
        "views old"
    };
    write!(text, "<div class=\"{class}\">\n")?;
    write_picture(text, seen.rows.as_slice())?;
    write_table(text, seen)
}

/// Adds the whole page.
pub(crate) fn write_page(text: &mut String, seen: &Seen) -> Result<(), AllocError> {
    text.push_str(HEAD)?;
    write_title(text, seen)?;
    text.push_str(STYLE)?;
    write_title(text, seen)?;
    text.push_str("</h1>\n")?;
    write_state(text, seen)?;
    write_views(text, seen)?;
    text.push_str(TAIL)
}
