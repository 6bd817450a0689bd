//! All rows of a member, a JSON object a line.

use std::alloc::AllocError;
use std::fmt::Write;
use swim_news::{Rows, state_name};
use swim_wire::Update;

/// Adds what a row says, which ends the object and the line.
pub(crate) fn write_row(text: &mut String, row: &Update) -> Result<(), AllocError> {
    let (who, kind, number) = (row.who, state_name(row.kind), row.number);
    write!(
        text,
        "\"member\":\"{who}\",\"kind\":\"{kind}\",\"number\":{number}}}\n"
    )
}

/// Adds all rows, as `swim members --json` prints them.
pub(crate) fn write_members(text: &mut String, rows: &Rows) -> Result<(), AllocError> {
    for row in rows.as_slice() {
        text.push_str("{")?;
        write_row(text, row)?;
    }
    Ok(())
}
