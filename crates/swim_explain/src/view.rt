//! What a member holds of one member at a moment.

ghost use Rattle.std.specs.Prelude.{◌≡◌};
ghost use Rattle.swim_rules.specs.Rows.{row_of};
ghost use Rattle.swim_explain.specs.Facts.{view_of};

use swim_member::{Member, Phase, Probe};
use swim_rules::Row;
use swim_wire::Endpoint;

/// What a member holds of one member, and what it is itself.
#[derive(Clone, Copy, Debug, PartialEq, Eq)]
pub(crate) struct View {
    /// The ticks that counted.
    pub(crate) time: u64,
    /// Whether it takes part itself.
    pub(crate) phase: Phase,
    /// Its own number.
    pub(crate) number: u64,
    /// The row of the member that is looked at.
    pub(crate) row: Option<Row>,
    /// The probe of this period, of whomever.
    pub(crate) probe: Option<Probe>,
}

/// The row of a member among these.
fn row_of(rows: &[Row], who: Endpoint) -> Option<Row>
    ensures { result ≡ row_of rows.now who }
{
    for row in rows {
        if row.update.who == who {
            return Some(*row);
        }
    }
    None
}

impl View {
    /// What the member holds of `who`.
    pub(crate) fn of(member: &Member, who: Endpoint) -> View
        ensures { result ≡ view_of member.now who }
    {
        let state = member.state();
        View {
            time: state.time,
            phase: state.phase,
            number: state.number,
            row: row_of(&state.rows, who),
            probe: state.probe,
        }
    }
}
