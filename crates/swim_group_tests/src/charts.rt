//! Ranks, spreads, and small pictures.

use crate::same::{given, holds_at, same, same_at};
use std::test::Fail;
use swim_charts::{
    Curve, Drawing, Spread, Tally, Thousandths, Tiles, Views, of_hundred, spread_of,
};

#[test]
fn ranks_are_the_nearest(rt: HostRuntime) {
    let rows = [
        (0, 10),
        (1, 10),
        (25, 10),
        (26, 20),
        (50, 20),
        (75, 30),
        (99, 40),
        (100, 40),
    ];
    for (percent, value) in rows {
        let found = of_hundred(&[10, 20, 30, 40], percent);
        same_at(&rt, &percent, found, Some(value));
    }
    same(&rt, of_hundred(&[], 50), None);
}

#[test]
fn a_spread_has_its_ends_and_its_middle(rt: HostRuntime) -> Result<(), Fail> {
    let values = given(&rt, vec![in rt.alloc(); 9, 2, 7, 4]);
    let found = Spread {
        least: 2,
        median: 4,
        greatest: 9,
    };
    same(&rt, spread_of(values)?, Some(found));
    same(&rt, spread_of(Vec::new(rt.alloc()))?, None);
    Ok(())
}

#[test]
fn thousandths_have_three_decimals(rt: HostRuntime) -> Result<(), Fail> {
    let text = given(
        &rt,
        format!(in rt.alloc(); "{} {}", Thousandths(7), Thousandths(12_340)),
    );
    same(&rt, text.as_str(), "0.007 12.340");
    Ok(())
}

/// What two others hold of a member.
fn tally(alive: u64, failed: u64) -> Tally {
    Tally {
        alive,
        suspected: 0,
        failed,
        others: 2,
        is_up: true,
    }
}

#[test]
fn views_are_rectangles_as_long_as_they_last(rt: HostRuntime) -> Result<(), Fail> {
    let tallies = given(
        &rt,
        vec![in rt.alloc(); tally(2, 0), tally(2, 0), tally(1, 1)],
    );
    let views = Views {
        members: 1,
        tallies,
    };
    let mut drawing = Drawing::new(rt.alloc());
    given(&rt, drawing.views(rt.alloc(), &views, 3000));
    let text = given(&rt, drawing.end(rt.alloc()));
    let rows = [
        // two moments of three, all of a row of 14; then each half of it
        "<rect class=\"alive\" x=\"80\" y=\"30\" width=\"600\" height=\"14\"/>\n",
        "<rect class=\"alive\" x=\"680\" y=\"37\" width=\"300\" height=\"7\"/>\n",
        "<rect class=\"failed\" x=\"680\" y=\"30\" width=\"300\" height=\"7\"/>\n",
        "<text class=\"mid\" x=\"980\" y=\"60\">3 s</text>\n",
    ];
    for row in rows {
        holds_at(&rt, &text, text.as_str().contains(row));
    }
    Ok(())
}

#[test]
fn curves_go_up_at_their_values(rt: HostRuntime) -> Result<(), Fail> {
    let curve = Curve {
        name: "confirmed",
        sorted: vec![in rt.alloc(); 1000, 2000]?,
    };
    let mut drawing = Drawing::new(rt.alloc());
    given(&rt, drawing.curves(rt.alloc(), &[curve]));
    let text = given(&rt, drawing.end(rt.alloc()));
    // half of them at half of the way
    holds_at(&rt, &text, text.as_str().contains("H530V130H980V128"));
    Ok(())
}

#[test]
fn the_greatest_tile_is_the_deepest(rt: HostRuntime) -> Result<(), Fail> {
    let alloc = rt.alloc();
    let tiles = Tiles {
        columns: vec![in alloc; String::from_str(alloc, "suspect 20")?]?,
        rows: vec![in alloc;
            String::from_str(alloc, "loss 0")?,
            String::from_str(alloc, "loss 9")?,
        ]?,
        cells: vec![in alloc; Some(500), Some(1000)]?,
    };
    let mut drawing = Drawing::new(alloc);
    given(&rt, drawing.tiles(alloc, &tiles));
    let text = given(&rt, drawing.end(alloc));
    for row in ["\"0.35\"", "\"0.70\"", ">0.500<", ">1.000<"] {
        holds_at(&rt, &text, text.as_str().contains(row));
    }
    Ok(())
}
