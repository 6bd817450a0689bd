//! How values are distributed: how many of 100 are at most so great.

use crate::drawing::{Area, Drawing, LEFT, SPAN};
use crate::ranks::of_hundred;
use crate::thousandths::Thousandths;
use std::alloc::{AllocError, Global};
use std::fmt::Write;

/// How high a curve is.
const HIGH: u64 = 200;

/// Values with a name.
#[derive(Drop)]
pub struct Curve {
    /// The name.
    pub name: &'static str,
    /// The values, in order, in thousandths.
    pub sorted: Vec<u64>,
}

/// The greatest value of some curves.
fn greatest(curves: &[Curve]) -> u64 {
    let mut most = 1;
    for curve in curves {
        most = most.max(of_hundred(curve.sorted.as_slice(), 100).unwrap_or(0));
    }
    most
}

/// How far from the left a value is.
fn x_of(value: u64, most: u64) -> u64 {
    let far = value.saturating_mul(SPAN).checked_div(most).unwrap_or(0);
    LEFT.saturating_add(far)
}

impl Drawing {
    /// The name of a curve, in its colour.
    fn name(&mut self, place: usize, name: &str) -> Result<(), AllocError> {
        let y = self.height.saturating_add(6);
        let x = LEFT.saturating_add((place as u64).saturating_mul(220));
        let end = x.saturating_add(24);
        writeln!(
            self.body,
            "<path class=\"curve{place}\" d=\"M{x} {y}H{end}\"/>"
        )?;
        self.words("", end.saturating_add(6), y.saturating_add(4), name)
    }

    /// A curve. For each of 100 parts it goes on to the value below which so many are, and up.
    fn curve(&mut self, place: usize, curve: &Curve, most: u64) -> Result<(), AllocError> {
        let bottom = self.height.saturating_add(HIGH);
        write!(
            self.body,
            "<path class=\"curve{place}\" d=\"M{LEFT} {bottom}"
        )?;
        for percent in 1..101usize {
            if let Some(value) = of_hundred(curve.sorted.as_slice(), percent) {
                let x = x_of(value, most);
                let y = bottom.saturating_sub(HIGH * percent as u64 / 100);
                write!(self.body, "H{x}V{y}")?;
            }
        }
        writeln!(self.body, "\"/>")
    }

    /// The lines beside curves, with shares at the left and values below.
    fn axes(&mut self, alloc: Global, most: u64) -> Result<(), AllocError> {
        let area = Area {
            x: LEFT,
            y: self.height,
            width: SPAN,
            height: HIGH,
        };
        self.rectangle("axis", area)?;
        let top = self.height;
        for part in 0..5u64 {
            let share = part * 25;
            let words = format!(in alloc; "{share} of 100")?;
            let y = top.saturating_add(HIGH).saturating_sub(share * 2);
            self.words(
                "end",
                LEFT.saturating_sub(8),
                y.saturating_add(4),
                words.as_str(),
            )?;
        }
        for part in 0..11u64 {
            let value = Thousandths(most.saturating_mul(part) / 10);
            let words = format!(in alloc; "{value}")?;
            let y = top.saturating_add(HIGH).saturating_add(16);
            let x = LEFT.saturating_add(SPAN / 10 * part);
            self.words("mid", x, y, words.as_str())?;
        }
        Ok(())
    }

    /// How the values of at most four curves are distributed.
    pub fn curves(&mut self, alloc: Global, curves: &[Curve]) -> Result<(), AllocError> {
        for (place, curve) in curves.iter().enumerate() {
            self.name(place, curve.name)?;
        }
        self.lower(20);
        let most = greatest(curves);
        self.axes(alloc, most)?;
        for (place, curve) in curves.iter().enumerate() {
            self.curve(place, curve, most)?;
        }
        self.lower(HIGH.saturating_add(40));
        Ok(())
    }
}
