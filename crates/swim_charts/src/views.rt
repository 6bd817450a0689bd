//! What a group holds of each member, over time.

use crate::drawing::{Area, Drawing, LEFT, SPAN};
use std::alloc::{AllocError, Global};

/// How far a row is from the next one. A line stands there while the member does not run.
const GAP: u64 = 2;

/// How many of the others that run hold something of a member at a moment. The rest hold nothing of it.
#[derive(Clone, Copy, Debug, PartialEq, Eq)]
pub struct Tally {
    /// Those that hold it for alive.
    pub alive: u64,
    /// Those that suspect it.
    pub suspected: u64,
    /// Those that hold it for failed.
    pub failed: u64,
    /// All others that run.
    pub others: u64,
    /// Whether it runs itself.
    pub is_up: bool,
}

impl Tally {
    /// No other runs.
    pub fn none(is_up: bool) -> Tally {
        Tally {
            alive: 0,
            suspected: 0,
            failed: 0,
            others: 0,
            is_up,
        }
    }
}

/// What a group held of each member at moments that are equally far from each other.
#[derive(Drop)]
pub struct Views {
    /// How many members there are.
    pub members: usize,
    /// Moment by moment, and of each moment member by member.
    pub tallies: Vec<Tally>,
}

/// So many of a row's pixels.
fn part(row: u64, count: u64, all: u64) -> u64 {
    row.saturating_mul(count).checked_div(all).unwrap_or(0)
}

impl Views {
    /// How many moments there are.
    fn moments(&self) -> usize {
        self.tallies.len().checked_div(self.members).unwrap_or(0)
    }

    /// What was held of a member at a moment.
    fn at(&self, moment: usize, member: usize) -> Option<Tally> {
        let place = moment.saturating_mul(self.members).saturating_add(member);
        self.tallies.get(place).copied()
    }

    /// How long it stays so from this moment on, in moments.
    fn lasts(&self, moment: usize, member: usize) -> usize {
        let first = self.at(moment, member);
        for later in moment..self.moments() {
            if self.at(later, member) != first {
                return later.saturating_sub(moment);
            }
        }
        self.moments().saturating_sub(moment)
    }

    /// How high a row is.
    fn row(&self) -> u64 {
        700u64
            .checked_div(self.members as u64)
            .unwrap_or(0)
            .clamp(4, 14)
    }

    /// How far from the left a moment is.
    fn x(&self, moment: usize) -> u64 {
        LEFT.saturating_add(part(SPAN, moment as u64, self.moments() as u64))
    }
}

impl Drawing {
    /// What was held of a member, in the part of its row that the area is.
    fn tally(&mut self, tally: Tally, area: Area) -> Result<(), AllocError> {
        let mut held = 0u64;
        let mut bottom = area.y.saturating_add(area.height);
        for (class, count) in [
            ("alive", tally.alive),
            ("suspected", tally.suspected),
            ("failed", tally.failed),
        ] {
            held = held.saturating_add(count);
            let top = area
                .y
                .saturating_add(area.height)
                .saturating_sub(part(area.height, held, tally.others));
            let height = bottom.saturating_sub(top);
            if height > 0 {
                self.rectangle(
                    class,
                    Area {
                        y: top,
                        height,
                        ..area
                    },
                )?;
            }
            bottom = top;
        }
        if !tally.is_up {
            let y = area.y.saturating_add(area.height);
            self.rectangle(
                "down",
                Area {
                    y,
                    height: GAP,
                    ..area
                },
            )?;
        }
        Ok(())
    }

    /// The row of a member.
    fn row(&mut self, views: &Views, member: usize) -> Result<(), AllocError> {
        let height = views.row();
        let mut moment = 0;
        for _ in 0..views.moments() {
            let lasts = views.lasts(moment, member);
            let Some(tally) = views.at(moment, member) else {
                break;
            };
            let next = moment.saturating_add(lasts.max(1));
            let x = views.x(moment);
            let area = Area {
                x,
                y: self.height,
                width: views.x(next).saturating_sub(x),
                height,
            };
            self.tally(tally, area)?;
            moment = next;
        }
        self.lower(height.saturating_add(GAP));
        Ok(())
    }

    /// The colours with what they stand for.
    fn legend(&mut self) -> Result<(), AllocError> {
        let y = self.height;
        for (place, class) in ["alive", "suspected", "failed", "down"].iter().enumerate() {
            let x = LEFT.saturating_add((place as u64).saturating_mul(120));
            let area = Area {
                x,
                y,
                width: 12,
                height: 12,
            };
            self.rectangle(class, area)?;
            let line = y.saturating_add(11);
            self.words("", x.saturating_add(18), line, class)?;
        }
        self.lower(20);
        Ok(())
    }

    /// Times below a picture, ten parts of so many milliseconds.
    fn times(&mut self, alloc: Global, time: u64) -> Result<(), AllocError> {
        let y = self.height.saturating_add(14);
        for part in 0..11u64 {
            let x = LEFT.saturating_add(SPAN / 10 * part);
            let seconds = time.saturating_mul(part) / 10_000;
            let words = format!(in alloc; "{seconds} s")?;
            self.words("mid", x, y, words.as_str())?;
        }
        self.lower(30);
        Ok(())
    }

    /// What a group held of each member in so many milliseconds, a row a member.
    pub fn views(&mut self, alloc: Global, views: &Views, time: u64) -> Result<(), AllocError> {
        self.legend()?;
        for member in 0..views.members {
            let line = self.height.saturating_add(views.row());
            let number = member.saturating_add(1);
            let words = format!(in alloc; "{number}")?;
            if views.row() >= 10 || number % 10 == 0 {
                self.words("end", LEFT.saturating_sub(8), line, words.as_str())?;
            }
            self.row(views, member)?;
        }
        self.times(alloc, time)
    }
}
