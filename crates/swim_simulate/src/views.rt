//! What each member holds of each other.

use crate::fault::SimulateFault;
use crate::place::{endpoint_of, place_of};
use arrayvec::ArrayVec;
use std::alloc::Global;
use std::mem;
use swim_wire::{Cursor, MEMBERS_MAX, UPDATES_MAX, Update, UpdateKind};

/// What a member holds of another.
#[derive(Clone, Copy, Debug, PartialEq, Eq)]
pub enum View {
    /// Nothing.
    Unknown,
    /// It is there.
    Alive,
    /// It did not answer.
    Suspect,
    /// It failed or left.
    Confirm,
}

impl From<UpdateKind> for View {
    fn from(kind: UpdateKind) -> View {
        match kind {
            UpdateKind::Alive => View::Alive,
            UpdateKind::Suspect => View::Suspect,
            UpdateKind::Confirm => View::Confirm,
        }
    }
}

impl View {
    /// The kind of a row that says so; none where there is no row.
    fn kind(self) -> Option<UpdateKind> {
        match self {
            View::Unknown => None,
            View::Alive => Some(UpdateKind::Alive),
            View::Suspect => Some(UpdateKind::Suspect),
            View::Confirm => Some(UpdateKind::Confirm),
        }
    }
}

/// The views of a group.
#[derive(Drop)]
pub(crate) struct GroupViews {
    count: usize,
    /// How many views of others are that they are there.
    alive: usize,
    /// Row by row; the row of a member has its views.
    cells: Vec<View>,
}

impl GroupViews {
    /// Nobody knows anybody.
    pub(crate) fn new(alloc: Global, count: usize) -> Result<GroupViews, SimulateFault> {
        let mut cells = Vec::new(alloc);
        cells.resize(count.saturating_mul(count), View::Unknown)?;
        Ok(GroupViews {
            count,
            alive: 0,
            cells,
        })
    }

    /// Where the view of a member of another stands.
    fn at(&self, observer: usize, who: usize) -> usize {
        observer.saturating_mul(self.count).saturating_add(who)
    }

    /// What a member holds of another.
    pub(crate) fn get(&self, observer: usize, who: usize) -> View {
        match self.cells.get(self.at(observer, who)) {
            Some(view) => *view,
            None => View::Unknown,
        }
    }

    /// The row of a member that says what it holds of another; none where it holds nothing. Its number is any.
    fn row(&self, observer: usize, who: usize) -> Option<Update> {
        let kind = self.get(observer, who).kind()?;
        let who = endpoint_of(who.min(MEMBERS_MAX));
        Some(Update {
            kind,
            who,
            number: 1,
        })
    }

    /// The rows of a member after a place, as many as a page has.
    pub(crate) fn page(&self, observer: usize, after: Cursor) -> ArrayVec<Update, UPDATES_MAX> {
        let first = match after.endpoint() {
            Some(last) => place_of(last).saturating_add(1),
            None => 0,
        };
        let mut page = ArrayVec::new();
        for who in first..self.count {
            if page.is_full() {
                break;
            }
            if let Some(row) = self.row(observer, who) {
                let _ = page.try_push(row);
            }
        }
        page
    }

    /// Whether each holds each other for alive.
    pub(crate) fn are_whole(&self) -> bool {
        self.alive == self.count.saturating_mul(self.count.saturating_sub(1))
    }

    /// A member holds this of another from now on, and held that.
    fn count_view(&mut self, observer: usize, who: usize, was: View, is: View) {
        if observer == who || was == is {
            return;
        }
        if was == View::Alive {
            self.alive = self.alive.saturating_sub(1);
        }
        if is == View::Alive {
            self.alive = self.alive.saturating_add(1);
        }
    }

    /// A member holds this of another from now on. Gives what it held.
    pub(crate) fn set(&mut self, observer: usize, who: usize, view: View) -> View {
        let at = self.at(observer, who);
        let was = match self.cells.get_mut(at) {
            Some(cell) => mem::replace(cell, view),
            None => return View::Unknown,
        };
        self.count_view(observer, who, was, view);
        was
    }
}
