//! Numbers of a table, darker where they are greater.

use crate::drawing::{Area, Drawing};
use crate::thousandths::Thousandths;
use std::alloc::{AllocError, Global};
use std::fmt::Write;

/// How far from the left the tiles begin; the names of rows stand before that.
const LEFT: u64 = 240;

/// How wide all tiles of a row are.
const SPAN: u64 = 740;

/// How high a tile is.
const HIGH: u64 = 24;

/// A table of numbers.
#[derive(Drop)]
pub struct Tiles {
    /// The name of each column.
    pub columns: Vec<String>,
    /// The name of each row.
    pub rows: Vec<String>,
    /// The numbers in thousandths, row by row.
    pub cells: Vec<Option<u64>>,
}

impl Tiles {
    /// The greatest number.
    fn greatest(&self) -> u64 {
        let mut most = 1;
        for cell in self.cells.as_slice() {
            most = most.max(cell.unwrap_or(0));
        }
        most
    }

    /// How wide a tile is.
    fn wide(&self) -> u64 {
        SPAN.checked_div(self.columns.len() as u64).unwrap_or(SPAN)
    }

    /// How far from the left a column is.
    fn x(&self, column: usize) -> u64 {
        LEFT.saturating_add(self.wide().saturating_mul(column as u64))
    }

    /// The number there.
    fn at(&self, row: usize, column: usize) -> Option<u64> {
        let place = row
            .saturating_mul(self.columns.len())
            .saturating_add(column);
        self.cells.get(place).copied()?
    }
}

impl Drawing {
    /// The names of the columns.
    fn columns(&mut self, tiles: &Tiles) -> Result<(), AllocError> {
        let y = self.height.saturating_add(12);
        for (column, name) in tiles.columns.iter().enumerate() {
            let x = tiles.x(column).saturating_add(tiles.wide() / 2);
            self.words("mid", x, y, name.as_str())?;
        }
        self.lower(18);
        Ok(())
    }

    /// A tile. Its colour is as deep as its number is great.
    fn tile(&mut self, alloc: Global, area: Area, cell: u64, most: u64) -> Result<(), AllocError> {
        let depth = cell.saturating_mul(70).checked_div(most).unwrap_or(0);
        let Area {
            x,
            y,
            width,
            height,
        } = area;
        writeln!(
            self.body,
            "<rect class=\"tile\" fill-opacity=\"0.{depth:02}\" x=\"{x}\" y=\"{y}\" width=\"{width}\" height=\"{height}\"/>"
        )?;
        let words = format!(in alloc; "{}", Thousandths(cell))?;
        let middle = x.saturating_add(width / 2);
        self.words("mid", middle, y.saturating_add(16), words.as_str())
    }

    /// A row of tiles. Where there is no number, there is no tile.
    fn tiles_of(
        &mut self,
        alloc: Global,
        tiles: &Tiles,
        row: usize,
        most: u64,
    ) -> Result<(), AllocError> {
        for column in 0..tiles.columns.len() {
            let area = Area {
                x: tiles.x(column),
                y: self.height,
                width: tiles.wide().saturating_sub(2),
                height: HIGH.saturating_sub(2),
            };
            if let Some(cell) = tiles.at(row, column) {
                self.tile(alloc, area, cell, most)?;
            }
        }
        self.lower(HIGH);
        Ok(())
    }

    /// The numbers of a table.
    pub fn tiles(&mut self, alloc: Global, tiles: &Tiles) -> Result<(), AllocError> {
        self.columns(tiles)?;
        let most = tiles.greatest();
        for (row, name) in tiles.rows.iter().enumerate() {
            let y = self.height.saturating_add(16);
            self.words("end", LEFT.saturating_sub(8), y, name.as_str())?;
            self.tiles_of(alloc, tiles, row, most)?;
        }
        self.lower(16);
        Ok(())
    }
}
