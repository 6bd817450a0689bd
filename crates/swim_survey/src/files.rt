//! The files that a survey writes. None of them is there before.

use crate::fault::AskedFault;
use std::fs::{self, File};
use std::io::Write;
use std::rt::Files;

/// The new files that are asked for.
#[derive(Drop)]
pub struct Made {
    /// For lines.
    csv: Option<File>,
    /// For a picture.
    svg: Option<File>,
}

/// A new file, if there is to be one.
fn new_file<R: Files<File = File>>(rt: &R, path: Option<&str>) -> Result<Option<File>, AskedFault> {
    match path {
        Some(path) => Ok(Some(File::create_new(rt, path)?)),
        None => Ok(None),
    }
}

/// Writes to a file, if there is one.
fn write(file: &mut Option<File>, text: &str) -> Result<(), AskedFault> {
    match file {
        Some(file) => Ok(file.write_all(text.as_bytes())?),
        None => Ok(()),
    }
}

impl Made {
    /// No file.
    pub fn none() -> Made {
        Made {
            csv: None,
            svg: None,
        }
    }

    /// Makes them. If the second cannot be made, the first is gone again.
    pub(crate) fn new<R: Files<File = File>>(
        rt: &R,
        csv_path: Option<&str>,
        svg_path: Option<&str>,
    ) -> Result<Made, AskedFault> {
        let csv = new_file(rt, csv_path)?;
        match new_file(rt, svg_path) {
            Ok(svg) => Ok(Made { csv, svg }),
            Err(fault) => {
                if let Some(path) = csv_path {
                    let _ = fs::remove_file(rt, path);
                }
                Err(fault)
            }
        }
    }

    /// Whether there is to be a picture.
    pub(crate) fn has_picture(&self) -> bool {
        self.svg.is_some()
    }

    /// Writes whole lines, at once.
    pub(crate) fn write_lines(&mut self, lines: &str) -> Result<(), AskedFault> {
        write(&mut self.csv, lines)
    }

    /// Writes the picture.
    pub(crate) fn write_picture(&mut self, picture: &str) -> Result<(), AskedFault> {
        write(&mut self.svg, picture)
    }
}
