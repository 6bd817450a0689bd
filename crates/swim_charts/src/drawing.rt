//! A picture as SVG text. Its colours are readable on light and on dark ground.

use std::alloc::{AllocError, Global};
use std::fmt::Write;

/// The colours: by classes, those of words and lines once more for dark ground.
const STYLE: &str = "<style>
text{font:12px sans-serif;fill:#222}
.head{font-size:15px}
.end{text-anchor:end}
.mid{text-anchor:middle}
.alive{fill:#3f87bd}
.suspected{fill:#e0a100}
.failed{fill:#cc4450}
.down{fill:#222}
.tile{fill:#cc4450}
.axis{stroke:#888;fill:none}
.curve0{stroke:#e0a100;fill:none;stroke-width:2}
.curve1{stroke:#cc4450;fill:none;stroke-width:2}
.curve2{stroke:#8a6fc4;fill:none;stroke-width:2;stroke-dasharray:6 3}
.curve3{stroke:#3f87bd;fill:none;stroke-width:2;stroke-dasharray:2 3}
@media(prefers-color-scheme:dark){text,.down{fill:#ddd}}
</style>
";

/// How wide a picture is.
pub(crate) const WIDTH: u64 = 1000;

/// How far from the left what is drawn begins; names stand before that.
pub(crate) const LEFT: u64 = 80;

/// How wide what is drawn is.
pub(crate) const SPAN: u64 = 900;

/// A rectangle.
#[derive(Clone, Copy, Debug, PartialEq, Eq)]
pub struct Area {
    /// From the left.
    pub x: u64,
    /// From the top.
    pub y: u64,
    /// How wide it is.
    pub width: u64,
    /// How high it is.
    pub height: u64,
}

/// A picture, which grows from the top down.
#[derive(Drop)]
pub struct Drawing {
    /// What is drawn so far.
    pub(crate) body: String,
    /// How high it is so far.
    pub(crate) height: u64,
}

impl Drawing {
    /// Nothing is drawn yet.
    pub fn new(alloc: Global) -> Drawing {
        Drawing {
            body: String::new(alloc),
            height: 10,
        }
    }

    /// What comes next begins so much lower.
    pub(crate) fn lower(&mut self, by: u64) {
        self.height = self.height.saturating_add(by);
    }

    /// A rectangle in the colour of a class.
    pub(crate) fn rectangle(&mut self, class: &str, area: Area) -> Result<(), AllocError> {
        let Area {
            x,
            y,
            width,
            height,
        } = area;
        writeln!(
            self.body,
            "<rect class=\"{class}\" x=\"{x}\" y=\"{y}\" width=\"{width}\" height=\"{height}\"/>"
        )
    }

    /// Words that stand on the line that begins there.
    pub(crate) fn words(
        &mut self,
        class: &str,
        x: u64,
        y: u64,
        words: &str,
    ) -> Result<(), AllocError> {
        writeln!(
            self.body,
            "<text class=\"{class}\" x=\"{x}\" y=\"{y}\">{words}</text>"
        )
    }

    /// A line of words over what comes next. They have no character that XML does not take.
    pub fn head(&mut self, words: &str) -> Result<(), AllocError> {
        let y = self.height.saturating_add(15);
        self.words("head", 10, y, words)?;
        self.lower(30);
        Ok(())
    }

    /// The text of the picture.
    pub fn end(&self, alloc: Global) -> Result<String, AllocError> {
        let mut text = String::new(alloc);
        let height = self.height;
        writeln!(
            text,
            "<svg xmlns=\"http://www.w3.org/2000/svg\" width=\"{WIDTH}\" height=\"{height}\" viewBox=\"0 0 {WIDTH} {height}\">"
        )?;
        text.push_str(STYLE)?;
        text.push_str(self.body.as_str())?;
        text.push_str("</svg>\n")?;
        Ok(text)
    }
}
