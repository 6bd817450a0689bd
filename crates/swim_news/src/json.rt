//! Rows and changes as JSON, an object on one line each.

use crate::change::Change;
use std::fmt;
use swim_wire::Update;

/// What a row says of its member, as a JSON object has it: `"kind":"alive","number":3`.
#[derive(Clone, Copy)]
struct Saying(Update);

impl fmt::Display for Saying {
    fn fmt<W: fmt::Write>(&self, f: &mut fmt::Formatter<W>) -> fmt::Result {
        let kind = self.0.kind.name();
        let number = self.0.number;
        write!(f, "\"kind\":\"{kind}\",\"number\":{number}")
    }
}

/// A row as JSON: `{"member":"10.0.0.2:7000","kind":"alive","number":3}`.
#[derive(Clone, Copy)]
pub struct RowJson(pub Update);

impl fmt::Display for RowJson {
    fn fmt<W: fmt::Write>(&self, f: &mut fmt::Formatter<W>) -> fmt::Result {
        let who = self.0.who;
        let saying = Saying(self.0);
        write!(f, "{{\"member\":\"{who}\",{saying}}}")
    }
}

/// A row as JSON, or `null` where there is none.
#[derive(Clone, Copy)]
struct MaybeJson(Option<Update>);

impl fmt::Display for MaybeJson {
    fn fmt<W: fmt::Write>(&self, f: &mut fmt::Formatter<W>) -> fmt::Result {
        match self.0 {
            Some(row) => {
                let saying = Saying(row);
                write!(f, "{{{saying}}}")
            }
            None => write!(f, "null"),
        }
    }
}

/// A change as JSON: `{"member":"10.0.0.2:7000","now":{"kind":"alive","number":3},"was":null}`, with `null` where there
/// is no row.
#[derive(Clone, Copy)]
pub struct ChangeJson(pub Change);

impl fmt::Display for ChangeJson {
    fn fmt<W: fmt::Write>(&self, f: &mut fmt::Formatter<W>) -> fmt::Result {
        let who = self.0.who();
        let now = MaybeJson(self.0.now());
        let was = MaybeJson(self.0.was());
        write!(f, "{{\"member\":\"{who}\",\"now\":{now},\"was\":{was}}}")
    }
}
