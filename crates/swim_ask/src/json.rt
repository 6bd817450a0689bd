//! Rows and changes as JSON, an object on one line each, in the words that people read: a member is `failed` where the formats have
//! `confirm`.

use std::fmt;
use swim_news::{Change, state_name};
use swim_wire::Update;

/// What a row says of its member, as a JSON object has it: `"kind":"alive","number":3`.
#[derive(Clone, Copy)]
struct Saying(Update);

impl fmt::Display for Saying {
    fn fmt<W: fmt::Write>(&self, f: &mut fmt::Formatter<W>) -> fmt::Result {
        let kind = state_name(self.0.kind);
        let number = self.0.number;
        write!(f, "\"kind\":\"{kind}\",\"number\":{number}")
    }
}

/// A row as JSON: `{"member":"10.0.0.2:7000","kind":"alive","number":3}`.
#[derive(Clone, Copy)]
pub(crate) struct RowJson(pub(crate) Update);

impl fmt::Display for RowJson {
    fn fmt<W: fmt::Write>(&self, f: &mut fmt::Formatter<W>) -> fmt::Result {
        let who = self.0.who;
        let saying = Saying(self.0);
        write!(f, "{{\"member\":\"{who}\",{saying}}}")
    }
}

/// A row as JSON, or `null` where there is none.
#[derive(Clone, Copy)]
struct MaybeJson(Option<Update>);

impl fmt::Display for MaybeJson {
    fn fmt<W: fmt::Write>(&self, f: &mut fmt::Formatter<W>) -> fmt::Result {
        match self.0 {
            Some(row) => {
                let saying = Saying(row);
                write!(f, "{{{saying}}}")
            }
            None => write!(f, "null"),
        }
    }
}

/// A change as JSON: `{"member":"10.0.0.2:7000","now":{"kind":"alive","number":3},"was":null}`, with `null` where there
/// is no row.
#[derive(Clone, Copy)]
pub(crate) struct ChangeJson(pub(crate) Change);

impl fmt::Display for ChangeJson {
    fn fmt<W: fmt::Write>(&self, f: &mut fmt::Formatter<W>) -> fmt::Result {
        let (who, was, now) = match self.0 {
            Change::New(now) => (now.who, None, Some(now)),
            Change::Changed { was, now } => (now.who, Some(was), Some(now)),
            Change::Gone(was) => (was.who, Some(was), None),
        };
        let (was, now) = (MaybeJson(was), MaybeJson(now));
        write!(f, "{{\"member\":\"{who}\",\"now\":{now},\"was\":{was}}}")
    }
}
