//! What a browser or a scraper asks of a member by HTTP, and what it is answered: a request read from bytes, which answer it
//! gets, and the text of that. There is no socket here.
#![tactic(auto)]

mod answer;
mod counted;
mod directory;
mod directory_page;
mod gauges;
mod group;
mod group_metrics;
mod members;
mod metrics;
mod page;
mod picture;
mod request;
mod rows;
mod seen;
mod writing;

pub use answer::{Code, Content, Response, answer_for};
pub use directory::directory_response;
pub use group::SeenGroup;
pub use metrics::write_metrics;
pub use request::{FIELDS_MAX, HEAD_MAX, HttpRequest, Method, Path, RequestReading, read_request};
pub use seen::{Members, Seen};
pub use writing::response;
