//! The answer to `about`, read and as JSON.

ghost use Rattle.std.specs.Prelude.{◌≡◌, IfSome};
ghost use Rattle.swim_shell.specs.About.{about_text};

use crate::asking::exchange;
use crate::status::{after_word, read_count};
use arrayvec::ArrayString;
use std::net::{Net, TcpStream};
use std::rt::Clock;
use std::{fmt, str};
use swim_exit::Failure;
use swim_settings::ControlPlace;
use swim_shell::{About, ProgramVersion, Who, about_answer};
use swim_wire::Rules;
use swim_words::{read_endpoint, split_at_byte};

/// Whether the byte may be in a version, so that it stands as it is on a page and in a metric.
fn is_plain(byte: u8) -> bool {
    byte.is_ascii_alphanumeric() || b".-+~".contains(&byte)
}

/// The version that the word is.
fn read_version(word: &[u8]) -> Option<ProgramVersion> {
    if !word.iter().all(|byte| is_plain(*byte)) {
        return None;
    }
    ArrayString::from(str::from_utf8(word).ok()?).ok()
}

/// What stands after a name and a space, up to the byte that ends it, and what stands after that.
fn read_value<'a>(text: &'a [u8], name: &[u8], end: u8) -> Option<(&'a [u8], &'a [u8])> {
    split_at_byte(after_word(text, name)?, end)
}

/// The rules with this number.
fn rules_of(number: u64) -> Option<Rules> {
    Rules::from_code(u8::try_from(number).ok()?)
}

/// What an answer may say, by its words in turn.
fn guess(answer: &[u8]) -> Option<About> {
    let rest = after_word(answer, b"ok")?;
    let (me, rest) = read_value(rest, b"member", b' ')?;
    let (group, rest) = read_count(rest, b"group", b' ')?;
    let (rules, rest) = read_count(rest, b"rules", b' ')?;
    let (version, rest) = read_value(rest, b"version", b' ')?;
    let (uptime, rest) = read_count(rest, b"uptime", b' ')?;
    let (listed, rest) = read_count(rest, b"listed", b' ')?;
    let (alone, _) = read_value(rest, b"alone", b'\n')?;
    Some(About {
        who: Who {
            me: read_endpoint(me)?,
            group,
            rules: rules_of(rules)?,
            version: read_version(version)?,
            uptime,
            listed: listed as usize,
        },
        is_alone: alone == b"yes".as_slice(),
    })
}

/// Who a member is, as an answer to the line `about` says; none where it is no such answer, as that of an older version.
pub fn read_about(answer: &[u8]) -> Option<About>
    ensures { IfSome result (λ about. answer.now ≡ about_text about) }
{
    let about = guess(answer)?;
    if about_answer(&about).as_bytes() == answer {
        Some(about)
    } else {
        None
    }
}

/// Asks a member who it is; none where it does not say, as it is of an older version. An error says that it did not answer.
pub fn ask_about<R: Net<Stream = TcpStream> + Clock + AllocGlobal>(
    rt: &R,
    to: &ControlPlace,
) -> Result<Option<About>, Failure> {
    let answer = exchange(rt, to, "about")?;
    Ok(read_about(answer.as_slice()))
}

/// Who a member is as the values of a JSON object.
#[derive(Clone, Copy)]
pub struct AboutValues(pub About);

impl fmt::Display for AboutValues {
    fn fmt<W: fmt::Write>(&self, f: &mut fmt::Formatter<W>) -> fmt::Result {
        let About { who, is_alone } = self.0;
        let Who {
            me,
            group,
            rules,
            version,
            uptime,
            listed,
        } = who;
        let (rules, version) = (rules.code(), version.as_str());
        write!(
            f,
            "\"member\":\"{me}\",\"group\":{group},\"rules\":{rules},\"version\":\"{version}\",\"uptime\":{uptime},\"listed\":{listed},\"alone\":{is_alone}"
        )
    }
}

/// The same as a JSON object: `{"member":"10.0.0.1:7000","group":7, .. ,"alone":false}`.
#[derive(Clone, Copy)]
pub struct AboutJson(pub About);

impl fmt::Display for AboutJson {
    fn fmt<W: fmt::Write>(&self, f: &mut fmt::Formatter<W>) -> fmt::Result {
        let values = AboutValues(self.0);
        write!(f, "{{{values}}}")
    }
}
