//! Which member is asked.

/// Which member a command is of, by words that are not yet judged. Without any it is that of the environment, or the one whose folder is
/// here, or the usual one.
#[derive(Clone, Copy, Debug)]
pub struct MemberWords<'a> {
    /// Its control socket.
    pub to: Option<&'a str>,
    /// `--dir`: its folder.
    pub dir: Option<&'a str>,
}
