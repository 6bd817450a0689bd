//! What the words after `swim up` say.

/// What the words after `swim up` say of a member. All are words not yet judged, but for the group.
#[derive(Debug, Drop)]
pub struct UpWords<'a> {
    /// `--me`: its endpoint.
    pub me: &'a str,
    /// `--join`: whom it joins, in this order.
    pub join: Vec<String>,
    /// `--group`: the number of its group.
    pub group: Option<u64>,
    /// `--control`: its control socket.
    pub control: Option<&'a str>,
    /// `--preset`: whose times it takes.
    pub preset: Option<&'a str>,
    /// `--dir`: the folder of its settings and its state file.
    pub dir: Option<&'a str>,
    /// `--first`: whether a member may begin in the folder that `--dir` names.
    pub first: bool,
    /// `--ceiling`: the number above which it begins.
    pub ceiling: Option<u64>,
    /// `--ask`: the control socket of a member of its group, which tells the group and the greatest number that it holds of this one.
    pub ask: Option<&'a str>,
}
