//! The two sets of rules by which a group may live.

ghost use Rattle.std.specs.Prelude.{◌≡◌, ◌≢◌, Some, None, IfSome, IfNone};
ghost use Rattle.swim_wire.specs.Codes.{rules_code};
ghost use Rattle.swim_wire.specs.declared.rules.Rules.{Rules as RuleSets};

/// The rules of a group, which say what overrides what (SWIM, section 4.2). All members of a group
/// live by the same ones, and each datagram says by which its sender does.
#[derive(Clone, Copy, Debug, PartialEq, Eq)]
pub enum Rules {
    /// Nothing overrides a Confirm: it stands until its member is forgotten.
    One,
    /// An update with a greater number overrides a Confirm, so a member can come back.
    Two,
}

impl Rules {
    /// The rules with this code, 1 or 2, or none.
    pub fn from_code(code: u8) -> Option<Rules>
        ensures some { IfSome result (λ rules. code ≡ rules_code rules) }
        ensures none { IfNone result ((rules : RuleSets) → code ≢ rules_code rules) }
    {
        match code {
            1 => Some(Rules::One),
            2 => Some(Rules::Two),
            _ => None,
        }
    }

    /// The byte that spells the rules, which is the version of a datagram.
    pub fn code(self) -> u8
        ensures { result ≡ rules_code self }
    {
        match self {
            Rules::One => 1,
            Rules::Two => 2,
        }
    }
}
