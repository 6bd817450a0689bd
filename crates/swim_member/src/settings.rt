//! The settings of a member.

ghost use Rattle.std.specs.Prelude.{◌≡◌, ◌≤◌, Some, OnOk, IfErr};
ghost use Rattle.swim_member.specs.Checks.{AreSound, usual_settings, fault_of, rules_of};
ghost use Rattle.swim_member.specs.declared.settings.TheConstants.{BLOCK_MAX};

use crate::member::Member;
use std::{error, fmt};
use swim_wire::{Endpoint, Rules};

/// The most members that are asked about one target.
pub const HELPERS_MAX: usize = 8;

/// The most numbers that one save reserves.
pub const BLOCK_MAX: u64 = 1024;

/// Which setting is out of its range: the first, in this order. It prints its number and name.
#[derive(Clone, Copy, Debug, PartialEq, Eq)]
pub enum SettingsFault {
    /// `lambda` is not 1 to 16.
    Lambda,
    /// `period` is not 2 to 1,000.
    Period,
    /// `direct` is not 1 to `period - 1`.
    Direct,
    /// `suspect` is not 1 to 100,000.
    Suspect,
    /// `forget` is not 1 to 1,000,000.
    Forget,
    /// `helpers` is over 8.
    Helpers,
    /// `block` is not 1 to 1,024.
    Block,
    /// `rules` is not 1 or 2.
    Rules,
}

impl SettingsFault {
    ghost use Rattle.std.specs.Prelude.{◌≡◌};
    ghost use Rattle.swim_member.specs.Texts.{setting_number, setting_name};

    /// The number of the fault, by which programs name it.
    pub fn number(self) -> u8
        ensures { result ≡ setting_number self }
    {
        match self {
            SettingsFault::Lambda => 1,
            SettingsFault::Period => 2,
            SettingsFault::Direct => 3,
            SettingsFault::Suspect => 4,
            SettingsFault::Forget => 5,
            SettingsFault::Helpers => 6,
            SettingsFault::Block => 7,
            SettingsFault::Rules => 8,
        }
    }

    /// The name of the fault.
    pub fn name(self) -> &'static str
        ensures { result.now ≡ setting_name self }
    {
        match self {
            SettingsFault::Lambda => "Lambda",
            SettingsFault::Period => "Period",
            SettingsFault::Direct => "Direct",
            SettingsFault::Suspect => "Suspect",
            SettingsFault::Forget => "Forget",
            SettingsFault::Helpers => "Helpers",
            SettingsFault::Block => "Block",
            SettingsFault::Rules => "Rules",
        }
    }
}

impl fmt::Display for SettingsFault {
    ghost use Rattle.std.specs.Prelude.{Some};
    ghost use Rattle.swim_member.specs.Texts.{setting_text};

    ghost output = { λ f. Some (setting_text f) };

    fn fmt<W: fmt::Write>(&self, f: &mut fmt::Formatter<W>) -> fmt::Result {
        let number = self.number();
        let name = self.name();
        write!(f, "{number} {name}")
    }
}

impl error::Error for SettingsFault {}

/// What a member is told at its start. It stays as it is.
#[derive(Clone, Copy, Debug, PartialEq, Eq)]
pub struct Settings {
    /// The group's number. Datagrams of other groups are refused.
    pub group: u64,
    /// The own endpoint.
    pub me: Endpoint,
    /// How often an update is sent, times the number of binary digits of the count of members; 1 to 16.
    pub lambda: u32,
    /// Ticks from one probe to the next, 2 to 1,000.
    pub period: u64,
    /// Ticks that a direct answer to a probe may take before others are asked, 1 to `period - 1`.
    pub direct: u64,
    /// Ticks after which a Suspect becomes Confirm, 1 to 100,000.
    pub suspect: u64,
    /// Ticks after which a Confirm is forgotten, 1 to 1,000,000.
    pub forget: u64,
    /// How many others are asked about a target that does not answer, 0 to 8.
    pub helpers: usize,
    /// How many own numbers one save of the state file reserves, the wanted one included; 1 to 1,024.
    pub block: u64,
    /// By which rules the group lives, 1 or 2: its members send datagrams of that version.
    pub rules: u32,
}

impl Settings {
    /// The settings of a member that is told none but its group and its endpoint: the defaults of a settings file.
    pub fn usual(group: u64, me: Endpoint) -> Settings
        ensures value { result ≡ usual_settings group me }
        ensures sound { AreSound result }
    {
        Settings {
            group,
            me,
            lambda: 3,
            period: 10,
            direct: 3,
            suspect: 50,
            forget: 6000,
            helpers: 3,
            block: 1,
            rules: 1,
        }
    }

    /// Judges the settings in the order of the faults, and gives the first that is there.
    pub fn check(&self) -> Result<(), SettingsFault>
        ensures ok { OnOk result (AreSound self.now) }
        ensures err { IfErr result (λ fault. fault_of self.now ≡ Some fault) }
    {
        if self.lambda < 1 || 16 < self.lambda {
            return Err(SettingsFault::Lambda);
        }
        if self.period < 2 || 1000 < self.period {
            return Err(SettingsFault::Period);
        }
        if self.direct < 1 || self.period <= self.direct {
            return Err(SettingsFault::Direct);
        }
        if self.suspect < 1 || 100_000 < self.suspect {
            return Err(SettingsFault::Suspect);
        }
        if self.forget < 1 || 1_000_000 < self.forget {
            return Err(SettingsFault::Forget);
        }
        if HELPERS_MAX < self.helpers {
            return Err(SettingsFault::Helpers);
        }
        if self.block < 1 || BLOCK_MAX < self.block {
            return Err(SettingsFault::Block);
        }
        if self.rules < 1 || 2 < self.rules {
            return Err(SettingsFault::Rules);
        }
        Ok(())
    }

    /// By which rules the group lives; of settings that are not sound, rules 1.
    pub fn rules_of(&self) -> Rules
        ensures { result ≡ rules_of self.now }
    {
        if self.rules == 2 {
            Rules::Two
        } else {
            Rules::One
        }
    }
}

impl Member {
    /// How many own numbers one save of its state file reserves, 1 to 1,024.
    pub fn block(&self) -> u64
        ensures value { result ≡ self.now.settings.block }
        ensures bounds { (1 ≤ result) × (result ≤ BLOCK_MAX) }
    {
        self.settings.block
    }
}
