//! A member that crashes and begins anew.

ghost use Rattle.std.specs.Prelude.{◌≡◌, ◌≤◌, ◌<◌, ◌↔◌, length, slice_get, Some, Err, IfSome, IfErr, OnOk, OnErr};
ghost use Rattle.swim_group.specs.declared.fault.GroupFault.TheVariants as fault;
ghost use Rattle.swim_group.specs.Real.{HasSoundRun, MayRestart, IsRefused, after_restart};

use crate::fault::GroupFault;
use crate::group::Group;
use swim_member::{Member, Settings};
use swim_wire::NUMBER_MAX;

/// Judges whether a member may begin anew with these settings.
fn judge(member: &Member, settings: &Settings) -> Result<(), GroupFault>
    ensures ok { OnOk result (MayRestart member.now settings.now) }
    ensures err { IfErr result (IsRefused member.now settings.now) }
{
    if settings.me != member.settings().me {
        return Err(GroupFault::OtherName);
    }
    if let Err(fault) = settings.check() {
        return Err(GroupFault::Unsound(fault));
    }
    if NUMBER_MAX <= member.number() {
        return Err(GroupFault::NoNumberLeft);
    }
    Ok(())
}

impl Group {
    /// A member crashes and begins anew, with these settings, which may be others, and with the number after its own. Of
    /// what it knew it keeps nothing.
    pub fn restart(&mut self, member: usize, settings: Settings) -> Result<(), GroupFault>
        // it is a new member with the number after its own, no other changes, and the same datagrams are kept
        ensures ok { OnOk result (after_restart self.old member settings ≡ Some self.new) }
        ensures missing { (result ≡ Err fault.NoMember) ↔ (length self.old.members ≤ member) }
        // another name, a setting out of its range, or no number left
        ensures refused { IfErr result (λ fault.
            IfSome (slice_get self.old.members member) (λ s. IsRefused s settings fault)) }
        ensures err { OnErr result (self.new ≡ self.old) }
        ensures run { HasSoundRun self.new }
    {
        self.find(member)?;
        if let Err(fault) = judge(&self.members[member], &settings) {
            return Err(fault);
        }
        let number = self.members[member].number();
        self.members[member] = Member::new(settings, number + 1);
        Ok(())
    }
}
