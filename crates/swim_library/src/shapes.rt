//! What crosses to C by its fields.

ghost use Rattle.std.specs.Prelude.{◌≡◌, ◌≢◌, ◌↔◌, IfErr, IfOk, IsErrOf, Some, SomeIff, ℕ};
ghost use Rattle.swim_library.specs.Opening.{RefusesOpening};
ghost use Rattle.swim_library.specs.Shapes.{cursor_of, endpoint_as, number_of_endpoint, phase_as, row_as, settings_of, status_as};
ghost use Rattle.swim_library.specs.declared.refusal.Refusal.TheVariants as why;
ghost use Rattle.swim_member.specs.Checks.{AreSound, fault_of};
ghost use Rattle.swim_wire.specs.Numbers.{IsNoMembers};

use crate::refusal::Refusal;
use swim_member::{Phase, Settings};
use swim_node::Status;
use swim_wire::{Cursor, Endpoint, Update, is_no_members};

/// A member's name.
#[repr(C)]
#[derive(Clone, Copy)]
pub struct SwimEndpoint {
    /// The IPv4 address, in host order.
    pub address: u32,
    /// The port, in host order.
    pub port: u16,
}

/// What a member is told at its start, as `swim_member::Settings` has it.
#[repr(C)]
#[derive(Clone, Copy)]
pub struct SwimSettings {
    /// The group's number.
    pub group: u64,
    /// Ticks from one probe to the next.
    pub period: u64,
    /// Ticks that a direct answer may take.
    pub direct: u64,
    /// Ticks after which a Suspect becomes Confirm.
    pub suspect: u64,
    /// Ticks after which a Confirm is forgotten.
    pub forget: u64,
    /// How many own numbers one save reserves.
    pub block: u64,
    /// The own IPv4 address, in host order.
    pub address: u32,
    /// How often an update is sent.
    pub lambda: u32,
    /// How many others are asked about a silent target.
    pub helpers: u32,
    /// By which rules the group lives.
    pub rules: u32,
    /// The own port, in host order.
    pub port: u16,
}

/// What is held of a member.
#[repr(C)]
#[derive(Clone, Copy)]
pub struct SwimRow {
    /// Its incarnation number.
    pub number: u64,
    /// Its IPv4 address, in host order.
    pub address: u32,
    /// Its port, in host order.
    pub port: u16,
    /// 1 alive, 2 suspect, 3 confirm.
    pub kind: u8,
}

/// What a status page shows.
#[repr(C)]
#[derive(Clone, Copy)]
pub struct SwimStatus {
    /// The own incarnation number.
    pub number: u64,
    /// The number with which this life began.
    pub first: u64,
    /// How many members are held for alive.
    pub alive: u64,
    /// How many are suspected.
    pub suspect: u64,
    /// How many have failed or left, and are not forgotten yet.
    pub confirmed: u64,
    /// 0 running, 1 left, 2 expelled.
    pub phase: u32,
}

impl SwimEndpoint {
    /// The endpoint, where the port is not 0.
    pub(crate) fn endpoint(&self) -> Option<Endpoint>
        ensures { SomeIff result (self.now.port ≢ 0) (number_of_endpoint self.now) }
    {
        Endpoint::new(self.address, self.port)
    }

    /// The place at this endpoint, or before all of them where the port is 0.
    pub(crate) fn cursor(&self) -> Cursor
        ensures { result ≡ cursor_of self.now }
    {
        match self.endpoint() {
            None => Cursor::zero(),
            Some(endpoint) => Cursor::at(endpoint),
        }
    }

    /// An endpoint as C sees it.
    pub(crate) fn of(endpoint: Endpoint) -> SwimEndpoint
        ensures { result ≡ endpoint_as endpoint }
    {
        SwimEndpoint {
            address: endpoint.address(),
            port: endpoint.port(),
        }
    }
}

impl SwimSettings {
    /// The settings, where they are sound.
    pub(crate) fn checked(&self) -> Result<Settings, Refusal>
        ensures sound { IfOk result AreSound }
        ensures value { IfOk result (λ s. s ≡ settings_of self.now) }
        ensures endpoint { IsErrOf result why.NoEndpoint ↔ (self.now.port ≡ 0) }
        ensures address { IsErrOf result why.Address
            ↔ (self.now.port ≢ 0) × IsNoMembers self.now.address }
        ensures fault { IfErr result (λ refusal. refusal ≢ why.NoEndpoint
            → refusal ≢ why.Address
            → (fault : _) × (refusal ≡ why.Settings fault)
            × (fault_of (settings_of self.now) ≡ Some fault)) }
        ensures refused { IfErr result (λ refusal. (limit : ℕ)
            → RefusesOpening self.now limit refusal) }
    {
        let Some(me) = Endpoint::new(self.address, self.port) else {
            return Err(Refusal::NoEndpoint);
        };
        if is_no_members(self.address) {
            return Err(Refusal::Address);
        }
        let settings = Settings {
            group: self.group,
            me,
            lambda: self.lambda,
            period: self.period,
            direct: self.direct,
            suspect: self.suspect,
            forget: self.forget,
            helpers: self.helpers as usize,
            block: self.block,
            rules: self.rules,
        };
        match settings.check() {
            Ok(()) => Ok(settings),
            Err(fault) => Err(Refusal::Settings(fault)),
        }
    }
}

/// The number of a phase.
fn phase_number(phase: Phase) -> u32
    ensures { result ≡ phase_as phase }
{
    match phase {
        Phase::Running => 0,
        Phase::Left => 1,
        Phase::Expelled => 2,
    }
}

impl SwimRow {
    /// An update as C sees it.
    pub(crate) fn of(update: &Update) -> SwimRow
        ensures { result ≡ row_as update.now }
    {
        SwimRow {
            number: update.number,
            address: update.who.address(),
            port: update.who.port(),
            kind: update.kind.code(),
        }
    }
}

impl SwimStatus {
    /// A status as C sees it, with the first number of the life.
    pub(crate) fn of(status: &Status, first: u64) -> SwimStatus
        ensures { result ≡ status_as status.now first }
    {
        SwimStatus {
            number: status.number,
            first,
            alive: status.alive as u64,
            suspect: status.suspect as u64,
            confirmed: status.confirmed as u64,
            phase: phase_number(status.phase),
        }
    }
}
