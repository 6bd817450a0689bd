//! Why a member was suspected, and how that ended.

ghost use Rattle.std.specs.Prelude.{◌≡◌};
ghost use Rattle.swim_explain.specs.Causing.{accuses, blames, expires, first, is_part, ends_case, refutes, tells};
ghost use Rattle.swim_explain.specs.declared.cause.CasePart.TheVariants as part;

use crate::account::Account;
use crate::fact::Fact;
use swim_rules::{Heard, Row};
use swim_wire::{Update, UpdateKind};

/// Whether an update of this kind says that the member is suspected or confirmed, with this number.
fn blames(number: u64, update: &Update) -> bool
    ensures { result ≡ blames number update.now.kind update.now.number }
{
    match update.kind {
        UpdateKind::Alive => false,
        UpdateKind::Suspect | UpdateKind::Confirm => update.number == number,
    }
}

/// Whether the fact is that the member is suspected since nobody answered a probe.
fn accuses(number: u64, fact: &Fact) -> bool
    ensures { result ≡ accuses number fact.now }
{
    match fact {
        Fact::Suspected { number: other, .. } => *other == number,
        _ => false,
    }
}

/// Whether it is that the suspicion stood too long.
fn expires(number: u64, fact: &Fact) -> bool
    ensures { result ≡ expires number fact.now }
{
    match fact {
        Fact::Confirmed { number: other, .. } => *other == number,
        _ => false,
    }
}

/// Whether it is that somebody told of the suspicion, or of the Confirm after it.
fn tells(number: u64, fact: &Fact) -> bool
    ensures { result ≡ tells number fact.now }
{
    match fact {
        Fact::Told {
            update,
            became: Heard::Accepted,
            ..
        }
        | Fact::ToldItself { update, .. } => blames(number, update),
        _ => false,
    }
}

/// Whether the update is that the member is alive, and took the place of a row with this number that said something else.
fn ends_case(number: u64, kind: UpdateKind, was: &Option<Row>) -> bool
    ensures { result ≡ ends_case number kind was.now }
{
    match (kind, was) {
        (UpdateKind::Alive, Some(row)) => blames(number, &row.update),
        _ => false,
    }
}

/// Whether it is that the suspicion, or the Confirm after it, was refuted.
fn refutes(number: u64, fact: &Fact) -> bool
    ensures { result ≡ refutes number fact.now }
{
    match fact {
        Fact::Told {
            update,
            was,
            became: Heard::Accepted,
            ..
        } => ends_case(number, update.kind, was),
        Fact::Renumbered { from, to } => *from <= number && number < *to,
        _ => false,
    }
}

/// A part of what is told of a suspicion.
#[derive(Clone, Copy, Debug, PartialEq, Eq)]
enum CasePart {
    /// It began since nobody answered a probe.
    Accusation,
    /// Somebody told of it, or of the Confirm after it.
    Hearsay,
    /// It stood too long.
    Expiry,
    /// It was refuted, or the Confirm after it.
    Refutation,
}

/// Whether the fact is this part of the suspicion with this number.
fn is_part(part: CasePart, number: u64, fact: &Fact) -> bool
    ensures { result ≡ is_part part number fact.now }
{
    match part {
        CasePart::Accusation => accuses(number, fact),
        CasePart::Hearsay => tells(number, fact),
        CasePart::Expiry => expires(number, fact),
        CasePart::Refutation => refutes(number, fact),
    }
}

/// The first account of this part.
fn first(part: CasePart, number: u64, accounts: &[Account]) -> Option<Account>
    ensures { result ≡ first part number accounts.now }
{
    for account in accounts {
        if is_part(part, number, &account.happening.fact) {
            return Some(*account);
        }
    }
    None
}

/// One suspicion of a member, and how it ended.
#[derive(Clone, Copy, Debug, PartialEq, Eq)]
pub struct Case {
    /// Its number.
    pub number: u64,
    /// Who suspected the member first, since nobody answered a probe.
    pub accused: Option<Account>,
    /// Who told of it first.
    pub told: Option<Account>,
    /// Where it stood too long first.
    pub expired: Option<Account>,
    /// Where it, or the Confirm after it, was refuted first.
    pub refuted: Option<Account>,
}

/// What accounts say of the suspicion with this number.
pub fn suspicion(accounts: &[Account], number: u64) -> Case
    ensures number { result.number ≡ number }
    ensures accused { result.accused ≡ first part.Accusation number accounts.now }
    ensures told { result.told ≡ first part.Hearsay number accounts.now }
    ensures expired { result.expired ≡ first part.Expiry number accounts.now }
    ensures refuted { result.refuted ≡ first part.Refutation number accounts.now }
{
    Case {
        number,
        accused: first(CasePart::Accusation, number, accounts),
        told: first(CasePart::Hearsay, number, accounts),
        expired: first(CasePart::Expiry, number, accounts),
        refuted: first(CasePart::Refutation, number, accounts),
    }
}
