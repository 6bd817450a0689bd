//! The last suspicion of a member that accounts tell of.

ghost use Rattle.std.specs.List.{slice_range};
ghost use Rattle.std.specs.Prelude.{◌≡◌, ◌≤◌, [], false, length};
ghost use Rattle.swim_explain.specs.Lasting.{blamed_number, frees, has_said, last_number, last_case, last_suspicion, lets_go, said_number, is_blame};

use crate::account::Account;
use crate::cause::{Case, suspicion};
use crate::fact::Fact;
use swim_rules::Heard;
use swim_wire::{Endpoint, Update, UpdateKind};

/// The number with which an update says that the member is suspected or confirmed.
fn blamed_number(update: &Update) -> Option<u64>
    ensures { result ≡ blamed_number update.now.kind update.now.number }
{
    match update.kind {
        UpdateKind::Alive => None,
        UpdateKind::Suspect | UpdateKind::Confirm => Some(update.number),
    }
}

/// The number with which a fact says so.
fn said_number(fact: &Fact) -> Option<u64>
    ensures { result ≡ said_number fact.now }
{
    match fact {
        Fact::Suspected { number, .. } | Fact::Confirmed { number, .. } => Some(*number),
        Fact::Told {
            update,
            became: Heard::Accepted,
            ..
        }
        | Fact::ToldItself { update, .. } => blamed_number(update),
        _ => None,
    }
}

/// Whether the fact says that the member is suspected or confirmed with this number.
fn is_blame(number: u64, fact: &Fact) -> bool
    ensures { result ≡ is_blame number fact.now }
{
    match said_number(fact) {
        Some(said) => said == number,
        None => false,
    }
}

/// The number of the last suspicion.
fn last_number(accounts: &[Account]) -> Option<u64>
    ensures { result ≡ last_number accounts.now }
{
    let mut last = None;
    for account in accounts {
        last = said_number(&account.happening.fact).or(last);
    }
    last
}

/// Whether the fact is that the member is suspected with this number no more, though nothing refuted that: it is forgotten, or was
/// forgotten and is alive again.
fn frees(number: u64, fact: &Fact) -> bool
    ensures { result ≡ frees number fact.now }
{
    match fact {
        Fact::Forgotten { .. } => true,
        Fact::Told {
            update,
            became: Heard::Accepted,
            ..
        } => update.kind == UpdateKind::Alive && update.number <= number,
        _ => false,
    }
}

/// Whether this member said in one of the accounts that the other is suspected or confirmed with this number.
fn has_said(number: u64, teller: Endpoint, accounts: &[Account]) -> bool
    ensures { result ≡ has_said number teller accounts.now }
{
    for account in accounts {
        if account.teller == teller && is_blame(number, &account.happening.fact) {
            return true;
        }
    }
    false
}

/// Whether a member that told of the suspicion in these accounts suspects no more after this one.
fn lets_go(number: u64, told: &[Account], account: &Account) -> bool
    ensures { result ≡ lets_go number told.now account.now }
{
    frees(number, &account.happening.fact) && has_said(number, account.teller, told)
}

/// Where the last suspicion with this number begins.
fn start_of(number: u64, accounts: &[Account]) -> usize
    ensures within { result ≤ length accounts.now }
    ensures last { slice_range accounts.now result (length accounts.now)
        ≡ last_case number [] false accounts.now }
{
    let mut start = 0;
    let mut is_over = false;
    for (place, account) in accounts.iter().enumerate() {
        if is_over && is_blame(number, &account.happening.fact) {
            start = place;
            is_over = false;
        } else if lets_go(number, &accounts[start..place], account) {
            is_over = true;
        }
    }
    start
}

/// The last suspicion that accounts tell of.
pub(crate) fn last_suspicion(accounts: &[Account]) -> Option<Case>
    ensures { result ≡ last_suspicion accounts.now }
{
    let number = last_number(accounts)?;
    let start = start_of(number, accounts);
    Some(suspicion(&accounts[start..accounts.len()], number))
}
