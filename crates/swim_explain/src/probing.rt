//! By which probe a member was suspected.

ghost use Rattle.std.specs.Prelude.{◌≡◌, IfOk};
ghost use Rattle.swim_explain.specs.Probing.{asked_helper, helper_of, helpers_of, leads_to, ping_of, pings};

use crate::account::Account;
use crate::cause::Case;
use crate::fact::{Fact, Purpose};
use std::alloc::{AllocError, Global};
use swim_wire::Endpoint;

/// A probe: when its ping was sent, and who was asked to ping as well.
#[derive(Drop)]
pub(crate) struct Probing {
    pub(crate) ping: Option<Account>,
    pub(crate) helpers: Vec<Endpoint>,
}

/// Whether an account is of the accuser's life, in which each sequence has one meaning, and of no later tick than the accusation.
fn leads_to(accused: &Account, account: &Account) -> bool
    ensures { result ≡ leads_to accused.now account.now }
{
    account.life == accused.life && account.happening.tick <= accused.happening.tick
}

/// Whether the fact is the ping of the probe with this sequence.
fn pings(seq: u32, fact: &Fact) -> bool
    ensures { result ≡ pings seq fact.now }
{
    match fact {
        Fact::Pinged {
            purpose: Purpose::Probe,
            seq: other,
            ..
        } => *other == seq,
        _ => false,
    }
}

/// Who was asked to ping as well for the probe with this sequence, if the fact is that.
fn asked_helper(seq: u32, fact: &Fact) -> Option<Endpoint>
    ensures { result ≡ asked_helper seq fact.now }
{
    match fact {
        Fact::Asked {
            helper,
            seq: other,
            ..
        } if *other == seq => Some(*helper),
        _ => None,
    }
}

/// The ping of the probe with this sequence that led to an accusation.
fn ping_of(accused: &Account, seq: u32, accounts: &[Account]) -> Option<Account>
    ensures { result ≡ ping_of accused.now seq accounts.now }
{
    for account in accounts {
        if leads_to(accused, account) && pings(seq, &account.happening.fact) {
            return Some(*account);
        }
    }
    None
}

/// Who was asked to ping as well for that probe, if this account says it.
fn helper_of(accused: &Account, seq: u32, account: &Account) -> Option<Endpoint>
    ensures { result ≡ helper_of accused.now seq account.now }
{
    if leads_to(accused, account) {
        return asked_helper(seq, &account.happening.fact);
    }
    None
}

/// All who were asked to ping as well for that probe.
fn helpers_of(
    alloc: Global,
    accused: &Account,
    seq: u32,
    accounts: &[Account],
) -> Result<Vec<Endpoint>, AllocError>
    ensures { IfOk result (λ helpers. helpers.items ≡ helpers_of accused.now seq accounts.now) }
{
    let mut helpers = Vec::new(alloc);
    for account in accounts {
        if let Some(helper) = helper_of(accused, seq, account) {
            helpers.push(helper)?;
        }
    }
    Ok(helpers)
}

/// The probe with this sequence that led to an accusation, as far as accounts tell of it.
fn probing_before(
    alloc: Global,
    accused: &Account,
    seq: u32,
    accounts: &[Account],
) -> Result<Probing, AllocError>
    ensures ping { IfOk result (λ probing. probing.ping
        ≡ ping_of accused.now seq accounts.now) }
    ensures helpers { IfOk result (λ probing. probing.helpers.items
        ≡ helpers_of accused.now seq accounts.now) }
{
    let helpers = helpers_of(alloc, accused, seq, accounts)?;
    Ok(Probing {
        ping: ping_of(accused, seq, accounts),
        helpers,
    })
}

/// Who began a suspicion, and the sequence of the probe that nobody answered.
fn accusation_of(case: &Option<Case>) -> Option<(Account, u32)> {
    let Some(case) = case else {
        return None;
    };
    let Some(accused) = &case.accused else {
        return None;
    };
    match accused.happening.fact {
        Fact::Suspected { seq, .. } => Some((*accused, seq)),
        _ => None,
    }
}

/// The probe by which a suspicion began, as far as accounts tell of it.
pub(crate) fn probing_of(
    alloc: Global,
    accounts: &[Account],
    case: &Option<Case>,
) -> Result<Probing, AllocError> {
    match accusation_of(case) {
        Some((accused, seq)) => probing_before(alloc, &accused, seq, accounts),
        None => Ok(Probing {
            ping: None,
            helpers: Vec::new(alloc),
        }),
    }
}
