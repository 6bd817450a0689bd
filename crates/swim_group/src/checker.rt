//! Looks at the datagrams of a real group, in the order in which they were sent, for the first that breaks the law.

ghost use Rattle.std.specs.Prelude.{◌≡◌, ◌≤◌, ◌↔◌, ◌++◌, ◌∷◌, [], ℕ, List, All, Contains, IsTrue, IfSome, IfNone, IfErr, OnOk, OnErr};
ghost use Rattle.swim_member.specs.declared.answer.Out.{Out};
ghost use Rattle.swim_group.specs.Checking.{MaySay, Breaks, MayFollow, KeepTheLaw, IsBroken, IsFirstBroken, IsRemembered, Remembers, IsNoted, as_sent, datagrams_of};
ghost use Rattle.swim_group.specs.Group.{Group, Move, Begins, IsRunOf, after_moves};
ghost use Rattle.swim_group.specs.declared.checker.CheckFault.TheVariants.{NoMemory};

use crate::numbers::Numbers;
use std::alloc::{AllocError, Global};
use std::collections::BTreeMap;
use std::marker::Model;
use swim_wire::{Datagram, Endpoint, Update};
use thiserror::Error;

/// How an update breaks the law.
#[derive(Clone, Copy, Debug, PartialEq, Eq, Error)]
pub enum Breach {
    /// A number of another member that this one did not tell of itself, though it told one that is no smaller.
    #[error("it did not tell this number of itself")]
    Invented,
    /// A number of another member above all that this one told of itself.
    #[error("it told no number of itself that is so great")]
    Passed,
    /// A number of the sender's own below one that it told before.
    #[error("it told a greater number of itself before")]
    WentBack,
}

/// Why a datagram is not taken.
#[derive(Clone, Copy, Debug, PartialEq, Eq)]
pub enum CheckFault {
    /// This update of the datagram breaks the law.
    Broken(Update, Breach),
    /// There was no memory.
    NoMemory,
}

/// The numbers that each member told of itself.
type ToldNumbers = BTreeMap<Endpoint, Numbers>;

/// What the members of a group told of themselves so far.
#[derive(Drop)]
pub struct Checker {
    told: ToldNumbers,
    alloc: Global,
}

impl Model for Checker {
    ghost use Rattle.std.specs.Prelude.{List, ℕ};

    ghost Value = { List (ℕ × List ℕ) };

    ghost view = { λ c. c.told.entries };
}

/// Whether a member told this number of itself.
fn has_told(told: &ToldNumbers, who: Endpoint, number: u64) -> bool
    ensures { IsTrue result ↔ IsRemembered told.now.entries who number }
{
    let Some(numbers) = told.get(&who) else {
        return false;
    };
    numbers.has(number)
}

/// The greatest number that a member told of itself.
fn greatest_told(told: &ToldNumbers, who: Endpoint) -> Option<u64>
    ensures some { IfSome result (λ n. IsRemembered told.now.entries who n
        × ((m : ℕ) → IsRemembered told.now.entries who m → m ≤ n)) }
    ensures none { IfNone result ((n : ℕ) → IsRemembered told.now.entries who n → ⊥) }
{
    let Some(numbers) = told.get(&who) else {
        return None;
    };
    numbers.greatest()
}

/// How it breaks the law that this sender says this, if it does.
fn breach_of(told: &ToldNumbers, sender: Endpoint, update: &Update) -> Option<Breach>
    ensures some { IfSome result (λ breach.
        Breaks (IsRemembered told.now.entries) sender breach update.now) }
    ensures none { IfNone result (MaySay (IsRemembered told.now.entries) sender update.now) }
{
    let greatest = greatest_told(told, update.who);
    if update.who == sender {
        return match greatest {
            Some(number) if update.number < number => Some(Breach::WentBack),
            _ => None,
        };
    }
    if has_told(told, update.who, update.number) {
        return None;
    }
    match greatest {
        Some(number) if update.number < number => Some(Breach::Invented),
        _ => Some(Breach::Passed),
    }
}

/// The first of these updates by which this sender breaks the law, if there is one.
fn first_breach(
    told: &ToldNumbers,
    sender: Endpoint,
    updates: &[Update],
) -> Option<(Update, Breach)>
    ensures some { IfSome result (λ found. Contains updates.now found.0
        × Breaks (IsRemembered told.now.entries) sender found.1 found.0) }
    ensures none { IfNone result
        (All (λ u. MaySay (IsRemembered told.now.entries) sender u) updates.now) }
{
    for i in 0..updates.len() {
        let update = &updates[i];
        if let Some(breach) = breach_of(told, sender, update) {
            return Some((*update, breach));
        }
    }
    None
}

/// Remembers what this sender tells of itself in these updates, each number once. Err: there was no memory, and nothing
/// more is remembered.
fn note_all(
    told: &mut ToldNumbers,
    alloc: Global,
    sender: Endpoint,
    updates: &[Update],
) -> Result<(), AllocError>
    ensures ok { OnOk result (IsNoted told.old.entries sender updates.now told.new.entries) }
    ensures err { OnErr result (told.new.entries ≡ told.old.entries) }
{
    if let Some(numbers) = told.get_mut(&sender) {
        return numbers.add_own(sender, updates);
    }
    let mut numbers = Numbers::new(alloc);
    numbers.add_own(sender, updates)?;
    told.insert(sender, numbers)?;
    Ok(())
}

impl Checker {
    /// Nothing was told yet.
    pub fn new(alloc: Global) -> Checker
        ensures { Remembers result [] }
    {
        Checker {
            told: BTreeMap::new(alloc),
            alloc,
        }
    }

    /// Takes the datagram that was sent next, if it keeps the law. A refusal changes nothing.
    pub fn check(&mut self, datagram: &Datagram) -> Result<(), CheckFault>
        // whatever was sent before, and remembered: it keeps the law, and is remembered too
        ensures ok { OnOk result ((sent : List Out) → (out : Out)
            → out.datagram ≡ datagram.now
            → Remembers self.old sent
            → MayFollow sent datagram.now × Remembers self.new (sent ++ out ∷ [])) }
        // or this update breaks it so
        ensures broken { IfErr result (λ fault. (sent : List Out)
            → Remembers self.old sent
            → IsBroken sent datagram.now fault) }
        ensures err { OnErr result (self.new ≡ self.old) }
    {
        let updates = datagram.updates.as_slice();
        if let Some((update, breach)) = first_breach(&self.told, datagram.sender, updates) {
            return Err(CheckFault::Broken(update, breach));
        }
        let Ok(()) = note_all(&mut self.told, self.alloc, datagram.sender, updates) else {
            return Err(CheckFault::NoMemory);
        };
        Ok(())
    }
}

/// Judges the datagrams of a group, all that were sent from its beginning, in that order. Err says the place of the first
/// that breaks the law, from 0, and how.
pub fn check_all(alloc: Global, datagrams: &[Datagram]) -> Result<(), (usize, CheckFault)>
    ensures ok { OnOk result (KeepTheLaw [] (as_sent datagrams.now)) }
    ensures err { IfErr result (λ refused. IsFirstBroken datagrams.now refused.0 refused.1) }
    // what the members of a run sent is refused for nothing but want of memory
    ensures run { (group : Group) → (moves : List Move)
        → Begins group
        → IsRunOf group moves
        → datagrams.now ≡ datagrams_of (after_moves group moves).sent
        → IfErr result (λ refused. refused.1 ≡ NoMemory) }
{
    let mut checker = Checker::new(alloc);
    for i in 0..datagrams.len() {
        if let Err(fault) = checker.check(&datagrams[i]) {
            return Err((i, fault));
        }
    }
    Ok(())
}
