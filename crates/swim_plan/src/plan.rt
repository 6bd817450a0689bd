//! Plans: what is simulated. A plan has a number for each key.

ghost use Rattle.std.specs.Prelude.{◌≡◌, ◌≢◌, ◌<◌, ◌≤◌, Some, None, IfOk, IfErr, IfSome, IfNone, option_and_then, option_map};
ghost use Rattle.toml.specs.Data.{Members, as_integer};
ghost use Rattle.toml.specs.Parse.{parse_document};
ghost use Rattle.toml.specs.View.{table_view, view};
ghost use Rattle.swim_settings.specs.Says.{natural_of};
ghost use Rattle.swim_settings.specs.Unknown.{AreNamed};
ghost use Rattle.swim_plan.specs.declared.key.PlanKey.TheVariants as key;
ghost use Rattle.swim_plan.specs.Keys.{plan_keys, plan_key, range_of};
ghost use Rattle.swim_plan.specs.Plan.{AreDefaults, IsFirstKey, IsPlanReason, Says, kill_tick, pause_tick, number_at, with_number, taken_at, taken_from, tick_count, data_at};

use crate::key::{KEYS, PlanKey, Range};
use crate::refusal::PlanRefusal;
use std::alloc::Global;
use std::marker::Model;
use swim_settings::{as_number, read_table, refuse_unknown};
use swim_words::Word;
use toml::{Table, Value};

/// What is simulated: a number for each key, which is in the range of the key.
#[derive(Clone, Copy)]
pub struct Plan {
    numbers: [u64; KEYS],
}

impl Model for Plan {
    ghost use Rattle.std.specs.Prelude.{ℕ, List};
    ghost use Rattle.swim_plan.specs.Plan.{AreInRanges};

    ghost Value = { List ℕ };

    ghost view = { λ p. p.numbers };

    ghost invariant = { λ p. AreInRanges p.numbers };

    ghost inverse = { λ numbers. record { numbers = numbers } };
}

/// What stands at a key.
fn find(table: &Table, key: PlanKey) -> Option<&Value>
    ensures { option_map (λ value. view value.now) result ≡ data_at key (table_view table.now) }
{
    table.get(key.text())
}

/// The number, if it is in the range.
fn within(range: Range, number: u64) -> Option<u64>
    ensures { result ≡ taken_from range number }
{
    if number < range.least || range.most < number {
        return None;
    }
    Some(number)
}

/// The number that the table gives a key, or else its default; none where the key does not take it.
fn taken(table: &Table, key: PlanKey) -> Option<u64>
    ensures { result ≡ taken_at key (table_view table.now) }
{
    let range = key.range();
    match find(table, key) {
        Some(value) => within(range, as_number(value)?),
        None => within(range, range.default),
    }
}

/// The plan of a table, or the first key that does not take its number.
fn read_keys(table: &Table) -> Result<Plan, PlanKey>
    ensures ok { IfOk result (Says (table_view table.now)) }
    ensures refused { IfErr result (λ key. IsFirstKey key (table_view table.now)) }
{
    let mut numbers = [0; KEYS];
    for place in 0..KEYS {
        let key = PlanKey::ALL[place];
        match taken(table, key) {
            Some(number) => numbers[place] = number,
            None => return Err(key),
        }
    }
    Ok(Plan { numbers })
}

impl Plan {
    /// The plan with the default of each key.
    pub fn default() -> Plan
        ensures { AreDefaults result }
    {
        let mut numbers = [0; KEYS];
        for place in 0..KEYS {
            numbers[place] = PlanKey::ALL[place].range().default;
        }
        Plan { numbers }
    }

    /// The number of a key.
    pub fn get(&self, key: PlanKey) -> u64
        ensures value { result ≡ number_at key self.now }
        ensures low { (range_of key).least ≤ result }
        ensures high { result ≤ (range_of key).most }
    {
        self.numbers[key.place()]
    }

    /// How many ticks are simulated.
    pub fn ticks(&self) -> u64
        ensures value { result ≡ tick_count self.now }
        ensures high { result ≤ 86400000 }
    {
        self.get(PlanKey::Minutes) * 60_000 / self.get(PlanKey::TickMs)
    }

    /// In which tick the kill with this number comes, counted from 0.
    pub fn kill_tick(&self, kill: u64) -> u64
        requires { kill < number_at key.Kills self.now }
        ensures { result ≡ kill_tick self.now kill }
    {
        let kills = self.get(PlanKey::Kills);
        self.ticks() * (kill + 1) / (kills + 1)
    }

    /// In which tick the pause with this number comes, counted from 0.
    pub fn pause_tick(&self, pause: u64) -> u64
        requires { pause < number_at key.Pauses self.now }
        ensures { result ≡ pause_tick self.now pause }
    {
        let pauses = self.get(PlanKey::Pauses);
        self.ticks() * (pause + 1) / (pauses + 1)
    }

    /// The plan with another number at a key, if the key takes it.
    pub fn with(&self, key: PlanKey, number: u64) -> Option<Plan>
        ensures set { IfSome result (λ plan. plan ≡ with_number key number self.now) }
        ensures taken { IfSome result (λ plan. taken_from (range_of key) number ≡ Some number) }
        ensures refused { IfNone result (taken_from (range_of key) number ≡ None) }
    {
        let number = within(key.range(), number)?;
        let mut numbers = self.numbers;
        numbers[key.place()] = number;
        Some(Plan { numbers })
    }

    /// The plan that the bytes of a file say.
    pub fn read(alloc: Global, bytes: &[u8]) -> Result<Plan, PlanRefusal>
        ensures said { IfOk result (λ plan. (table : Members)
            × (parse_document bytes.now ≡ Some table) × Says table plan
            × AreNamed plan_key plan_keys table) }
        ensures direct { IfOk result (λ plan. number_at key.Direct plan
            < number_at key.Period plan) }
        ensures refused { IfErr result (IsPlanReason bytes.now) }
    {
        let table = read_table(alloc, bytes)?;
        let plan = match read_keys(&table) {
            Ok(plan) => plan,
            Err(key) => return Err(PlanRefusal::Key(key)),
        };
        refuse_unknown(alloc, &PlanKey::ALL, &table)?;
        if plan.get(PlanKey::Direct) >= plan.get(PlanKey::Period) {
            return Err(PlanRefusal::Key(PlanKey::Direct));
        }
        Ok(plan)
    }
}
