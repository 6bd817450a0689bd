//! Sweeps over plans: for some keys a row of numbers each, and a plan for each choice of one of each row.

use std::alloc::{AllocError, Global};
use swim_plan::{Plan, PlanKey, PlanRefusal, Range};
use swim_settings::SettingsRefusal;
use swim_words::{read_within, split_at_byte};

/// Into how many steps a row is parted whose step is not said.
const STEPS: u64 = 5;

/// The most plans of a sweep.
const PLANS_MAX: usize = 10_000;

/// A key and its numbers.
#[derive(Drop)]
pub struct Axis {
    /// The key.
    pub key: PlanKey,
    /// Its numbers, the least first.
    pub numbers: Vec<u64>,
}

/// Some keys and their numbers.
#[derive(Drop)]
pub struct Sweep {
    /// The keys, in the order in which they were said.
    pub axes: Vec<Axis>,
}

/// A row of numbers: the ends, and the step, if it is said.
#[derive(Clone, Copy, Debug, PartialEq, Eq)]
pub struct Span {
    /// The least number.
    pub least: u64,
    /// The greatest one.
    pub most: u64,
    /// From a number to the next.
    pub step: Option<u64>,
}

/// The row that is said by `A..B` or `A..B/STEP`, in the range of a key.
pub fn read_span(text: &[u8], range: Range) -> Option<Span> {
    let (least, rest) = split_at_byte(text, b'.')?;
    let rest = rest.strip_prefix(b".")?;
    let (most, step) = match split_at_byte(rest, b'/') {
        Some((most, step)) => (most, Some(read_within(step, 1, range.most)?)),
        None => (rest, None),
    };
    let least = read_within(least, range.least, range.most)?;
    let most = read_within(most, least, range.most)?;
    Some(Span { least, most, step })
}

/// The numbers of a row with this step.
fn stepped(alloc: Global, span: Span, step: u64) -> Result<Vec<u64>, AllocError> {
    let mut numbers = Vec::new(alloc);
    let mut number = span.least;
    for _ in 0..PLANS_MAX.saturating_add(1) {
        if number > span.most {
            break;
        }
        numbers.push(number)?;
        number = number.saturating_add(step.max(1));
    }
    Ok(numbers)
}

/// The numbers of a row in steps that are as even as whole numbers are, each number once.
fn parted(alloc: Global, span: Span) -> Result<Vec<u64>, AllocError> {
    let mut numbers = Vec::new(alloc);
    let width = span.most.saturating_sub(span.least);
    for part in 0..STEPS + 1 {
        let number = span
            .least
            .saturating_add(width.saturating_mul(part) / STEPS);
        if numbers.last() != Some(&number) {
            numbers.push(number)?;
        }
    }
    Ok(numbers)
}

/// The numbers of a row.
pub fn numbers_of(alloc: Global, span: Span) -> Result<Vec<u64>, AllocError> {
    match span.step {
        Some(step) => stepped(alloc, span, step),
        None => parted(alloc, span),
    }
}

/// A word that says no key.
fn unknown(alloc: Global, word: &[u8]) -> Result<PlanRefusal, AllocError> {
    let text = match str::from_utf8(word) {
        Ok(text) => text,
        Err(_) => "",
    };
    let word = String::from_str(alloc, text)?;
    Ok(PlanRefusal::Text(SettingsRefusal::Unknown(word)))
}

impl Sweep {
    /// The sweep that is said by `KEY=A..B`, more of them after commas. Each key is said once.
    pub fn read(alloc: Global, text: &str) -> Result<Sweep, PlanRefusal> {
        let mut sweep = Sweep {
            axes: Vec::new(alloc),
        };
        for word in text.as_bytes().split(|byte| *byte == b',') {
            sweep.read_word(alloc, word)?;
        }
        Ok(sweep)
    }

    /// Reads one word of it.
    fn read_word(&mut self, alloc: Global, word: &[u8]) -> Result<(), PlanRefusal> {
        let said = match split_at_byte(word, b'=') {
            Some((name, span)) => PlanKey::of(name).map(|key| (key, span)),
            None => None,
        };
        let Some((key, span)) = said else {
            return Err(unknown(alloc, word)?);
        };
        let is_new = !self.axes.iter().any(|axis| axis.key == key);
        let Some(span) = read_span(span, key.range()) else {
            return Err(PlanRefusal::Key(key));
        };
        self.add(key, numbers_of(alloc, span)?)?;
        if !is_new || self.count() > PLANS_MAX {
            return Err(PlanRefusal::Key(key));
        }
        Ok(())
    }

    /// Adds a key with its numbers.
    fn add(&mut self, key: PlanKey, numbers: Vec<u64>) -> Result<(), AllocError> {
        self.axes.push(Axis { key, numbers })?;
        Ok(())
    }

    /// How many plans it has.
    pub fn count(&self) -> usize {
        let mut count = 1usize;
        for axis in self.axes.as_slice() {
            count = count.saturating_mul(axis.numbers.len());
        }
        count
    }

    /// The number of each key in a plan; the last key goes on first.
    pub fn choice(&self, alloc: Global, plan: usize) -> Result<Vec<u64>, AllocError> {
        let mut numbers = Vec::new(alloc);
        let mut later = self.count();
        for axis in self.axes.as_slice() {
            let count = axis.numbers.len();
            later = later.checked_div(count).unwrap_or(0);
            let place = plan.checked_div(later).unwrap_or(0);
            let place = place.checked_rem(count).unwrap_or(0);
            numbers.push(axis.numbers.get(place).copied().unwrap_or(0))?;
        }
        Ok(numbers)
    }

    /// A plan of the sweep: the given one with these numbers. A plan asks others about a target before its period ends.
    pub fn plan(&self, plan: &Plan, choice: &[u64]) -> Result<Plan, PlanRefusal> {
        let mut next = *plan;
        for (axis, number) in self.axes.iter().zip(choice) {
            match next.with(axis.key, *number) {
                Some(plan) => next = plan,
                None => return Err(PlanRefusal::Key(axis.key)),
            }
        }
        if next.get(PlanKey::Direct) >= next.get(PlanKey::Period) {
            return Err(PlanRefusal::Key(PlanKey::Direct));
        }
        Ok(next)
    }
}
