//! Which of several members is asked.

use crate::place::judge;
use std::alloc::Global;
use swim_exit::Failure;

/// The control sockets of members of one group, of which one is asked, and the next one once that does not answer.
#[derive(Clone, Copy, Debug)]
pub struct Addresses<'a> {
    words: &'a [String],
    place: usize,
}

impl<'a> Addresses<'a> {
    /// These, the first of which is asked. An error says which of them is no address.
    pub fn judged(alloc: Global, words: &'a [String]) -> Result<Addresses<'a>, Failure> {
        for word in words {
            judge(alloc, word)?;
        }
        Ok(Addresses { words, place: 0 })
    }

    /// How many they are.
    pub fn count(&self) -> usize {
        self.words.len()
    }

    /// The one that is asked.
    pub fn word(&self) -> &'a str {
        match self.words.get(self.place) {
            Some(word) => word.as_str(),
            None => "",
        }
    }

    /// It does not answer: the next one is asked, and after the last the first one again.
    pub fn step(&mut self) {
        self.place = self.place.saturating_add(1);
        if self.place >= self.words.len() {
            self.place = 0;
        }
    }
}
