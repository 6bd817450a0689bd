//! A deal from a random word.

ghost use Rattle.std.specs.Prelude.{◌≡◌, ◌≤◌, ◌<◌, ◌^◌, ℕ};
ghost use Rattle.swim_library.specs.Deal.{place_by};

use swim_member::Deal;

/// The next word of a sequence that looks random (SplitMix64), and the state after it.
fn next_word(state: u64) -> (u64, u64) {
    let state = state.wrapping_add(0x9e37_79b9_7f4a_7c15);
    let mixed = (state ^ (state >> 30)).wrapping_mul(0xbf58_476d_1ce4_e5b9);
    let mixed = (mixed ^ (mixed >> 27)).wrapping_mul(0x94d0_49bb_1331_11eb);
    (mixed ^ (mixed >> 31), state)
}

/// One of the places up to this one, by the upper half of a random word, with no division. Each of them is that of some word.
fn place_by(word: u64, place: usize) -> usize
    requires { place < 256 }
    ensures value { result ≡ place_by word place }
    ensures within { result ≤ place }
    ensures each { (other : ℕ) → other ≤ place
        → (some_word : ℕ) × (some_word < 2 ^ 64) × (place_by some_word place ≡ other) }
{
    (((word >> 32) * (place as u64 + 1)) >> 32) as usize
}

/// The numbers 0 to 255, shuffled by the words that follow from this one.
pub(crate) fn deal_of(random: u64) -> Deal {
    let mut numbers = [0u8; 256];
    let mut state = random;
    for place in 0..256usize {
        let (word, after) = next_word(state);
        state = after;
        let other = place_by(word, place);
        numbers[place] = numbers[other];
        numbers[other] = place as u8;
    }
    match Deal::new(numbers) {
        Some(deal) => deal,
        // a shuffle is a deal
        None => Deal::from_first((random % 256) as u8),
    }
}
