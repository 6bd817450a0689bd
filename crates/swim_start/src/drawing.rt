//! What a member draws by.

ghost use Rattle.std.specs.Prelude.{◌≡◌, ℕ, List, Some};

use std::io;
use std::random::RandomSource;

/// The key of the member's generators: the given one, or one from the system. An error is the system's.
pub fn key_of<R: RandomSource>(rt: &R, given: Option<[u8; 32]>) -> io::Result<[u8; 32]>
    ensures { (key : List ℕ) → given ≡ Some key → result ≡ Ok key }
{
    if let Some(given) = given {
        return Ok(given);
    }
    let mut key = [0u8; 32];
    rt.fill_bytes(&mut key)?;
    Ok(key)
}
