//! Turns of the codec.

ghost use Rattle.std.specs.Prelude.{◌≡◌, ◌≤◌, ◌<◌, length, take, IsOk, IsErr};
ghost use Rattle.swim_wire.specs.declared.datagram.TheConstants.{DATAGRAM_MAX};
ghost use Rattle.swim_wire.specs.Decoding.{decoded};
ghost use Rattle.swim_wire.specs.Spelling.{HasText, Spells};

use swim_wire::{Datagram, decode, decode_into, encode_into};

/// Writes the datagram's text over the first bytes, and answers its length. Each turn does it anew: inlined, the same text
/// would be written once for all of them.
#[inline(never)]
pub(crate) fn write(datagram: &Datagram, out: &mut [u8]) -> usize
    requires text { HasText datagram.now }
    requires room { DATAGRAM_MAX ≤ length out.old }
    ensures text { Spells (take result out.new) datagram.now }
{
    encode_into(datagram, out)
}

/// Decodes the text in each turn, and answers in how many it was a datagram.
#[unsafe(no_mangle)]
pub extern "C" fn swim_bench_decode(text: &[u8], turns: u32) -> u64
    ensures good { IsOk (decoded text.now) → result ≡ turns }
    ensures bad { IsErr (decoded text.now) → result ≡ 0 }
{
    let mut place = Datagram::default();
    let mut good = 0;
    for _ in 0..turns {
        if decode_into(text, &mut place).is_ok() {
            good += 1;
        }
    }
    good
}

/// Decodes the text, encodes the datagram in each turn, and answers the length of what was written last.
/// It is the text that was read.
#[unsafe(no_mangle)]
pub extern "C" fn swim_bench_encode(text: &[u8], turns: u32, out: &mut [u8]) -> usize
    requires { DATAGRAM_MAX ≤ length out.old }
    ensures same { 0 < result → take result out.new ≡ text.now }
{
    match decode(text) {
        Err(_) => 0,
        Ok(datagram) => {
            if !datagram.is_encodable() {
                return 0;
            }
            encode_turns(&datagram, turns, out)
        }
    }
}

fn encode_turns(datagram: &Datagram, turns: u32, out: &mut [u8]) -> usize
    requires text { HasText datagram.now }
    requires room { DATAGRAM_MAX ≤ length out.old }
    ensures { 0 < result → Spells (take result out.new) datagram.now }
{
    let mut written = 0;
    for _ in 0..turns {
        written = write(datagram, out);
    }
    written
}
