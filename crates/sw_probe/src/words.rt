//! Words of byte strings, for hashers that multiply eight bytes at once.
ghost use Rattle.std.specs.Prelude.{◌≡◌, ◌≤◌, ℕ, length, map, take, fold};
ghost use Rattle.std.specs.Int.{w64, from_le_bytes};
ghost use Rattle.sw_probe.specs.Hashes.{read_step};
ghost use Rattle.sw_probe.specs.Words.{words_of};

use crate::hashers::ReadStep;
use crate::keyed::{Step, WordStep};

/// The byte that is hashed instead of each byte, as the small letter of a capital.
pub trait ByteMap {
    ghost image: { Self → ℕ → ℕ };

    fn byte(&self, byte: u8) -> u8
        ensures { result ≡ image self.now byte };

    /// The same for eight bytes at once.
    fn eight(&self, bytes: [u8; 8]) -> [u8; 8]
        ensures { result ≡ map (image self.now) bytes };
}

/// Hashes each byte itself.
pub struct AsItIs;

impl ByteMap for AsItIs {
    ghost image = { λ _ byte. byte };

    #[inline(always)]
    fn byte(&self, byte: u8) -> u8 {
        byte
    }

    #[inline(always)]
    fn eight(&self, bytes: [u8; 8]) -> [u8; 8] {
        bytes
    }
}

/// Folds the step over the words of a byte string, mapped by `of`: its length, and then the number that fewer
/// than eight bytes spell, or else its words of eight bytes and that of the last eight, as `words_of` says.
#[inline]
pub fn fold_byte_words<M: ByteMap, F: WordStep>(bytes: &[u8], of: &M, start: u64, f: &F) -> u64
    ensures { result ≡ fold (F.next f.now) start (words_of (map (M.image of.now) bytes.now)) }
{
    let len = bytes.len();
    let acc = f.step(start, len as u64);
    if len < 8 {
        return f.step(acc, number_of(bytes, of));
    }
    let last = len - 8;
    let mut acc = f.step(acc, first_word(bytes, of));
    for i in 1..(len - 1) / 8 {
        acc = f.step(acc, first_word(&bytes[8 * i..], of));
    }
    f.step(acc, first_word(&bytes[last..], of))
}

// The first eight bytes as a number, little-endian.
#[inline(always)]
fn first_word<M: ByteMap>(bytes: &[u8], of: &M) -> u64
    requires { 8 ≤ length bytes.now }
    ensures { result ≡ from_le_bytes w64 (map (M.image of.now) (take 8 bytes.now)) }
{
    u64::from_le_bytes(of.eight([
        bytes[0], bytes[1], bytes[2], bytes[3], bytes[4], bytes[5], bytes[6], bytes[7],
    ]))
}

// The number that all bytes spell, big-endian.
fn number_of<M: ByteMap>(bytes: &[u8], of: &M) -> u64
    ensures { result ≡ fold read_step 0 (map (M.image of.now) bytes.now) }
{
    let mut number = 0;
    for byte in bytes {
        number = ReadStep.step(number, of.byte(*byte));
    }
    number
}
