//! The Toeplitz hash.
ghost use Rattle.std.specs.Prelude.{◌≡◌, ◌+◌, ◌*◌, ◌≤◌, ◌<◌, length};
ghost use Rattle.flow_actions.specs.Hash.{bits_of, windows_at, hash_at, hash_of};

use crate::halves::half_hash;

/// The Toeplitz hash of up to 36 bytes, under the key of Microsoft's RSS hash verification: the exclusive or, over the bits
/// that are set, of the 32 bits of the key from that bit on.
pub fn toeplitz(input: &[u8]) -> u32
    requires { length input.now ≤ 36 }
    ensures { result ≡ hash_of input.now }
{
    hash_at(0, input)
}

/// The part that bytes have in the hash, where the first is byte `from` of the input.
#[inline]
pub(crate) fn hash_at(from: usize, bytes: &[u8]) -> u32
    requires { from + length bytes.now ≤ 36 }
    ensures { result ≡ hash_at from bytes.now }
{
    let mut hash = 0;
    let mut place = from;
    for byte in bytes {
        hash ^= byte_hash(place, *byte);
        place += 1;
    }
    hash
}

/// The part of one byte.
#[inline]
fn byte_hash(place: usize, byte: u8) -> u32
    requires { place < 36 }
    ensures { result ≡ windows_at (8 * place) (bits_of byte) }
{
    half_hash(2 * place, (byte / 16) as usize) ^ half_hash(2 * place + 1, (byte % 16) as usize)
}
