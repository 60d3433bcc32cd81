//! Bytes and 16-bit words at places of a frame.
ghost use Rattle.std.specs.Prelude.{◌≡◌, ◌+◌, ◌≤◌, ◌%◌, length};
ghost use Rattle.byteorder.specs.Endian.{big_bytes};
ghost use Rattle.packet_headers.specs.Fields.{number_at};
ghost use Rattle.header_edit.specs.Checksum.{words_of, mended_as};
ghost use Rattle.header_edit.specs.Frame.{bytes_at, put};

use crate::sums::{Zero, mended_as};
use byteorder::{BigEndian, ByteOrder};

/// The word in the two bytes from `place` on.
#[inline]
#[tactic(auto, unfolding(packet_headers::specs::Fields::number_at))]
pub fn word_at(frame: &[u8], place: usize) -> u16
    requires { place + 2 ≤ length frame.now }
    ensures { result ≡ number_at place 2 frame.now }
{
    BigEndian::read_u16(&frame[place..])
}

/// Writes bytes over those from `place` on.
#[inline]
#[tactic(auto, unfolding(crate::specs::Frame::put))]
pub fn write(frame: &mut [u8], place: usize, new: &[u8])
    requires { place + length new.now ≤ length frame.old }
    ensures { frame.new ≡ put place new.now frame.old }
{
    frame[place..place + new.len()].copy_from_slice(new);
}

/// Mends the checksum at `at` before the bytes from `place` on become `new`.
pub fn mend(frame: &mut [u8], at: usize, place: usize, new: &[u8], zero: Zero)
    requires checksum { at + 2 ≤ length frame.old }
    requires room { place + length new.now ≤ length frame.old }
    requires even { length new.now % 2 ≡ 0 }
    ensures { frame.new ≡ put at (big_bytes 2 (mended_as zero (number_at at 2 frame.old)
        (words_of (bytes_at place (length new.now) frame.old)) (words_of new.now))) frame.old }
{
    let checksum = mended_as(
        zero,
        word_at(frame, at),
        &frame[place..place + new.len()],
        new,
    );
    write(frame, at, &checksum.to_be_bytes());
}
