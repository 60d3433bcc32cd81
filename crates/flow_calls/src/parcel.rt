//! What a history keeps of a frame.
ghost use Rattle.std.specs.Prelude.{◌≡◌};

use packet_headers::Key;
use std::alloc::AllocError;

/// A frame: its number in the capture, counted from 1, its layers, and its captured length in bytes.
#[derive(Drop)]
pub struct Parcel {
    pub number: u32,
    pub key: Key,
    pub len: u32,
}

impl Clone for Parcel {
    ghost is_clone = { λ v w. w ≡ v };

    fn clone(&self) -> Result<Parcel, AllocError> {
        let key = self.key;
        let number = self.number;
        let len = self.len;
        Ok(Parcel { number, key, len })
    }
}
