//! Receive-side scaling: the queues of the action, and what its hash is of.
ghost use Rattle.std.specs.Prelude.{◌≡◌};

use arrayvec::ArrayVec;
use std::alloc::AllocError;

/// The most queues of a list.
pub const MAX_RSS_QUEUES: usize = 16;

/// All that a hash may be of.
pub const ALL_RSS_TYPES: u8 = 63;

/// The value of the action that spreads frames over queues by a hash.
#[derive(PartialEq, Eq, Debug, Drop)]
pub struct Rss {
    /// The Rx queues among which the hash chooses. An empty list stands for all queues of the port.
    pub queues: ArrayVec<u16, MAX_RSS_QUEUES>,
    /// The headers whose addresses, or addresses and ports, are hashed. Bits 0 to 5 are IPv4, IPv4 with TCP, IPv4 with
    /// UDP, IPv6, IPv6 with TCP, IPv6 with UDP.
    pub types: u8,
}

impl Rss {
    /// The same value.
    pub fn copied(&self) -> Rss
        ensures { result ≡ self.now }
    {
        Rss {
            queues: copy_of(&self.queues),
            types: self.types,
        }
    }
}

impl Clone for Rss {
    ghost is_clone = { λ rss copy. copy ≡ rss };

    fn clone(&self) -> Result<Rss, AllocError> {
        Ok(self.copied())
    }
}

/// The same queues.
fn copy_of(queues: &ArrayVec<u16, MAX_RSS_QUEUES>) -> ArrayVec<u16, MAX_RSS_QUEUES>
    ensures { result.items ≡ queues.now.items }
{
    let mut copy = ArrayVec::new();
    for queue in queues.as_slice() {
        copy.push(*queue);
    }
    copy
}
