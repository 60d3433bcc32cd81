//! Rings of one pass and of two, step by step.
ghost use Rattle.std.specs.Prelude.{◌≡◌};

use crate::passes::{hand_in, offer_as, take_pass};
use frame_ring::{Buffer, FrameRing, RingPass, RingPasses};
use std::test::Fail;

fn crosses<T: Send>(_value: &T) {}

fn is_shared<T: Sync>(_value: &T) {}

// Each goes to another thread, and threads may share each.
fn all_cross(ring: &FrameRing, pass: &RingPass, passes: &RingPasses, buffer: &Buffer) {
    crosses(ring);
    is_shared(ring);
    crosses(pass);
    is_shared(pass);
    crosses(passes);
    is_shared(passes);
    crosses(buffer);
    is_shared(buffer);
}

#[test]
fn a_ring_of_one_frame_and_two_buffers(rt: HostRuntime) -> Result<(), Fail> {
    let (mut ring, mut passes) = FrameRing::new(&rt, rt.alloc(), 1, 2, 1, 0)?;
    let mut pass = take_pass(&ring, &mut passes);
    let first = ring.take_free(&rt, &mut pass).ok_or("two buffers")?;
    let second = ring.take_free(&rt, &mut pass).ok_or("one buffer")?;
    all_cross(&ring, &pass, &passes, &first);
    assert!(rt; ring.take_free(&rt, &mut pass).is_none());
    let offered = offer_as(&rt, &ring, &mut pass, first, 1);
    assert!(rt; offered.is_ok());
    let back = offer_as(&rt, &ring, &mut pass, second, 2);
    let back = back.err().ok_or("no room")?;
    assert!(rt; back.number == 2);
    let frame = ring.grab(&rt, &mut pass).ok_or("one frame")?;
    assert!(rt; frame.number == 1 && frame.bytes()[0] == 7);
    assert!(rt; ring.give_back(&rt, &mut pass, frame).is_ok());
    assert!(rt; ring.give_back(&rt, &mut pass, back).is_ok());
    hand_in(&ring, &mut passes, pass);
    assert!(rt; ring.drain(&rt, &mut passes).is_none());
    assert!(rt; passes.pop().is_none());
    Ok(())
}

#[test]
fn what_is_left_is_drained_in_order(rt: HostRuntime) -> Result<(), Fail> {
    let (mut ring, mut passes) = FrameRing::new(&rt, rt.alloc(), 4, 4, 2, 10)?;
    let mut other = take_pass(&ring, &mut passes);
    let mut pass = take_pass(&ring, &mut passes);
    for number in 11..14 {
        let buffer = ring.take_free(&rt, &mut pass).ok_or("four buffers")?;
        let offered = offer_as(&rt, &ring, &mut pass, buffer, number);
        assert!(rt; offered.is_ok());
    }
    let frame = ring.grab(&rt, &mut other).ok_or("three frames")?;
    assert!(rt; frame.number == 11 && frame.bytes()[0] == 7);
    hand_in(&ring, &mut passes, other);
    hand_in(&ring, &mut passes, pass);
    let second = ring.drain(&rt, &mut passes).ok_or("two frames")?;
    let third = ring.drain(&rt, &mut passes).ok_or("one frame")?;
    assert!(rt; second.number == 12 && third.number == 13 && third.bytes()[0] == 7);
    assert!(rt; ring.drain(&rt, &mut passes).is_none());
    Ok(())
}
