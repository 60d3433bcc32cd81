//! Four threads offer and grab, over a ring with few buffers.
ghost use Rattle.std.specs.Prelude.{◌≡◌, ◌+◌, ◌<◌, [], length, All};
ghost use Rattle.std.specs.Bool.{OnTrue};
ghost use Rattle.frame_ring.specs.Passes.{number_of, offered, passes_in, limit_of, gathered};
ghost use Rattle.frame_ring.specs.Rings.{floor_of, IsPassOf, IsFresh};
ghost use Rattle.ring_tests.specs.Numbered.{AreNumbered};

use crate::passes::{drain_all, hand_in, take_pass};
use frame_ring::{Buffer, FrameRing, RingPass, RingPasses};
use std::sync::Wait;
use std::test::Fail;
use std::thread::{Threads, for_each_mut, yield_now};

const FRAMES: u32 = 100_000;

// A pass, whether it is the one that offers, and the sum of the numbers that it grabbed.
#[derive(Drop)]
struct Hand {
    pass: RingPass,
    leads: bool,
    sum: u64,
}

// Grabs a frame and gives its buffer back. False where there was none.
fn grab_one<R: Wait>(rt: &R, ring: &FrameRing, hand: &mut Hand) -> bool
    requires { IsPassOf ring.now hand.old.pass }
    ensures pass { IsPassOf ring.now hand.new.pass }
    ensures same { (number_of hand.new.pass ≡ number_of hand.old.pass) × (offered hand.new.pass ≡ offered hand.old.pass) }
{
    let Some(frame) = ring.grab(rt, &mut hand.pass) else {
        return false;
    };
    hand.sum = hand.sum.wrapping_add(u64::from(frame.number));
    let _full = ring.give_back(rt, &mut hand.pass, frame);
    true
}

// Grabs until the ring is shut and then empty.
fn follow<R: Wait>(rt: &R, ring: &FrameRing, hand: &mut Hand)
    requires { IsPassOf ring.now hand.old.pass }
    ensures { IsPassOf ring.now hand.new.pass }
{
    for _ in rt.forever() {
        let was_shut = ring.is_shut();
        if grab_one(rt, ring, hand) {
            continue;
        }
        if was_shut {
            return;
        }
        yield_now();
    }
}

fn free_buffer<R: Wait>(rt: &R, ring: &FrameRing, hand: &mut Hand) -> Buffer
    requires { IsPassOf ring.now hand.old.pass }
    ensures pass { IsPassOf ring.now hand.new.pass }
    ensures same { (number_of hand.new.pass ≡ number_of hand.old.pass) × (offered hand.new.pass ≡ offered hand.old.pass) }
{
    for _ in rt.forever() {
        if let Some(buffer) = ring.take_free(rt, &mut hand.pass) {
            return buffer;
        }
        grab_one(rt, ring, hand);
    }
    unreachable!()
}

// Offers the frame of that number, and grabs where there is no room.
fn send<R: Wait>(rt: &R, ring: &FrameRing, hand: &mut Hand, number: u32)
    requires pass { IsPassOf ring.now hand.old.pass × (number_of hand.old.pass ≡ 0) }
    requires number { (floor_of ring.now < number) × All (λ f. f.number < number) (offered hand.old.pass) }
    ensures pass { IsPassOf ring.now hand.new.pass × (number_of hand.new.pass ≡ 0) }
    ensures number { All (λ f. f.number < number + 1) (offered hand.new.pass) }
{
    let mut held = free_buffer(rt, ring, hand);
    held.number = number;
    held.len = 60;
    for _ in rt.forever() {
        match ring.offer(rt, &mut hand.pass, held) {
            Ok(()) => return,
            Err(back) => held = back,
        }
        grab_one(rt, ring, hand);
    }
}

fn lead<R: Wait>(rt: &R, ring: &FrameRing, hand: &mut Hand)
    requires pass { IsPassOf ring.now hand.old.pass × (number_of hand.old.pass ≡ 0) }
    requires number { (floor_of ring.now ≡ 0) × (offered hand.old.pass ≡ []) }
    ensures { IsPassOf ring.now hand.new.pass }
{
    for number in 1..FRAMES + 1 {
        send(rt, ring, hand, number);
    }
    ring.shut();
    follow(rt, ring, hand);
}

fn act<R: Wait>(rt: &R, ring: &FrameRing, hand: &mut Hand)
    requires pass { IsPassOf ring.now hand.old.pass × (floor_of ring.now ≡ 0) × (offered hand.old.pass ≡ []) }
    requires leads { OnTrue hand.old.leads (number_of hand.old.pass ≡ 0) }
    ensures { IsPassOf ring.now hand.new.pass }
{
    if hand.leads {
        lead(rt, ring, hand);
        return;
    }
    follow(rt, ring, hand);
}

fn act_all<R: Threads + Wait + Sync>(rt: &R, ring: &FrameRing, hands: &mut [Hand])
    requires hands { All (λ h. IsPassOf ring.now h.pass × (offered h.pass ≡ []) × OnTrue h.leads (number_of h.pass ≡ 0)) hands.old }
    requires floor { floor_of ring.now ≡ 0 }
    ensures { All (λ h. IsPassOf ring.now h.pass) hands.new }
{
    for_each_mut(
        rt,
        hands,
        4,
        &|_, hand: &mut Hand|
            requires { IsPassOf ring.now hand.now.pass × (offered hand.now.pass ≡ []) × OnTrue hand.now.leads (number_of hand.now.pass ≡ 0) × (floor_of ring.now ≡ 0) }
            ensures { IsPassOf ring.entry.now hand.exit.now.pass }
        { act(rt, ring, hand) },
    );
}

fn new_hand(pass: RingPass, leads: bool) -> Hand
    ensures { (result.pass ≡ pass) × (result.leads ≡ leads) }
{
    Hand {
        pass,
        leads,
        sum: 0,
    }
}

// One hand for each pass. That of number 0 leads.
fn new_hands(ring: &FrameRing, passes: &mut RingPasses) -> [Hand; 4]
    requires passes { All (IsPassOf ring.now) (passes_in passes.old) × All IsFresh (passes_in passes.old) }
    requires length { length (passes_in passes.old) ≡ 4 }
    requires numbers { AreNumbered (passes_in passes.old) }
    ensures hands { All (λ h. IsPassOf ring.now h.pass × (offered h.pass ≡ []) × OnTrue h.leads (number_of h.pass ≡ 0)) result }
    ensures passes { passes_in passes.new ≡ [] }
    ensures list { (limit_of passes.new ≡ limit_of passes.old) × (gathered passes.new ≡ gathered passes.old) }
{
    let fourth = new_hand(take_pass(ring, passes), false);
    let third = new_hand(take_pass(ring, passes), false);
    let second = new_hand(take_pass(ring, passes), false);
    let first = new_hand(take_pass(ring, passes), true);
    [first, second, third, fourth]
}

// Hands all passes in. The result is the sum of all sums.
fn hand_in_all(ring: &FrameRing, passes: &mut RingPasses, hands: [Hand; 4]) -> u64
    requires hands { All (λ h. IsPassOf ring.now h.pass) hands }
    requires passes { (passes_in passes.old ≡ []) × (limit_of passes.old ≡ 4) }
    ensures passes { All (IsPassOf ring.now) (passes_in passes.new) }
    ensures length { length (passes_in passes.new) ≡ 4 }
    ensures gathered { gathered passes.new ≡ gathered passes.old }
{
    let [first, second, third, fourth] = hands;
    let sum = hand_in_one(ring, passes, first);
    let sum = sum.wrapping_add(hand_in_one(ring, passes, second));
    let sum = sum.wrapping_add(hand_in_one(ring, passes, third));
    sum.wrapping_add(hand_in_one(ring, passes, fourth))
}

fn hand_in_one(ring: &FrameRing, passes: &mut RingPasses, hand: Hand) -> u64
    requires pass { IsPassOf ring.now hand.pass }
    requires passes { All (IsPassOf ring.now) (passes_in passes.old) }
    requires room { length (passes_in passes.old) < limit_of passes.old }
    ensures passes { All (IsPassOf ring.now) (passes_in passes.new) }
    ensures length { length (passes_in passes.new) ≡ length (passes_in passes.old) + 1 }
    ensures list { (limit_of passes.new ≡ limit_of passes.old) × (gathered passes.new ≡ gathered passes.old) }
{
    let Hand { pass, sum, .. } = hand;
    hand_in(ring, passes, pass);
    sum
}

#[test]
fn all_frames_of_four_threads_are_grabbed(rt: HostRuntime) -> Result<(), Fail> {
    let (mut ring, mut passes) = FrameRing::new(&rt, rt.alloc(), 8, 8, 4, 0)?;
    let mut hands = new_hands(&ring, &mut passes);
    act_all(&rt, &ring, &mut hands);
    let sum = hand_in_all(&ring, &mut passes, hands);
    assert!(rt; sum == 5_000_050_000);
    drain_all(&rt, &mut ring, &mut passes);
    assert!(rt; ring.drain(&rt, &mut passes).is_none());
    Ok(())
}
