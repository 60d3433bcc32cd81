//! The speed of the hash: ten million hashes of 12 bytes, and their exclusive or.
//!
//! The inputs are different, so that none is computed beforehand. The run is stored with the exclusive or that a plain program of
//! another language, which goes bit by bit, prints for the same inputs.
#![tactic(auto)]

use flow_actions::toeplitz;
use std::process::ExitCode;

/// How many hashes are made: enough to be timed.
const HASHES: u32 = 10_000_000;

fn main(rt: HostRuntime) -> ExitCode {
    let all = hashes(HASHES);
    let _ = println!(rt; "{all:08x}");
    ExitCode::from(0)
}

/// The exclusive or of the hashes of so many inputs.
fn hashes(count: u32) -> u32 {
    let mut all = 0;
    for number in 0..count {
        let first = number.wrapping_mul(0x9e3779b1).to_be_bytes();
        let second = number.wrapping_mul(0x85ebca6b).to_be_bytes();
        let third = number.to_be_bytes();
        all ^= toeplitz(&[
            first[0], first[1], first[2], first[3], second[0], second[1], second[2], second[3],
            third[0], third[1], third[2], third[3],
        ]);
    }
    all
}
