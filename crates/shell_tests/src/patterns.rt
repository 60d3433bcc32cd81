//! Which frames patterns match.
use crate::run::{Row, TWO_QUEUES, expect};
use std::alloc::{AllocError, Global};
use test_frames::{
    DOUBLE_TAGGED_UDP_FRAME, IPV6_FRAME, RUNT_FRAME, TAGGED_UDP_FRAME, UDP_FRAME, VXLAN_FRAME,
};
use test_sessions::Frame;

/// The UDP frame without, with one and with two tags.
const TAGGED: [Frame; 3] = [
    (&UDP_FRAME, &[]),
    (&TAGGED_UDP_FRAME, &[]),
    (&DOUBLE_TAGGED_UDP_FRAME, &[]),
];

/// The UDP frame from 10.1.0.0, 10.3.255.255, 10.0.255.255 and 10.4.0.0.
const FROM_SOURCES: [Frame; 4] = [
    (&UDP_FRAME, &[(27, 1), (28, 0), (29, 0)]),
    (&UDP_FRAME, &[(27, 3), (28, 255), (29, 255)]),
    (&UDP_FRAME, &[(27, 0), (28, 255), (29, 255)]),
    (&UDP_FRAME, &[(27, 4), (28, 0), (29, 0)]),
];

/// The IPv6 frame to fe80::, to fe80::ffff:ffff:ffff:ffff, and to fe80:0:0:1::.
const TO_DESTINATIONS: [Frame; 3] = [
    (
        &IPV6_FRAME,
        &[(38, 0xfe), (39, 0x80), (40, 0), (41, 0), (53, 0)],
    ),
    (
        &IPV6_FRAME,
        &[
            (38, 0xfe),
            (39, 0x80),
            (40, 0),
            (41, 0),
            (46, 0xff),
            (47, 0xff),
            (48, 0xff),
            (49, 0xff),
            (50, 0xff),
            (51, 0xff),
            (52, 0xff),
            (53, 0xff),
        ],
    ),
    (
        &IPV6_FRAME,
        &[(38, 0xfe), (39, 0x80), (40, 0), (41, 0), (45, 1), (53, 0)],
    ),
];

/// A pattern, frames, and which of them it matches.
const ROWS: [(&str, &[Frame], &[bool]); 12] = [
    ("eth / ipv4", &TAGGED, &[true, true, true]),
    ("vlan", &TAGGED, &[false, true, true]),
    ("vlan / vlan", &TAGGED, &[false, false, true]),
    ("eth has_vlan is 0 / ipv4", &TAGGED, &[true, false, false]),
    ("vlan vid is 100", &TAGGED, &[false, true, false]),
    (
        "eth / vlan tci is 0x2064 / void / ipv4 / udp dst is 53",
        &TAGGED,
        &[false, true, false],
    ),
    ("eth", &[(&RUNT_FRAME, &[])], &[false]),
    (
        "ipv4 src spec 10.1.2.3 src last 10.3.4.5 src mask 255.255.0.0",
        &FROM_SOURCES,
        &[true, true, false, false],
    ),
    (
        "ipv6 dst prefix 64 dst spec fe80::",
        &TO_DESTINATIONS,
        &[true, true, false],
    ),
    (
        "udp / vxlan vni is 5 / eth / ipv4 src is 10.1.2.3",
        &[(&VXLAN_FRAME, &[]), (&VXLAN_FRAME, &[(42, 0)])],
        &[true, false],
    ),
    (
        "ipv4 ttl spec 64 ttl last 0 ttl mask 255",
        &[(&UDP_FRAME, &[])],
        &[true],
    ),
    (
        "ipv4 ttl spec 63 ttl last 0 ttl mask 255",
        &[(&UDP_FRAME, &[])],
        &[false],
    ),
];

/// The line of a frame that the rule takes or not.
fn frame_line(alloc: Global, number: usize, took: bool) -> Result<String, AllocError> {
    if took {
        return format!(in alloc; "worker0 #{number}: queue 1 mark - hash - path 0\n");
    }
    format!(in alloc; "worker0 #{number}: queue 0 mark - hash - path -\n")
}

/// The transcript of a rule and a phase over frames of which each is taken by the rule or not.
fn transcript_of(alloc: Global, taken: &[bool]) -> Result<String, AllocError> {
    let mut text = String::from_str(
        alloc,
        "shell 1.1: Flow rule #0 created\nshell 2.1: Packet forwarding started\n",
    )?;
    for (place, took) in taken.iter().enumerate() {
        text.push_str(&frame_line(alloc, place + 1, *took)?)?;
    }
    let ones = taken.iter().filter(|took| **took).count();
    let zeros = taken.iter().filter(|took| !**took).count();
    let count = taken.len();
    let totals = format!(in alloc; "received {count} dropped 0 queues {zeros},{ones}\n")?;
    text.push_str("shell 3.1: Packet forwarding stopped: ")?;
    text.push_str(&totals)?;
    text.push_str("total ")?;
    text.push_str(&totals)?;
    Ok(text)
}

/// A rule with a pattern, and a phase.
fn script_of(alloc: Global, pattern: &str) -> Result<String, AllocError> {
    format!(in alloc;
        "flow create 0 ingress pattern {pattern} / end actions queue index 1 / end\nstart\nstop\n"
    )
}

#[test]
fn patterns_match_these_frames_and_no_others(rt: HostRuntime) -> Result<(), AllocError> {
    for (pattern, frames, taken) in &ROWS {
        let script = script_of(rt.alloc(), pattern)?;
        let transcript = transcript_of(rt.alloc(), taken)?;
        let row = Row::done(pattern, &TWO_QUEUES, &script, frames, &transcript);
        expect(&rt, rt.alloc(), &row);
    }
    Ok(())
}
