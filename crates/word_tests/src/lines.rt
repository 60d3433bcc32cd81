//! Lines, and what each says.
use crate::shown::{each_says, repeated, shown};
use std::test::Fail;

static EACH_LINE_SAYS_ONE_THING: [(&[u8], &str); 30] = [
    (b"", "blank"),
    (b" \t ", "blank"),
    (b"# start", "blank"),
    (b"\t#\x80\xff", "blank"),
    (b"#", "blank"),
    (b"start", "start"),
    (b"\tstart \t", "start"),
    (b"start # over all frames", "start"),
    (b"start #\x07", "start"),
    (b"stop", "stop"),
    (b"quit", "quit"),
    (b" quit\t# the end", "quit"),
    (b"stop#", "bad"),
    (b"stop stop", "bad"),
    (b"quit 0", "bad"),
    (b"start 1", "bad"),
    (b"start forward", "bad"),
    (b"Start", "bad"),
    (b"QUIT", "bad"),
    (b"star", "bad"),
    (b"starts", "bad"),
    (b"start\r", "bad"),
    (b"start\x7f", "bad"),
    (b"start\x0b", "bad"),
    (b"\x80 # start", "bad"),
    (b"start \x00", "bad"),
    (b"\x1f", "bad"),
    (b"start\nstop", "bad"),
    (b"forward", "bad"),
    (b"help", "bad"),
];

#[test]
fn each_line_says_one_thing(rt: HostRuntime) -> Result<(), Fail> {
    each_says(&rt, rt.alloc(), &EACH_LINE_SAYS_ONE_THING)
}

static FORWARD_COUNTS_1_TO_1048576_FRAMES: [(&[u8], &str); 14] = [
    (b"forward 1", "start 1"),
    (b"forward 0x1 # one", "start 1"),
    (b"\tforward\t10\t", "start 10"),
    (b"forward 1048575", "start 1048575"),
    (b"forward 1048576", "start 1048576"),
    (b"forward 0x100000", "start 1048576"),
    (b"forward 1048577", "bad"),
    (b"forward 0x100001", "bad"),
    (b"forward 4294967297", "bad"),
    (b"forward 0", "bad"),
    (b"forward 01", "bad"),
    (b"forward -1", "bad"),
    (b"forward 1 1", "bad"),
    (b"forward all", "bad"),
];

#[test]
fn forward_counts_1_to_1048576_frames(rt: HostRuntime) -> Result<(), Fail> {
    each_says(&rt, rt.alloc(), &FORWARD_COUNTS_1_TO_1048576_FRAMES)
}

static A_CREATE_HAS_ITS_WORDS_IN_ORDER: [(&[u8], &str); 24] = [
    (
        b"flow create 0 ingress pattern end actions queue index 3 / end",
        "create 3",
    ),
    (
        b"flow create 0 ingress pattern eth / end actions queue index 3 / end",
        "create 3, eth",
    ),
    (
        b"  flow create\t0 ingress pattern eth / end actions queue index 3 / end # 3",
        "create 3, eth",
    ),
    (b"flow crate 0", "bad"),
    (b"flow", "bad"),
    (b"flow create", "bad"),
    (b"flow create 0", "bad"),
    (b"flow create 0 ingress", "bad"),
    (
        b"create 0 ingress pattern eth / end actions queue index 3 / end",
        "bad",
    ),
    (
        b"flow create ingress pattern eth / end actions queue index 3 / end",
        "bad",
    ),
    (
        b"flow create 0 pattern eth / end actions queue index 3 / end",
        "create 3 no-ingress, eth",
    ),
    (
        b"flow create 0 ingress ingress pattern eth / end actions queue index 3 / end",
        "create 3, eth",
    ),
    (
        b"flow create 0 egress pattern eth / end actions queue index 3 / end",
        "create 3 no-ingress egress, eth",
    ),
    (
        b"flow create 0 ingress eth / end actions queue index 3 / end",
        "bad",
    ),
    (
        b"flow create 0 ingress pattern eth / end queue index 3 / end",
        "bad",
    ),
    (
        b"flow create 0 ingress pattern eth / end actions queue 3 / end",
        "bad",
    ),
    (
        b"flow create 0 ingress pattern eth / end actions queue index / end",
        "bad",
    ),
    (
        b"flow create 0 ingress pattern eth / end actions queue index 3 end",
        "bad",
    ),
    (
        b"flow create 0 ingress pattern eth / end actions queue index 3 /",
        "bad",
    ),
    (
        b"flow create 0 ingress pattern eth / end actions queue index 3 / end end",
        "bad",
    ),
    (
        b"flow create 0 ingress pattern eth / end actions queue index 3 / queue index 4 / end",
        "create 3 4, eth",
    ),
    (
        b"flow create 0 ingress pattern eth / end actions drop / end",
        "create drop, eth",
    ),
    (
        b"flow create 0 ingress pattern eth / end actions queue index 3 / end#",
        "bad",
    ),
    (
        b"flow create 0 ingress pattern eth / end actions # queue index 3 / end",
        "bad",
    ),
];

#[test]
fn a_create_has_its_words_in_order(rt: HostRuntime) -> Result<(), Fail> {
    each_says(&rt, rt.alloc(), &A_CREATE_HAS_ITS_WORDS_IN_ORDER)
}

static ANOTHER_PORT_IS_TOLD_WHERE_THE_LINE_FITS: [(&[u8], &str); 14] = [
    (
        b"flow create 0 ingress pattern eth / end actions queue index 3 / end",
        "create 3, eth",
    ),
    (
        b"flow create 0x0 ingress pattern eth / end actions queue index 3 / end",
        "create 3, eth",
    ),
    (
        b"flow create 1 ingress pattern eth / end actions queue index 3 / end",
        "port",
    ),
    (
        b"flow create 0x01 ingress pattern eth / end actions queue index 3 / end",
        "port",
    ),
    (
        b"flow create 4294967295 ingress pattern eth / end actions queue index 3 / end",
        "port",
    ),
    (
        b"flow create 4294967296 ingress pattern eth / end actions queue index 3 / end",
        "bad",
    ),
    (
        b"flow create 0x100000000 ingress pattern eth / end actions queue index 3 / end",
        "bad",
    ),
    (
        b"flow create 00 ingress pattern eth / end actions queue index 3 / end",
        "bad",
    ),
    (
        b"flow create 01 ingress pattern eth / end actions queue index 3 / end",
        "bad",
    ),
    (
        b"flow create -1 ingress pattern eth / end actions queue index 3 / end",
        "bad",
    ),
    (
        b"flow create 1 ingress pattern eth / end actions queue index 65536 / end",
        "bad",
    ),
    (
        b"flow create 1 ingress pattern eth end actions queue index 3 / end",
        "bad",
    ),
    (
        b"flow create 1 ingress pattern udp dst is 65536 / end actions queue index 3 / end",
        "bad",
    ),
    (b"flow create 1", "bad"),
];

#[test]
fn another_port_is_told_where_the_line_fits(rt: HostRuntime) -> Result<(), Fail> {
    each_says(&rt, rt.alloc(), &ANOTHER_PORT_IS_TOLD_WHERE_THE_LINE_FITS)
}

static QUEUES: [(&[u8], &str); 22] = [
    (
        b"flow create 0 ingress pattern end actions queue index 0 / end",
        "create 0",
    ),
    (
        b"flow create 0 ingress pattern end actions queue index 00 / end",
        "bad",
    ),
    (
        b"flow create 0 ingress pattern end actions queue index 01 / end",
        "bad",
    ),
    (
        b"flow create 0 ingress pattern end actions queue index 10 / end",
        "create 10",
    ),
    (
        b"flow create 0 ingress pattern end actions queue index 65535 / end",
        "create 65535",
    ),
    (
        b"flow create 0 ingress pattern end actions queue index 65536 / end",
        "bad",
    ),
    (
        b"flow create 0 ingress pattern end actions queue index 4294967296 / end",
        "bad",
    ),
    (
        b"flow create 0 ingress pattern end actions queue index 340282366920938463463374607431768211456 / end",
        "bad",
    ),
    (
        b"flow create 0 ingress pattern end actions queue index 0x0 / end",
        "create 0",
    ),
    (
        b"flow create 0 ingress pattern end actions queue index 0x10 / end",
        "create 16",
    ),
    (
        b"flow create 0 ingress pattern end actions queue index 0xffff / end",
        "create 65535",
    ),
    (
        b"flow create 0 ingress pattern end actions queue index 0xFFFF / end",
        "create 65535",
    ),
    (
        b"flow create 0 ingress pattern end actions queue index 0xaBcD / end",
        "create 43981",
    ),
    (
        b"flow create 0 ingress pattern end actions queue index 0x00000000000000000000000000000000000000001 / end",
        "create 1",
    ),
    (
        b"flow create 0 ingress pattern end actions queue index 0x10000 / end",
        "bad",
    ),
    (
        b"flow create 0 ingress pattern end actions queue index 0x / end",
        "bad",
    ),
    (
        b"flow create 0 ingress pattern end actions queue index 0xg / end",
        "bad",
    ),
    (
        b"flow create 0 ingress pattern end actions queue index 0X1 / end",
        "bad",
    ),
    (
        b"flow create 0 ingress pattern end actions queue index 1a / end",
        "bad",
    ),
    (
        b"flow create 0 ingress pattern end actions queue index a / end",
        "bad",
    ),
    (
        b"flow create 0 ingress pattern end actions queue index +1 / end",
        "bad",
    ),
    (
        b"flow create 0 ingress pattern end actions queue index 1_0 / end",
        "bad",
    ),
];

#[test]
fn a_queue_is_a_number_of_16_bits(rt: HostRuntime) -> Result<(), Fail> {
    each_says(&rt, rt.alloc(), &QUEUES)
}

/// What a row shows, the front, the middle and how often it stands, the back of a line, and what the line says.
type Long = (
    &'static str,
    &'static [u8],
    &'static [u8],
    u32,
    &'static [u8],
    &'static str,
);

static LONG_LINES: [Long; 11] = [
    (
        "a line lists 64 ids",
        b"flow destroy 0",
        b" rule 9",
        64,
        b"",
        "destroy 9;destroy 9;destroy 9;destroy 9;destroy 9;destroy 9;destroy 9;destroy 9;destroy 9;destroy 9;destroy 9;destroy 9;destroy 9;destroy 9;destroy 9;destroy 9;destroy 9;destroy 9;destroy 9;destroy 9;destroy 9;destroy 9;destroy 9;destroy 9;destroy 9;destroy 9;destroy 9;destroy 9;destroy 9;destroy 9;destroy 9;destroy 9;destroy 9;destroy 9;destroy 9;destroy 9;destroy 9;destroy 9;destroy 9;destroy 9;destroy 9;destroy 9;destroy 9;destroy 9;destroy 9;destroy 9;destroy 9;destroy 9;destroy 9;destroy 9;destroy 9;destroy 9;destroy 9;destroy 9;destroy 9;destroy 9;destroy 9;destroy 9;destroy 9;destroy 9;destroy 9;destroy 9;destroy 9;destroy 9;",
    ),
    (
        "a line does not list 65 ids",
        b"flow destroy 0",
        b" rule 9",
        65,
        b"",
        "bad",
    ),
    (
        "a line lists 64 shared actions",
        b"flow indirect_action 0 destroy",
        b" action_id 9",
        64,
        b"",
        "indirect 9 destroy;indirect 9 destroy;indirect 9 destroy;indirect 9 destroy;indirect 9 destroy;indirect 9 destroy;indirect 9 destroy;indirect 9 destroy;indirect 9 destroy;indirect 9 destroy;indirect 9 destroy;indirect 9 destroy;indirect 9 destroy;indirect 9 destroy;indirect 9 destroy;indirect 9 destroy;indirect 9 destroy;indirect 9 destroy;indirect 9 destroy;indirect 9 destroy;indirect 9 destroy;indirect 9 destroy;indirect 9 destroy;indirect 9 destroy;indirect 9 destroy;indirect 9 destroy;indirect 9 destroy;indirect 9 destroy;indirect 9 destroy;indirect 9 destroy;indirect 9 destroy;indirect 9 destroy;indirect 9 destroy;indirect 9 destroy;indirect 9 destroy;indirect 9 destroy;indirect 9 destroy;indirect 9 destroy;indirect 9 destroy;indirect 9 destroy;indirect 9 destroy;indirect 9 destroy;indirect 9 destroy;indirect 9 destroy;indirect 9 destroy;indirect 9 destroy;indirect 9 destroy;indirect 9 destroy;indirect 9 destroy;indirect 9 destroy;indirect 9 destroy;indirect 9 destroy;indirect 9 destroy;indirect 9 destroy;indirect 9 destroy;indirect 9 destroy;indirect 9 destroy;indirect 9 destroy;indirect 9 destroy;indirect 9 destroy;indirect 9 destroy;indirect 9 destroy;indirect 9 destroy;indirect 9 destroy;",
    ),
    (
        "a line does not list 65 shared actions, of whatever port",
        b"flow indirect_action 1 destroy",
        b" action_id 9",
        65,
        b"",
        "bad",
    ),
    (
        "a line does not list 65 rules for a flow queue, of whatever port",
        b"flow queue 1 destroy 0 postpone yes",
        b" rule 9",
        65,
        b"",
        "bad",
    ),
    (
        "more items are counted up to 65535",
        b"flow create 0 ingress pattern ",
        b"void / ",
        65_600,
        b"end actions queue index 0 / end",
        "create 0, void, void, void, void, void, void, void, void, void, void, void, void, void, void, void, void, 65535 more",
    ),
    (
        "a line does not list 65 tables",
        b"flow template_table 0 destroy",
        b" table 9",
        65,
        b"",
        "bad",
    ),
    (
        "a mask list has 16 actions, and void is not one of them",
        b"flow actions_template 0 create ingress template end mask ",
        b"void / mark id 1 / ",
        16,
        b"end",
        "actions create, mask Mark= Mark= Mark= Mark= Mark= Mark= Mark= Mark= Mark= Mark= Mark= Mark= Mark= Mark= Mark= Mark=",
    ),
    (
        "the actions of a mask list behind the 16th are counted",
        b"flow actions_template 0 create ingress template end mask ",
        b"drop / ",
        18,
        b"end",
        "actions create, mask Drop Drop Drop Drop Drop Drop Drop Drop Drop Drop Drop Drop Drop Drop Drop Drop 2 more",
    ),
    (
        "one word may be as long as a script",
        b"",
        b"x",
        1_048_575,
        b"",
        "bad",
    ),
    (
        "one number may be as long as a script",
        b"forward 0x",
        b"0",
        1_048_564,
        b"7",
        "start 7",
    ),
];

#[test]
fn long_lines_say_what_short_ones_do(rt: HostRuntime) -> Result<(), Fail> {
    for (shows, front, middle, times, back, want) in &LONG_LINES {
        let line = repeated(rt.alloc(), front, middle, *times, back)?;
        let found = shown(rt.alloc(), &line)?;
        assert_eq!(rt; found.as_str(), *want, "{shows}");
    }
    Ok(())
}
