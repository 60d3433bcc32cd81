//! Generated edits of generated frames with right checksums. A plain loop sums up afresh what the
//! edits mend, and the edited frame is parsed again.

use super::*;
use packet_headers::Key;
use rand_core::utils::NextWord;
use rand_pcg::Pcg32;

const ROOM: usize = 96;

/// Where the headers of a frame stand, and how long it is.
#[derive(Clone, Copy)]
struct Shape {
    len: usize,
    network: usize,
    is_ipv6: bool,
    transport: usize,
    is_udp: bool,
}

/// Bytes with the frame in front.
type Buffer = [u8; ROOM];

fn buffer(frame: &[u8]) -> Buffer {
    let mut buffer = [0; ROOM];
    for (place, byte) in buffer.iter_mut().zip(frame) {
        *place = *byte;
    }
    buffer
}

fn put_word(rt: &impl Abort, buffer: &mut Buffer, place: usize, word: u16) {
    assert!(rt; place < ROOM - 1);
    let [high, low] = word.to_be_bytes();
    buffer[place] = high;
    buffer[place + 1] = low;
}

/// The sum of the words of these bytes and of what was summed up before.
fn plain_sum(bytes: &[u8], before: u64) -> u64 {
    let mut sum = before;
    for (i, byte) in bytes.iter().enumerate() {
        let weight = if i % 2 == 0 { 256 } else { 1 };
        sum = sum.wrapping_add(*byte as u64 * weight);
    }
    sum
}

/// The checksum to a sum of words.
fn plain_checksum(sum: u64) -> u16 {
    let mut sum = sum;
    for _ in 0..4 {
        sum = sum % 65536 + sum / 65536;
    }
    !((sum % 65536) as u16)
}

/// Writes the IPv4 checksum afresh.
fn sum_ipv4(rt: &impl Abort, buffer: &mut Buffer, shape: Shape) {
    put_word(rt, buffer, shape.network.min(ROOM) + 10, 0);
    assert!(rt; shape.network < shape.transport && shape.transport < ROOM);
    let sum = plain_sum(&buffer[shape.network..shape.transport], 0);
    put_word(rt, buffer, shape.network + 10, plain_checksum(sum));
}

/// Writes the transport checksum afresh.
fn sum_transport(rt: &impl Abort, buffer: &mut Buffer, shape: Shape) {
    let (protocol, at) = if shape.is_udp { (17, 6) } else { (6, 16) };
    let (from, len) = if shape.is_ipv6 { (8, 32) } else { (12, 8) };
    assert!(rt; shape.network < 40 && shape.transport < shape.len && shape.len < ROOM);
    put_word(rt, buffer, shape.transport + at, 0);
    let addresses = shape.network + from;
    let sum = plain_sum(&buffer[addresses..addresses + len], protocol);
    let sum = sum.wrapping_add((shape.len - shape.transport) as u64);
    let sum = plain_checksum(plain_sum(&buffer[shape.transport..shape.len], sum));
    let sum = if shape.is_udp && sum == 0 {
        0xffff
    } else {
        sum
    };
    put_word(rt, buffer, shape.transport + at, sum);
}

fn sum_afresh(rt: &impl Abort, buffer: &mut Buffer, shape: Shape) {
    if !shape.is_ipv6 {
        sum_ipv4(rt, buffer, shape);
    }
    sum_transport(rt, buffer, shape);
}

/// Writes bytes of chance over these.
fn draw(buffer: &mut Buffer, from: usize, to: usize, random: &mut Pcg32) {
    for (i, byte) in buffer.iter_mut().enumerate() {
        if from <= i && i < to {
            let word: u32 = random.next_word();
            *byte = (word % 256) as u8;
        }
    }
}

/// A frame of this shape with addresses, a TTL, ports and a payload of chance, and right checksums.
fn drawn(rt: &impl Abort, frame: &[u8], shape: Shape, random: &mut Pcg32) -> Buffer {
    let mut buffer = buffer(frame);
    assert!(rt; shape.network < ROOM && shape.transport < ROOM);
    let (ttl, from, to) = if shape.is_ipv6 {
        (7, 8, 40)
    } else {
        (8, 12, 20)
    };
    draw(&mut buffer, 0, 12, random);
    draw(
        &mut buffer,
        shape.network + ttl,
        shape.network + ttl + 1,
        random,
    );
    draw(
        &mut buffer,
        shape.network + from,
        shape.network + to,
        random,
    );
    draw(&mut buffer, shape.transport, shape.transport + 4, random);
    draw(&mut buffer, shape.transport + 20, shape.len, random);
    sum_afresh(rt, &mut buffer, shape);
    buffer
}

fn draw_address(random: &mut Pcg32) -> u128 {
    let mut address = 0;
    for _ in 0..4 {
        let word: u32 = random.next_word();
        address = address << 32 | word as u128;
    }
    address
}

fn drawn_edit(random: &mut Pcg32) -> Edit {
    let address = draw_address(random);
    let kind: u32 = random.next_word();
    match kind % 11 {
        0 => Edit::MacSrc((address % (1 << 48)) as u64),
        1 => Edit::MacDst((address % (1 << 48)) as u64),
        2 => Edit::Ipv4Src((address % (1 << 32)) as u32),
        3 => Edit::Ipv4Dst((address % (1 << 32)) as u32),
        4 => Edit::Ipv6Src(address),
        5 => Edit::Ipv6Dst(address),
        6 => Edit::PortSrc((address % 65536) as u16),
        7 => Edit::PortDst((address % 65536) as u16),
        8 => Edit::DecTtl,
        9 => Edit::SetTtl((address % 256) as u8),
        _ => Edit::SetVid((address % 4096) as u16),
    }
}

/// Whether two keys have the same layers at the same places.
fn is_same(key: &Key, other: &Key) -> bool {
    if key.len() != other.len() {
        return false;
    }
    for i in 0..key.len() {
        if key.layer(i) != other.layer(i) || key.offset(i) != other.offset(i) {
            return false;
        }
    }
    true
}

/// An edit of a frame with right checksums leaves them as they are afresh, and the edited key is that
/// of the edited frame.
fn is_edited_right(rt: &impl Abort, before: &Buffer, shape: Shape, edit: Edit) -> Buffer {
    assert!(rt; is_lawful(edit) && shape.len < ROOM);
    let mut after = *before;
    let mut key = parse(&after[..shape.len]);
    apply_frame(&mut after[..shape.len], &key, edit);
    apply_key(&mut key, edit);
    let mut afresh = after;
    sum_afresh(rt, &mut afresh, shape);
    assert!(rt; after == afresh, "{edit:?}");
    let parsed = parse(&after[..shape.len]);
    assert!(rt; is_same(&key, &parsed), "{edit:?}");
    after
}

/// Draws frames of a shape, and edits each several times.
fn edits_of_a_shape(rt: &impl Abort, frame: &[u8], shape: Shape, stream: u64) {
    let mut random = Pcg32::new(2026, stream);
    for _ in 0..80 {
        let mut buffer = drawn(rt, frame, shape, &mut random);
        for _ in 0..8 {
            buffer = is_edited_right(rt, &buffer, shape, drawn_edit(&mut random));
        }
    }
}

#[test]
fn edits_over_ipv4_agree_with_fresh_sums(rt: HostRuntime) {
    let udp = Shape {
        len: 60,
        network: 14,
        is_ipv6: false,
        transport: 34,
        is_udp: true,
    };
    edits_of_a_shape(&rt, &UDP_FRAME, udp, 1);
    edits_of_a_shape(&rt, &UDP_FRAME, Shape { len: 59, ..udp }, 2);
    let tcp = Shape {
        len: 54,
        is_udp: false,
        ..udp
    };
    edits_of_a_shape(&rt, &RSS_CHECK_FRAME, tcp, 3);
}

#[test]
fn edits_behind_tags_agree_with_fresh_sums(rt: HostRuntime) {
    let tagged = Shape {
        len: 64,
        network: 18,
        is_ipv6: false,
        transport: 38,
        is_udp: true,
    };
    edits_of_a_shape(&rt, &TAGGED_UDP_FRAME, tagged, 4);
    let double_tagged = Shape {
        len: 68,
        network: 22,
        transport: 42,
        ..tagged
    };
    edits_of_a_shape(&rt, &DOUBLE_TAGGED_UDP_FRAME, double_tagged, 5);
}

/// The UDP frame with 4 bytes of options in its IPv4 header.
const OPTIONS_FRAME: [u8; 64] = [
    0x02, 0x00, 0x00, 0x00, 0x00, 0x01, 0x02, 0x00, 0x00, 0x00, 0x00, 0x02, 0x08, 0x00, 0x46, 0x00,
    0x00, 0x32, 0x00, 0x00, 0x00, 0x00, 0x40, 0x11, 0x00, 0x00, 0x0a, 0x01, 0x02, 0x03, 0x0a, 0x01,
    0x02, 0x04, 0x94, 0x04, 0x00, 0x00, 0x07, 0xd0, 0x00, 0x35, 0x00, 0x1a, 0x00, 0x00, 0x00, 0x00,
    0x00, 0x00, 0x00, 0x00, 0x00, 0x00, 0x00, 0x00, 0x00, 0x00, 0x00, 0x00, 0x00, 0x00, 0x00, 0x00,
];

/// UDP over IPv6 from 2001:db8::1 port 2000 to 2001:db8::ff port 53, with 5 bytes behind it.
const IPV6_UDP_FRAME: [u8; 67] = [
    0x02, 0x00, 0x00, 0x00, 0x00, 0x01, 0x02, 0x00, 0x00, 0x00, 0x00, 0x02, 0x86, 0xdd, 0x60, 0x00,
    0x00, 0x00, 0x00, 0x0d, 0x11, 0x40, 0x20, 0x01, 0x0d, 0xb8, 0x00, 0x00, 0x00, 0x00, 0x00, 0x00,
    0x00, 0x00, 0x00, 0x00, 0x00, 0x01, 0x20, 0x01, 0x0d, 0xb8, 0x00, 0x00, 0x00, 0x00, 0x00, 0x00,
    0x00, 0x00, 0x00, 0x00, 0x00, 0xff, 0x07, 0xd0, 0x00, 0x35, 0x00, 0x0d, 0x00, 0x00, 0x01, 0x02,
    0x03, 0x04, 0x05,
];

#[test]
fn edits_over_options_and_ipv6_agree_with_fresh_sums(rt: HostRuntime) {
    let options = Shape {
        len: 64,
        network: 14,
        is_ipv6: false,
        transport: 38,
        is_udp: true,
    };
    edits_of_a_shape(&rt, &OPTIONS_FRAME, options, 6);
    let udp = Shape {
        len: 67,
        is_ipv6: true,
        transport: 54,
        ..options
    };
    edits_of_a_shape(&rt, &IPV6_UDP_FRAME, udp, 7);
    let tcp = Shape {
        len: 74,
        is_udp: false,
        ..udp
    };
    edits_of_a_shape(&rt, &IPV6_FRAME, tcp, 8);
}
