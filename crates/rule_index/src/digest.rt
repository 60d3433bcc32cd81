//! The digest of a frame by the lines of a shape: a walk over the frame's own headers.
ghost use Rattle.std.specs.Prelude.{◌≡◌, length, Some};
ghost use Rattle.pattern_items.specs.Shape.{masked_by};
ghost use Rattle.rule_index.specs.Digest.{mix, mix_fields, mix_all, digest_by, step, ended};

use crate::line::ShapeLine;
use packet_headers::Key;
use pattern_items::{Fields, Header, Walker, is_of_kind, passes, walk_key};

const FACTOR: u128 = 0x9E37_79B9_7F4A_7C15_F39C_C060_5CED_C835;

/// How many lines have met their layer, and the digest of what they met.
#[derive(Clone, Copy)]
pub struct DigestWay {
    pub met: usize,
    pub digest: u128,
}

/// The lines by which a digest is made, and whether it is exact.
#[derive(Clone, Copy)]
pub(crate) struct Digester<'a> {
    pub(crate) lines: &'a [ShapeLine],
    pub(crate) exact: bool,
}

/// One more number in a digest.
#[inline(always)]
#[tactic(auto, unfolding(crate::specs::Digest::mix))]
fn mix(exact: bool, digest: u128, mask: u128, number: u128) -> u128
    ensures { result ≡ mix exact digest mask number }
{
    if mask == 0 {
        return digest;
    }
    if exact {
        return digest
            .wrapping_mul(mask)
            .wrapping_add(digest)
            .wrapping_add(number);
    }
    digest.wrapping_mul(FACTOR).wrapping_add(number)
}

/// The numbers of one item.
#[inline(always)]
fn mix_fields(exact: bool, masks: &Fields, numbers: &Fields, digest: u128) -> u128
    ensures { result ≡ mix_fields exact masks.now numbers.now digest }
{
    let digest = mix(exact, digest, masks.v[0], numbers.v[0]);
    let digest = mix(exact, digest, masks.v[1], numbers.v[1]);
    let digest = mix(exact, digest, masks.v[2], numbers.v[2]);
    let digest = mix(exact, digest, masks.v[3], numbers.v[3]);
    let digest = mix(exact, digest, masks.v[4], numbers.v[4]);
    mix(exact, digest, masks.v[5], numbers.v[5])
}

/// The numbers of all items.
#[tactic(auto, using(crate::proofs::Lists::mix_more))]
pub(crate) fn mix_all(exact: bool, masks: &[Fields], numbers: &[Fields]) -> u128
    requires { length masks.now ≡ length numbers.now }
    ensures { result ≡ mix_all exact masks.now numbers.now 0 }
{
    let mut digest = 0;
    for place in 0..masks.len() {
        digest = mix_fields(exact, &masks[place], &numbers[place], digest);
    }
    digest
}

/// A header's numbers, each by its mask.
#[inline(always)]
fn masked<H: Header>(masks: &Fields, header: &H) -> Fields
    ensures { result ≡ masked_by masks.now (H.layer header.now) }
{
    let m = &masks.v;
    Fields {
        v: [
            header.field(0) & m[0],
            header.field(1) & m[1],
            header.field(2) & m[2],
            header.field(3) & m[3],
            header.field(4) & m[4],
            header.field(5) & m[5],
        ],
    }
}

/// The numbers of a header, each by its mask.
#[inline(always)]
fn mix_header<H: Header>(exact: bool, masks: &Fields, header: &H, digest: u128) -> u128
    ensures { result ≡ mix_fields exact masks.now (masked_by masks.now (H.layer header.now)) digest }
{
    let numbers = masked(masks, header);
    mix_fields(exact, masks, &numbers, digest)
}

/// The way behind a header, where it goes on.
#[inline(always)]
fn step<H: Header>(by: Digester<'_>, way: DigestWay, header: &H) -> Option<DigestWay>
    ensures { result ≡ step by.entry.exact by.entry.lines.now way (H.layer header.now) }
{
    let Some(line) = by.lines.get(way.met) else {
        return Some(way);
    };
    if is_of_kind(line.kind, header) {
        return Some(DigestWay {
            met: way.met + 1,
            digest: mix_header(by.exact, &line.masks, header, way.digest),
        });
    }
    if passes(way.met, header.kind()) {
        return Some(way);
    }
    None
}

impl Walker for Digester<'_> {
    type Way = DigestWay;

    ghost use Rattle.std.specs.Prelude.{nat_eq};

    ghost step = { λ by. step by.exact by.lines.now };

    ghost is_done = { λ by way. nat_eq way.met (length by.lines.now) };

    ghost use Rattle.rule_index.specs.DigestEnd.{all_are_met};

    ghost stays = { λ by. all_are_met by.exact by.lines.now };

    #[inline(always)]
    fn step<H: Header>(&self, way: DigestWay, header: &H) -> Option<DigestWay> {
        step(*self, way, header)
    }

    #[inline(always)]
    fn is_done(&self, way: DigestWay) -> bool {
        way.met == self.lines.len()
    }
}

/// The digest behind a walk.
fn ended(by: Digester<'_>, walked: Option<DigestWay>) -> Option<u128>
    ensures { result ≡ ended by.entry.lines.now walked }
{
    let Some(way) = walked else {
        return None;
    };
    if way.met == by.lines.len() {
        return Some(way.digest);
    }
    None
}

/// The digest of a frame with these headers, where the lines meet them.
#[tactic(auto, using(crate::proofs::Digests::walk_numbers))]
pub(crate) fn digest_by(by: Digester<'_>, key: &Key) -> Option<u128>
    ensures { result ≡ digest_by by.entry.exact by.entry.lines.now key.now }
{
    let start = DigestWay { met: 0, digest: 0 };
    ended(by, walk_key(&by, start, key))
}
