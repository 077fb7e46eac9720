//! Packets byte by byte.

mod hour_faults;
mod hour_packets;
mod number_bytes;
mod statement_faults;
mod statement_packets;

use std::alloc::{AllocError, Global};

/// What stands in an output before it is written.
const BEFORE: u8 = 0xEE;

/// Numbers at edges, the signed number that each stands for, and the bytes that spell it.
const NUMBERS: [(u64, i64, &[u8]); 9] = [
    (0, 0, &[0x00]),
    (127, -64, &[0x7F]),
    (128, 64, &[0x80, 0x01]),
    (300, 150, &[0xAC, 0x02]),
    (16_383, -8192, &[0xFF, 0x7F]),
    (16_384, 8192, &[0x80, 0x80, 0x01]),
    (
        4_294_967_295,
        -2_147_483_648,
        &[0xFF, 0xFF, 0xFF, 0xFF, 0x0F],
    ),
    (
        4_294_967_296,
        2_147_483_648,
        &[0x80, 0x80, 0x80, 0x80, 0x10],
    ),
    (
        u64::MAX,
        i64::MIN,
        &[0xFF, 0xFF, 0xFF, 0xFF, 0xFF, 0xFF, 0xFF, 0xFF, 0xFF, 0x01],
    ),
];

/// Bytes that begin no number of 64 bits, whatever follows.
const NO_NUMBERS: [&[u8]; 11] = [
    // one group too many: 0, 1, 127, 128, 300, 2 ^ 32 - 1, 2 ^ 32, 2 ^ 64 - 1, and 0 in eleven groups
    &[0x80, 0x00],
    &[0x81, 0x80, 0x00],
    &[0xFF, 0x00],
    &[0x80, 0x81, 0x00],
    &[0xAC, 0x82, 0x00],
    &[0xFF, 0xFF, 0xFF, 0xFF, 0x8F, 0x00],
    &[0x80, 0x80, 0x80, 0x80, 0x90, 0x00],
    &[
        0xFF, 0xFF, 0xFF, 0xFF, 0xFF, 0xFF, 0xFF, 0xFF, 0xFF, 0x81, 0x00,
    ],
    &[
        0x80, 0x80, 0x80, 0x80, 0x80, 0x80, 0x80, 0x80, 0x80, 0x80, 0x00,
    ],
    // 2 ^ 64 and 2 ^ 70
    &[0x80, 0x80, 0x80, 0x80, 0x80, 0x80, 0x80, 0x80, 0x80, 0x02],
    &[
        0x80, 0x80, 0x80, 0x80, 0x80, 0x80, 0x80, 0x80, 0x80, 0x80, 0x01,
    ],
];

/// A packet each of whose numbers is a byte, with other bytes in place of one of them.
fn with_number(
    heap: Global,
    packet: &[u8],
    place: usize,
    number: &[u8],
) -> Result<Vec<u8>, AllocError> {
    let mut bytes = Vec::new(heap);
    for (i, byte) in packet.iter().enumerate() {
        if i == place {
            bytes.extend_from_slice(number)?;
        } else {
            bytes.push(*byte)?;
        }
    }
    Ok(bytes)
}
