//! Numbers, with their edges on both sides.
use super::{BEFORE, NO_NUMBERS, NUMBERS};
use crate::numbers::{Number, read_number, size_of_number, write_number};

#[test]
fn numbers_are_spelled(rt: HostRuntime) {
    for (value, _, bytes) in NUMBERS {
        let size = bytes.len();
        let number = Some(Number { value, size });
        assert_eq!(rt; read_number(bytes, value), number);
        assert_eq!(rt; read_number(bytes, u64::MAX), number);
        if value > 0 {
            assert_eq!(rt; read_number(bytes, value - 1), None);
        }
        assert!(rt; 1 <= size && size <= 10);
        assert_eq!(rt; read_number(&bytes[..size - 1], u64::MAX), None);
        let mut output = [BEFORE; 12];
        let long = size_of_number(value);
        assert_eq!(rt; long, size);
        write_number(value, &mut output);
        assert_eq!(rt; &output[..size], bytes);
        assert_eq!(rt; &output[size..], &[BEFORE; 12][size..]);
        // what follows a number is no part of it
        assert_eq!(rt; read_number(&output, u64::MAX), number);
    }
}

#[test]
fn no_numbers(rt: HostRuntime) {
    assert_eq!(rt; read_number(&[], u64::MAX), None);
    for bytes in NO_NUMBERS {
        assert_eq!(rt; read_number(bytes, u64::MAX), None, "{bytes:?}");
    }
}
