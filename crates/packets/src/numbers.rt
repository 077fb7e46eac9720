//! Numbers in groups of seven bits.
ghost use Rattle.std.specs.Prelude.{◌≡◌, ◌≤◌, length};
ghost use Rattle.packets.specs.Numbers.{at_most, number_in, spelled, overwritten};

/// A number that bytes begin with.
#[derive(Clone, Copy, PartialEq, Eq, Debug)]
pub(crate) struct Number {
    pub(crate) value: u64,
    /// How many bytes spell it.
    pub(crate) size: usize,
}

/// The number that bytes begin with, unless it is above the limit.
pub(crate) fn read_number(bytes: &[u8], most: u64) -> Option<Number>
    ensures { result ≡ at_most most (number_in bytes.now) }
{
    let [first, rest @ ..] = bytes else {
        return None;
    };
    let group = u64::from(*first);
    if group < 128 {
        return (group <= most).then_some(Number {
            value: group,
            size: 1,
        });
    }
    if most < 128 {
        return None;
    }
    let high = read_number(rest, most / 128)?;
    if high.value == 0 {
        return None;
    }
    let value = group - 128 + 128 * high.value;
    let size = high.size + 1;
    (value <= most).then_some(Number { value, size })
}

/// How many bytes spell a number.
#[tactic(auto, using(crate::proofs::Spelling::spelled_low, crate::proofs::Spelling::spelled_more, crate::proofs::Spelling::spelled_ten))]
pub(crate) fn size_of_number(value: u64) -> usize
    ensures { result ≡ length (spelled value) }
{
    if value < 128 {
        1
    } else {
        1 + size_of_number(value / 128)
    }
}

/// Writes a number over the first bytes of an output that has room for it.
#[tactic(auto, using(crate::proofs::Spelling::spelled_low, crate::proofs::Spelling::spelled_more))]
pub(crate) fn write_number(value: u64, output: &mut [u8])
    requires { length (spelled value) ≤ length output.old }
    ensures { output.new ≡ overwritten (spelled value) output.old }
{
    if value < 128 {
        output[0] = value as u8;
    } else {
        output[0] = (value % 128 + 128) as u8;
        write_number(value / 128, &mut output[1..]);
    }
}
