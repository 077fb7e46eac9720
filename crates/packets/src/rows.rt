//! Rows of numbers, each within its limits.
ghost use Rattle.std.specs.Prelude.{ℕ, ◌≡◌, ◌≤◌, ◌<◌, ◌+◌, ◌*◌, ◌^◌, IfOk, OnOk, length, slice_index};
ghost use Rattle.packets.specs.Formats.{figure_at, row, RowRead, closed, AtMost, sized, spelled_all, within};
ghost use Rattle.packets.specs.Numbers.{overwritten};

use crate::faults::ByteFault;
use crate::numbers::{Number, read_number, size_of_number, write_number};

/// What a number may be.
#[derive(Clone, Copy, PartialEq, Eq, Debug)]
pub(crate) struct Limits {
    pub(crate) least: u64,
    pub(crate) most: u64,
}

impl Limits {
    /// Whether a number is within the limits.
    fn has(self, value: u64) -> bool
        ensures { result ≡ within self value }
    {
        self.least <= value && value <= self.most
    }
}

/// The number that starts at this byte, within its limits.
fn read_figure(limits: Limits, bytes: &[u8], at: usize) -> Result<Number, ByteFault>
    requires near { at < 2 ^ 32 }
    requires among { at ≤ length bytes.now }
    ensures value { result ≡ figure_at limits bytes.now at }
    ensures among { IfOk result (λ n. at + n.size ≤ length bytes.now) }
    ensures near { IfOk result (λ n. n.size ≤ 10) }
    ensures within { IfOk result (λ n. n.value ≤ limits.most) }
{
    let fault = ByteFault::Malformed(at as u32);
    let Some(number) = read_number(&bytes[at..], limits.most) else {
        return Err(fault);
    };
    if number.value < limits.least {
        return Err(fault);
    }
    Ok(number)
}

/// Reads a row of numbers that starts at this byte, and answers where it ends.
pub(crate) fn read_row(
    limits: &[Limits],
    bytes: &[u8],
    from: usize,
    figures: &mut [u64],
) -> Result<usize, ByteFault>
    requires long { length figures.old ≡ length limits.now }
    requires near { from + 10 * length limits.now < 2 ^ 32 }
    requires among { from ≤ length bytes.now }
    ensures read { RowRead limits.now bytes.now from figures.new result }
    ensures near { IfOk result (λ end. end ≤ from + 10 * length limits.now) }
    ensures among { IfOk result (λ end. end ≤ length bytes.now) }
    ensures within { OnOk result (AtMost limits.now figures.new) }
{
    let mut at = from;
    for i in 0..limits.len() {
        let number = read_figure(limits[i], bytes, at)?;
        figures[i] = number.value;
        at += number.size;
    }
    Ok(at)
}

/// Where a row of numbers that starts at this byte would end, if each is within its limits.
#[tactic(auto, using(crate::proofs::Spelling::spelled_ten))]
pub(crate) fn check_row(limits: &[Limits], figures: &[u64], from: usize) -> Result<usize, ByteFault>
    requires long { length figures.now ≡ length limits.now }
    requires near { from + 10 * length limits.now < 2 ^ 32 }
    ensures value { result ≡ sized (row limits.now closed) figures.now from }
    ensures near { IfOk result (λ end. end ≤ from + 10 * length limits.now) }
{
    let mut at = from;
    for i in 0..limits.len() {
        if !limits[i].has(figures[i]) {
            return Err(ByteFault::Malformed(at as u32));
        }
        at += size_of_number(figures[i]);
    }
    Ok(at)
}

/// Writes a row of numbers over the first bytes of an output that has room for them, and answers how many those are.
pub(crate) fn write_row(figures: &[u64], output: &mut [u8]) -> usize
    requires { length (spelled_all figures.now) ≤ length output.old }
    ensures value { result ≡ length (spelled_all figures.now) }
    ensures output { output.new ≡ overwritten (spelled_all figures.now) output.old }
{
    let mut at = 0;
    for figure in figures {
        write_number(*figure, &mut output[at..]);
        at += size_of_number(*figure);
    }
    at
}
