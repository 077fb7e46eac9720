//! Statement packets: the figures of an agent's month.
ghost use Rattle.std.specs.Prelude.{ℕ, ◌≡◌, ◌≤◌, ◌<◌, ◌+◌, ◌+ℤ◌, ◌^◌, IfOk, Ok, length, slice_index, take, drop, ◌++◌};
ghost use Rattle.std.specs.Int.{int_wrap, w64};
ghost use Rattle.packets.specs.Formats.{sized};
ghost use Rattle.packets.specs.Numbers.{overwritten};
ghost use Rattle.packets.specs.StatementPackets.{unsigned_of, signed_of, balance_of, closing_limits, statement_format, statement_figures, statement_bytes, statement_of, statement_read, statement_written, statement_output, StatementSpelledOnce};

use crate::faults::{ByteFault, PacketFault};
use crate::rows::{Limits, check_row, read_row, write_row};

/// Any number of 64 bits.
const WIDE: Limits = Limits {
    least: 0,
    most: u64::MAX,
};

/// The state, the agent and the four lines.
const OPENING: [Limits; 6] = [
    Limits { least: 0, most: 1 },
    Limits { least: 1, most: 64 },
    WIDE,
    WIDE,
    WIDE,
    WIDE,
];

/// An agent's statement as a packet carries it: raw figures, any at all. The state is 0 for an open month and 1 for a closed one.
#[derive(Clone, Copy, PartialEq, Eq, Debug)]
pub struct StatementFigures {
    pub state: u32,
    pub agent: u32,
    pub market: i64,
    pub contract: i64,
    pub overcost: i64,
    pub power: i64,
    pub balance: i64,
    pub injected: u64,
    pub withdrawn: u64,
    pub peak_kwh: u64,
    pub peak_hour: u64,
}

/// A signed number as a number: twice it, or below zero minus twice it, less 1.
fn fold_sign(value: i64) -> u64
    ensures { result ≡ unsigned_of value }
{
    if value < 0 {
        2 * (-(value + 1)) as u64 + 1
    } else {
        2 * value as u64
    }
}

/// The signed number that a number stands for.
fn unfold_sign(number: u64) -> i64
    ensures { result ≡ signed_of number }
{
    let half = (number / 2) as i64;
    if number % 2 == 0 { half } else { -half - 1 }
}

/// The sum of four lines, in 64 bits.
#[tactic(auto, using(std::proofs::lemmas::Int::wraps))]
fn balance(market: i64, contract: i64, overcost: i64, power: i64) -> i64
    ensures { result ≡ int_wrap w64 (market +ℤ contract +ℤ overcost +ℤ power) }
{
    market
        .wrapping_add(contract)
        .wrapping_add(overcost)
        .wrapping_add(power)
}

/// What the numbers after the four lines may be: the first is the balance of the lines.
fn closing(opening: &[u64; 6]) -> [Limits; 5]
    ensures { result ≡ closing_limits opening.now }
{
    let [_, _, market, contract, overcost, power] = *opening;
    let balance = fold_sign(balance(
        unfold_sign(market),
        unfold_sign(contract),
        unfold_sign(overcost),
        unfold_sign(power),
    ));
    let balance = Limits {
        least: balance,
        most: balance,
    };
    [balance, WIDE, WIDE, WIDE, WIDE]
}

impl StatementFigures {
    /// The state, the agent and the four lines, as numbers.
    fn opening(&self) -> [u64; 6]
        ensures { result ≡ take 6 (statement_figures self.now) }
    {
        [
            u64::from(self.state),
            u64::from(self.agent),
            fold_sign(self.market),
            fold_sign(self.contract),
            fold_sign(self.overcost),
            fold_sign(self.power),
        ]
    }

    /// The balance, the energies and the peak, as numbers.
    fn closing(&self) -> [u64; 5]
        ensures { result ≡ drop 6 (statement_figures self.now) }
    {
        [
            fold_sign(self.balance),
            self.injected,
            self.withdrawn,
            self.peak_kwh,
            self.peak_hour,
        ]
    }

    /// The statement of these numbers.
    fn of(opening: &[u64; 6], closing: &[u64; 5]) -> StatementFigures
        requires state { slice_index opening.now 0 ≤ 1 }
        requires agent { slice_index opening.now 1 ≤ 64 }
        ensures { result ≡ statement_of (opening.now ++ closing.now) }
    {
        let [state, agent, market, contract, overcost, power] = *opening;
        let [balance, injected, withdrawn, peak_kwh, peak_hour] = *closing;
        StatementFigures {
            state: state as u32,
            agent: agent as u32,
            market: unfold_sign(market),
            contract: unfold_sign(contract),
            overcost: unfold_sign(overcost),
            power: unfold_sign(power),
            balance: unfold_sign(balance),
            injected,
            withdrawn,
            peak_kwh,
            peak_hour,
        }
    }
}

/// Reads a statement packet.
pub fn read_statement(bytes: &[u8]) -> Result<StatementFigures, ByteFault>
    ensures value { result ≡ statement_read bytes.now }
    ensures once { IfOk result (λ figures. StatementSpelledOnce figures bytes.now) }
{
    let mut opening = [0; 6];
    let middle = read_row(&OPENING, bytes, 0, &mut opening)?;
    let mut closed = [0; 5];
    let end = read_row(&closing(&opening), bytes, middle, &mut closed)?;
    if end < bytes.len() {
        return Err(ByteFault::Malformed(end as u32));
    }
    Ok(StatementFigures::of(&opening, &closed))
}

/// How many bytes a statement packet of these figures has.
fn size_of_statement(figures: &StatementFigures) -> Result<usize, ByteFault>
    ensures { result ≡ sized statement_format (statement_figures figures.now) 0 }
{
    let opening = figures.opening();
    let middle = check_row(&OPENING, &opening, 0)?;
    check_row(&closing(&opening), &figures.closing(), middle)
}

/// Writes a statement packet over the first bytes of an output that has room for it.
fn put_statement(figures: &StatementFigures, output: &mut [u8])
    requires { length (statement_bytes figures.now) ≤ length output.old }
    ensures { output.new ≡ overwritten (statement_bytes figures.now) output.old }
{
    let at = write_row(&figures.opening(), output);
    write_row(&figures.closing(), &mut output[at..]);
}

/// Writes a statement packet over the first bytes of an output, and answers how many those are. A refusal leaves the output as it was.
pub fn write_statement(figures: &StatementFigures, output: &mut [u8]) -> Result<usize, PacketFault>
    ensures value { result ≡ statement_written figures.now output.old }
    ensures output { output.new ≡ statement_output figures.now output.old }
    ensures back { IfOk result (λ size. statement_read (take size output.new) ≡ Ok figures.now) }
{
    let end = size_of_statement(figures)?;
    if output.len() < end {
        return Err(PacketFault::WrongSize);
    }
    put_statement(figures, output);
    Ok(end)
}
