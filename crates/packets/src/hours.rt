//! Hour packets: an hour, its price and its lines.
ghost use Rattle.std.specs.Prelude.{ℕ, ◌≡◌, ◌≤◌, ◌<◌, ◌+◌, ◌*◌, ◌^◌, IfOk, ◌∷◌, [], length, slice_index, take};
ghost use Rattle.packets.specs.Formats.{sized};
ghost use Rattle.packets.specs.Hours.{PacketHour, packet_hour, most_lines};
ghost use Rattle.packets.specs.HourPackets.{LinesRead, hour_format, hour_figures, hour_bytes, hour_in, hour_read, heading_read, places_with, hour_with, hour_written, hour_output, HourReadsBack, HourSpelledOnce};
ghost use Rattle.packets.specs.Numbers.{overwritten};

use crate::faults::{ByteFault, PacketFault};
use crate::rows::{Limits, check_row, read_row, write_row};
use std::marker::Model;

/// How many lines a packet has at most, and how many places for lines a reader is lent at least.
const MOST_LINES: usize = 64;

/// A number below 2 ^ 32.
const NARROW: Limits = Limits {
    least: 0,
    most: 4_294_967_295,
};

/// The hour, the price and the number of lines.
const HEADING: [Limits; 3] = [NARROW, NARROW, Limits { least: 1, most: 64 }];

/// The numbers of a line.
const LINE: [Limits; 7] = [NARROW; 7];

/// A line as a packet carries it: raw figures, any at all.
#[derive(Clone, Copy, PartialEq, Eq, Debug)]
pub struct PacketLine {
    pub class: u32,
    pub cause: u32,
    pub injected: u32,
    pub withdrawn: u32,
    pub gross: u32,
    pub factor: u32,
    pub cost: u32,
}

/// What a packet says before its lines, and how many those are.
#[derive(Clone, Copy, PartialEq, Eq, Debug)]
pub struct HourHeading {
    pub hour: u32,
    pub price: u32,
    pub count: usize,
}

impl PacketLine {
    ghost use Rattle.packets.specs.HourPackets.{line_figures};

    /// A line of no figures.
    pub const NONE: PacketLine = PacketLine {
        class: 0,
        cause: 0,
        injected: 0,
        withdrawn: 0,
        gross: 0,
        factor: 0,
        cost: 0,
    };

    /// The figures of the line, in their order.
    fn figures(&self) -> [u64; 7]
        ensures { result ≡ line_figures self.now }
    {
        [
            u64::from(self.class),
            u64::from(self.cause),
            u64::from(self.injected),
            u64::from(self.withdrawn),
            u64::from(self.gross),
            u64::from(self.factor),
            u64::from(self.cost),
        ]
    }

    /// The line of these figures.
    fn of(figures: &[u64; 7]) -> PacketLine
        requires { (k : ℕ) → slice_index figures.now k < 2 ^ 32 }
        ensures { line_figures result ≡ figures.now }
    {
        let [class, cause, injected, withdrawn, gross, factor, cost] = *figures;
        PacketLine {
            class: class as u32,
            cause: cause as u32,
            injected: injected as u32,
            withdrawn: withdrawn as u32,
            gross: gross as u32,
            factor: factor as u32,
            cost: cost as u32,
        }
    }
}

/// Reads as many lines as there are places for, from this byte on, and answers where they end.
fn read_lines(bytes: &[u8], from: usize, lines: &mut [PacketLine]) -> Result<usize, ByteFault>
    requires near { from + 70 * length lines.old < 2 ^ 32 }
    requires among { from ≤ length bytes.now }
    ensures read { LinesRead bytes.now from lines.new result }
    ensures near { IfOk result (λ end. end ≤ from + 70 * length lines.old) }
    ensures among { IfOk result (λ end. end ≤ length bytes.now) }
{
    let mut at = from;
    for i in 0..lines.len() {
        let mut figures = [0; 7];
        at = read_row(&LINE, bytes, at, &mut figures)?;
        lines[i] = PacketLine::of(&figures);
    }
    Ok(at)
}

/// An hour packet that was read: the hour, the price and the lines that it says.
#[derive(Drop)]
pub struct HourPacket {
    hour: u32,
    price: u32,
    places: [PacketLine; MOST_LINES],
    count: usize,
}

impl Model for HourPacket {
    ghost use Rattle.std.specs.Prelude.{◌≤◌, take};
    ghost use Rattle.packets.specs.Hours.{PacketHour, packet_hour};

    ghost Value = { PacketHour };

    ghost view = { λ p. packet_hour p.hour p.price (take p.count p.places) };

    ghost invariant = { λ p. p.count ≤ 64 };
}

impl HourPacket {
    /// The packet that bytes are.
    pub fn read(bytes: &[u8]) -> Result<HourPacket, ByteFault>
        ensures value { result ≡ hour_in bytes.now }
        ensures once { IfOk result (λ h. HourSpelledOnce h bytes.now) }
    {
        let mut heading = [0; 3];
        let from = read_row(&HEADING, bytes, 0, &mut heading)?;
        let [hour, price, count] = heading;
        let count = count as usize;
        let mut places = [PacketLine::NONE; MOST_LINES];
        let end = read_lines(bytes, from, &mut places[..count])?;
        if end < bytes.len() {
            return Err(ByteFault::Malformed(end as u32));
        }
        Ok(HourPacket {
            hour: hour as u32,
            price: price as u32,
            places,
            count,
        })
    }

    pub fn hour(&self) -> u32
        ensures { result ≡ self.now.hour }
    {
        self.hour
    }

    pub fn price(&self) -> u32
        ensures { result ≡ self.now.price }
    {
        self.price
    }

    pub fn lines(&self) -> &[PacketLine]
        ensures value { result.now ≡ self.now.lines }
        ensures few { length result.now ≤ most_lines }
    {
        &self.places[..self.count]
    }
}

/// Reads an hour packet into 64 places for lines or more. The places past its lines, and on a refusal all of them, stay as they were.
pub fn read_hour(bytes: &[u8], lines: &mut [PacketLine]) -> Result<HourHeading, PacketFault>
    ensures value { result ≡ heading_read (hour_read bytes.now lines.old) }
    ensures lines { lines.new ≡ places_with (hour_read bytes.now lines.old) lines.old }
    ensures few { IfOk result (λ heading. heading.count ≤ most_lines) }
    ensures once { IfOk result (λ h. HourSpelledOnce (hour_with h lines.new) bytes.now) }
{
    if lines.len() < MOST_LINES {
        return Err(PacketFault::WrongSize);
    }
    let packet = HourPacket::read(bytes)?;
    let read = packet.lines();
    lines[..read.len()].copy_from_slice(read);
    Ok(HourHeading {
        hour: packet.hour(),
        price: packet.price(),
        count: read.len(),
    })
}

/// The figures before the lines.
fn heading_figures(hour: u32, price: u32, count: usize) -> [u64; 3]
    ensures { result ≡ hour ∷ price ∷ count ∷ [] }
{
    [u64::from(hour), u64::from(price), count as u64]
}

/// How many bytes an hour packet of these figures has.
fn size_of_hour(hour: u32, price: u32, lines: &[PacketLine]) -> Result<usize, ByteFault>
    ensures { result ≡ sized hour_format (hour_figures (packet_hour hour price lines.now)) 0 }
{
    let mut end = check_row(&HEADING, &heading_figures(hour, price, lines.len()), 0)?;
    for line in lines {
        end = check_row(&LINE, &line.figures(), end)?;
    }
    Ok(end)
}

/// Writes an hour packet over the first bytes of an output that has room for it.
fn put_hour(hour: u32, price: u32, lines: &[PacketLine], output: &mut [u8])
    requires { length (hour_bytes (packet_hour hour price lines.now)) ≤ length output.old }
    ensures { output.new ≡ overwritten (hour_bytes (packet_hour hour price lines.now)) output.old }
{
    let mut at = write_row(&heading_figures(hour, price, lines.len()), output);
    for line in lines {
        at += write_row(&line.figures(), &mut output[at..]);
    }
}

/// Writes an hour packet over the first bytes of an output, and answers how many those are. A refusal leaves the output as it was.
#[tactic(auto, using(crate::proofs::Formats::sized_end))]
pub fn write_hour(
    hour: u32,
    price: u32,
    lines: &[PacketLine],
    output: &mut [u8],
) -> Result<usize, PacketFault>
    ensures value { result ≡ hour_written (packet_hour hour price lines.now) output.old }
    ensures output { output.new ≡ hour_output (packet_hour hour price lines.now) output.old }
    ensures back { let h : PacketHour = packet_hour hour price lines.now in
        IfOk result (λ size. HourReadsBack h (take size output.new)) }
{
    let end = size_of_hour(hour, price, lines)?;
    if output.len() < end {
        return Err(PacketFault::WrongSize);
    }
    put_hour(hour, price, lines, output);
    Ok(end)
}
