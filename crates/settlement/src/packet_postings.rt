//! Postings that come as packets.
ghost use Rattle.std.specs.Prelude.{◌≤◌};
ghost use Rattle.forms.specs.Limits.{most_agents};

use crate::faults::LineFault;
use crate::lines::Line;
use crate::postings::Posting;
use forms::MOST_AGENTS;
use packets::{HourPacket, PacketLine};

/// How many lines a packet has at most: one for each agent of a book.
const MOST_LINES: usize = MOST_AGENTS as usize;

/// A posting that came as a packet: an hour, its price and its lines, raw figures, any at all.
#[derive(Drop)]
pub struct PacketPosting {
    hour: u32,
    price: u32,
    // An array with a count, since the library allocates nothing.
    lines: [Line; MOST_LINES],
    count: usize,
    ghost few: { count ≤ most_agents },
}

/// The line of a posting that a packet's line says.
impl From<PacketLine> for Line {
    ghost use Rattle.std.specs.Prelude.{◌≡◌};
    ghost use Rattle.settlement.specs.Packets.{line_in};

    ghost from_gives = { λ line r. r ≡ line_in line };

    fn from(line: PacketLine) -> Line {
        Line {
            class: line.class,
            cause: line.cause,
            injected: line.injected,
            withdrawn: line.withdrawn,
            gross: line.gross,
            factor: line.factor,
            cost: line.cost,
        }
    }
}

impl PacketPosting {
    ghost use Rattle.std.specs.Prelude.{◌≡◌, map, length};
    ghost use Rattle.settlement.specs.Packets.{line_in, posting_in, of_bytes, posting_with, posting_read};
    ghost use Rattle.settlement.specs.Posting.{posting_of};

    /// Writes to each place the line that a packet's line says.
    fn fill_lines(read: &[PacketLine], lines: &mut [Line])
        requires { length lines.old ≡ length read.now }
        ensures { lines.new ≡ map line_in read.now }
    {
        for (i, line) in read.iter().enumerate() {
            lines[i] = Line::from(*line);
        }
    }

    /// The posting that bytes say, where they are a packet. Its figures are checked by whoever posts it.
    pub fn read(bytes: &[u8]) -> Result<PacketPosting, LineFault>
        ensures { posting_read result ≡ of_bytes (posting_in bytes.now) }
    {
        let packet = HourPacket::read(bytes)?;
        let read = packet.lines();
        let mut lines = [Line::from(PacketLine::NONE); MOST_LINES];
        PacketPosting::fill_lines(read, &mut lines[..read.len()]);
        Ok(PacketPosting {
            hour: packet.hour(),
            price: packet.price(),
            lines,
            count: read.len(),
        })
    }

    /// The posting, with a line for each agent of the book that it is meant for.
    pub fn posting(&self) -> Posting<'_>
        ensures { posting_of result ≡ posting_with self.now }
    {
        Posting {
            hour: self.hour,
            price: self.price,
            lines: &self.lines[..self.count],
        }
    }
}
