//! What a posting's own lines give each agent at its hour.
ghost use Rattle.std.specs.Prelude.{◌≡◌, ◌<◌, ◌≤◌, true, length};
ghost use Rattle.std.specs.Result.{result_err};
ghost use Rattle.forms.specs.Limits.{most_agents};
ghost use Rattle.settlement.specs.Faults.{met_if};
ghost use Rattle.settlement.specs.Holdings.{entries_of};
ghost use Rattle.settlement.specs.Hour.{obligated_sum, caused_sum, weight_at, own_of};
ghost use Rattle.settlement.specs.Limits.{most_excess};
ghost use Rattle.settlement.specs.Lines.{line_within};
ghost use Rattle.settlement.specs.Posting.{posting_of};
ghost use Rattle.settlement.specs.PostingFaults.{uncarried};

use crate::carrying::{Carried, PLACES, fill_parts, is_uncarried};
use crate::faults::BookFault;
use crate::holdings::Holding;
use crate::lines::Line;
use crate::postings::CheckedPosting;
use crate::priced::PricedLine;

/// The hour's obligated excess, which is carried over the hour's withdrawn energy.
impl Carried for CheckedPosting<'_> {
    ghost agents = { λ checked. length checked.posting.lines.now };

    ghost weight = { λ checked. weight_at checked.agents.now checked.posting.lines.now };

    ghost points = { λ checked. obligated_sum (posting_of checked.posting) };

    fn agents(&self) -> usize {
        self.posting.lines.len()
    }

    fn weight(&self, index: usize) -> u32 {
        self.agents[index].weight(self.posting.lines[index].withdrawn)
    }

    fn points(&self) -> u64 {
        self.obligated_excess()
    }
}

impl CheckedPosting<'_> {
    /// A line at the hour's price.
    fn priced<'b>(&self, line: &'b Line) -> PricedLine<'b>
        requires { line_within line.now ≡ true }
        ensures price { result.price ≡ self.now.posting.price }
        ensures line { result.line.now ≡ line.now }
    {
        PricedLine {
            price: self.posting.price,
            line,
        }
    }

    /// The hour's obligated excess, all lines together.
    fn obligated_excess(&self) -> u64
        ensures value { result ≡ obligated_sum (posting_of self.now.posting) }
        ensures bound { result ≤ most_excess }
    {
        self.posting
            .lines
            .iter()
            .map(|line| self.priced(line).obligated())
            .sum()
    }

    /// The forced excess that the agent at place `index` caused.
    fn caused_excess(&self, index: usize) -> u64
        requires index_small { index < most_agents }
        ensures value { result ≡ caused_sum (posting_of self.now.posting) index }
        ensures bound { result ≤ most_excess }
    {
        self.posting
            .lines
            .iter()
            .map(|line| self.priced(line).caused_by(index))
            .sum()
    }

    /// Refuses obligated excess that no withdrawn energy carries.
    pub fn check_carriers(&self) -> Result<(), BookFault>
        ensures { let lacks = uncarried self.now.agents.now (posting_of self.now.posting) in
            result_err result ≡ met_if lacks BookFault.NoCarrier }
    {
        if is_uncarried(self) {
            return Err(BookFault::NoCarrier);
        }
        Ok(())
    }

    /// Writes the entry of each agent, contracts aside, to its place; the parts are scratch memory.
    fn fill_entries_by(&self, parts: &mut [u64], fresh: &mut [Holding])
        requires parts_long { length parts.old ≡ length self.now.posting.lines.now }
        requires fresh_long { length fresh.old ≡ length self.now.posting.lines.now }
        ensures { let own = own_of self.now.agents.now (posting_of self.now.posting) in
            fresh.new ≡ entries_of own (length self.now.posting.lines.now) }
    {
        fill_parts(self, parts);
        for (i, line) in self.posting.lines.iter().enumerate() {
            fresh[i] = self.priced(line).entry(self.caused_excess(i), parts[i]);
        }
    }

    /// Writes the entry of each agent, contracts aside, to its place.
    pub fn fill_entries(&self, fresh: &mut [Holding])
        requires { length fresh.old ≡ length self.now.posting.lines.now }
        ensures { let own = own_of self.now.agents.now (posting_of self.now.posting) in
            fresh.new ≡ entries_of own (length self.now.posting.lines.now) }
    {
        let mut parts = [0u64; PLACES];
        self.fill_entries_by(&mut parts[..self.posting.lines.len()], fresh);
    }
}
