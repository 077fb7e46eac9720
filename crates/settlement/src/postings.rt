//! Postings whose own figures are in order, and what is wrong with those of others.
ghost use Rattle.std.specs.Prelude.{◌≡◌, ◌≤◌, length, IfOk, OnOk};
ghost use Rattle.std.specs.Result.{result_err};
ghost use Rattle.std.proofs.Props.{props};
ghost use Rattle.calendar.specs.Limits.{most_days, hours_of};
ghost use Rattle.forms.specs.Limits.{most_agents};
ghost use Rattle.settlement.specs.Posting.{posting_of};
ghost use Rattle.settlement.specs.PostingFaults.{PostingFits, hour_fault, head_fault};

use crate::agents::Agent;
use crate::faults::LineFault;
use crate::lines::Line;
use crate::settings::Setting;
use calendar::{Calendar, HourStamp};
use forms::{ContractForm, Role};
use valuation::{MOST_ENERGY, MOST_PRICE};

/// A posting as the host lends it: an hour, its price and a line for each agent, raw figures, any at all.
#[derive(Clone, Copy)]
pub struct Posting<'a> {
    pub hour: u32,
    pub price: u32,
    pub lines: &'a [Line],
}

/// A posting with the agents of its book: one line for each agent, and the price, each line and all lines together within their
/// limits.
#[derive(Clone, Copy)]
pub struct CheckedPosting<'a> {
    pub stamp: HourStamp,
    pub posting: Posting<'a>,
    pub agents: &'a [Agent],
    pub ghost stamped: { stamp.hour ≡ posting.hour },
    pub ghost fits: { PostingFits (posting_of posting) } by { Prim.hlevel props },
    pub ghost agents_long: { length agents.now ≡ length posting.lines.now },
}

/// The stamp of an hour of the month, or a refusal where it lies outside.
pub fn check_hour(days: u32, calendar: Calendar, hour: u32) -> Result<HourStamp, LineFault>
    requires { days ≤ most_days }
    ensures fault { result_err result ≡ hour_fault (hours_of days) hour }
    ensures hour { IfOk result (λ s. s.hour ≡ hour) }
    ensures month { IfOk result (λ s. (s.days ≡ days) × (s.calendar ≡ calendar)) }
{
    HourStamp::new(hour, days, calendar).ok_or(LineFault::HourOutside(hour))
}

/// Refuses another number of lines than agents, or a price outside its limit.
fn check_head(agents: &[Agent], posting: &Posting<'_>) -> Result<(), LineFault>
    ensures { result_err result ≡ head_fault (length agents.now) (posting_of posting.now) }
{
    if posting.lines.len() != agents.len() || posting.price > MOST_PRICE {
        return Err(LineFault::OutsideLimit(0));
    }
    Ok(())
}

/// The lines of a posting, one for each agent of a book.
#[derive(Clone, Copy)]
struct PostedLines<'a> {
    lines: &'a [Line],
    agents: &'a [Agent],
    ghost few: { length lines.now ≤ most_agents },
    ghost each_has_one: { length lines.now ≡ length agents.now },
}

impl PostedLines<'_> {
    ghost use Rattle.settlement.specs.PostingFaults.{limit_fault, rule_fault, together_fault};
    ghost use Rattle.settlement.specs.PostingFaults.{injected_together, withdrawn_together};

    /// Refuses a line with a figure outside its limit.
    fn check_limits(&self) -> Result<(), LineFault>
        ensures { result_err result ≡ limit_fault self.now.lines.now }
    {
        let first = self.lines.iter().position(|line| !line.is_within_limits());
        match first {
            Some(i) => Err(LineFault::OutsideLimit(i as u32 + 1)),
            None => Ok(()),
        }
    }

    /// Refuses a line that breaks the rule of its class.
    fn check_rules(&self) -> Result<(), LineFault>
        ensures { result_err result ≡ rule_fault self.now.agents.now self.now.lines.now }
    {
        let count = self.agents.len() as u32;
        let mut each = self.lines.iter().zip(self.agents);
        match each.position(|(line, agent)| !line.keeps_its_class(count, Role::named(agent.role))) {
            Some(i) => Err(LineFault::BreaksRule(i as u32 + 1)),
            None => Ok(()),
        }
    }

    /// All injected and all withdrawn energy.
    fn energy_together(&self) -> (u64, u64)
        ensures injected { result.0 ≡ injected_together self.now.lines.now }
        ensures withdrawn { result.1 ≡ withdrawn_together self.now.lines.now }
    {
        let injected = self.lines.iter().map(|line| u64::from(line.injected)).sum();
        let withdrawn = self
            .lines
            .iter()
            .map(|line| u64::from(line.withdrawn))
            .sum();
        (injected, withdrawn)
    }

    /// Refuses too much injected or withdrawn energy together.
    fn check_together(&self) -> Result<(), LineFault>
        ensures { result_err result ≡ together_fault self.now.lines.now }
    {
        let (injected, withdrawn) = self.energy_together();
        if injected > u64::from(MOST_ENERGY) || withdrawn > u64::from(MOST_ENERGY) {
            return Err(LineFault::TooMuchTogether);
        }
        Ok(())
    }
}

impl<'a, F: ContractForm> Setting<'a, F> {
    ghost use Rattle.settlement.specs.Setting.{setting_of};
    ghost use Rattle.settlement.specs.PostingFaults.{line_fault};

    /// A posting whose own figures are in order, or the first fault of them.
    pub fn check_posting(&self, posting: &Posting<'a>) -> Result<CheckedPosting<'a>, LineFault>
        requires { length self.now.agents.now ≤ most_agents }
        ensures fault { let setting = setting_of (F.meaning self.now.form.now) self.now in
            result_err result ≡ line_fault setting (posting_of posting.now) }
        ensures posting { IfOk result (λ p. posting_of p.posting ≡ posting_of posting.now) }
        ensures agents { IfOk result (λ p. p.agents.now ≡ self.now.agents.now) }
        ensures days { IfOk result (λ p. p.stamp.days ≡ self.now.days) }
        ensures calendar { IfOk result (λ p. p.stamp.calendar ≡ self.now.calendar) }
        ensures long { OnOk result (length posting.now.lines.now ≡ length self.now.agents.now) }
        ensures fits { OnOk result (PostingFits (posting_of posting.now)) }
    {
        let stamp = check_hour(self.days, self.calendar, posting.hour)?;
        check_head(self.agents, posting)?;
        let posted = PostedLines {
            lines: posting.lines,
            agents: self.agents,
        };
        posted.check_limits()?;
        posted.check_rules()?;
        posted.check_together()?;
        Ok(CheckedPosting {
            stamp,
            posting: *posting,
            agents: self.agents,
        })
    }
}
