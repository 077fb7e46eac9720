//! What is audited, what stands at each hour as its answers tell it, and the residue of the standing hours, worked from their postings alone.
ghost use Rattle.std.specs.Prelude.{◌≡◌, ◌*◌, ◌<◌, ◌≤◌, IfOk, unsigned_abs};
ghost use Rattle.std.specs.Option.{option_copied};
ghost use Rattle.calendar.specs.Limits.{most_days, hours_of};
ghost use Rattle.valuation.specs.Limits.{most_amount};
ghost use Rattle.forms.specs.Limits.{most_agents};
ghost use Rattle.settlement.specs.Hour.{residue_of};
ghost use Rattle.settlement.specs.Packets.{posting_in};
ghost use Rattle.settlement.specs.Posting.{posting_of};
ghost use Rattle.settlement.specs.PostingFaults.{PostingFits};
ghost use Rattle.law.specs.Standing.{Standing};
ghost use Rattle.law.specs.Turns.{changed};
ghost use Rattle.law.specs.Worked.{residue_from, residue_after};
ghost use Rattle.runs.specs.Reading.{request_in, request_of};
ghost use Rattle.audit.specs.Cases.{posts_at, Posts};

use book::{Agent, MonthFigures, Posting};
use forms::ContractForm;
use runs::{Answer, Call, is_accepted};
use settlement::PacketPosting;
use valuation::amount;

/// What is audited: the figures that each book is opened with, the form, the agents, and the calls.
#[derive(Drop)]
pub(crate) struct Case<'a, F> {
    pub(crate) figures: MonthFigures,
    pub(crate) form: &'a F,
    pub(crate) agents: &'a [Agent],
    pub(crate) calls: &'a [Call],
}

/// Whether bytes are a packet that says this hour.
fn does_say(bytes: &[u8], hour: u32) -> bool
    ensures { result ≡ posts_at hour (request_in (posting_in bytes.now)) }
{
    match PacketPosting::read(bytes) {
        Ok(packet) => packet.posting().hour == hour,
        Err(_) => false,
    }
}

/// Which call's posting an accepted call leaves at an hour, where it was `before`.
fn posting_left<'c>(call: &'c Call, hour: u32, before: Option<&'c Call>) -> Option<&'c Call>
    ensures { (s : Standing) → Posts hour (option_copied before.entry) s
        → Posts hour (option_copied result) (changed (request_of call.now) s) }
{
    match call {
        Call::Post { hour: at, .. } if *at == hour => Some(call),
        Call::Packet(bytes) if does_say(bytes, hour) => Some(call),
        Call::Withdraw(at) if *at == hour => None,
        _ => before,
    }
}

/// The residue of a posting: what all withdrawn energy is worth less what all injected energy is.
fn posting_residue(posting: &Posting<'_>) -> i64
    requires { PostingFits (posting_of posting.now) }
    ensures value { result ≡ residue_of (posting_of posting.now) }
    ensures bound { unsigned_abs result ≤ most_agents * most_amount }
{
    let mut withdrawn = 0;
    let mut injected = 0;
    for line in posting.lines {
        withdrawn += amount(line.withdrawn, line.factor, posting.price);
        injected += amount(line.injected, line.factor, posting.price);
    }
    withdrawn as i64 - injected as i64
}

/// The residue of the posting that bytes say.
fn packet_residue(bytes: &[u8]) -> i64
    requires { IfOk (posting_in bytes.now) PostingFits }
    ensures value { IfOk (posting_in bytes.now) (λ p. result ≡ residue_of p) }
    ensures bound { unsigned_abs result ≤ most_agents * most_amount }
{
    match PacketPosting::read(bytes) {
        Ok(packet) => posting_residue(&packet.posting()),
        Err(_) => 0,
    }
}

impl<F: ContractForm> Case<'_, F> {
    ghost use Rattle.audit.specs.Cases.{opening_in, standing_in, FirstAnswers};
    ghost use Rattle.audit.specs.Reading.{case_in};

    /// Which call's posting stands at an hour: the last that was accepted, or none where that was withdrawn.
    pub(crate) fn standing_call(&self, hour: u32, answers: &[Answer]) -> Option<&Call>
        requires { FirstAnswers (case_in (F.meaning self.now.form.now) self.now) answers.now }
        ensures { let case = case_in (F.meaning self.now.form.now) self.now in
            Posts hour (option_copied result) (standing_in case) }
    {
        let mut standing = None;
        for (call, answer) in self.calls.iter().zip(answers) {
            if is_accepted(answer) {
                standing = posting_left(call, hour, standing);
            }
        }
        standing
    }

    /// The residue of an hour, from the posting that stands there.
    fn hour_residue(&self, hour: u32, answers: &[Answer]) -> i64
        requires within { hour < hours_of self.now.figures.days }
        requires first { FirstAnswers (case_in (F.meaning self.now.form.now) self.now) answers.now }
        ensures value { let case = case_in (F.meaning self.now.form.now) self.now in
            result ≡ residue_from ((standing_in case).posted hour) }
        ensures bound { unsigned_abs result ≤ most_agents * most_amount }
    {
        match self.standing_call(hour, answers) {
            Some(Call::Post { hour, price, lines }) => posting_residue(&Posting {
                hour: *hour,
                price: *price,
                lines,
            }),
            Some(Call::Packet(bytes)) => packet_residue(bytes),
            _ => 0,
        }
    }

    /// The residue of the standing hours.
    pub(crate) fn residue(&self, answers: &[Answer]) -> i64
        requires few { self.now.figures.days ≤ most_days }
        requires first { FirstAnswers (case_in (F.meaning self.now.form.now) self.now) answers.now }
        ensures { let case = case_in (F.meaning self.now.form.now) self.now in
            result ≡ residue_after (opening_in case) (standing_in case) }
    {
        let mut sum = 0;
        for hour in 0..24 * self.figures.days {
            sum += self.hour_residue(hour, answers);
        }
        sum
    }
}
