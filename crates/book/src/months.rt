//! The open and the closed month: their figures alone. Only an accepted opening makes the one, and
//! only an accepted closing the other.
ghost use Rattle.std.specs.Prelude.{◌≤◌};
ghost use Rattle.calendar.specs.Limits.{most_days};
ghost use Rattle.forms.specs.Limits.{most_agents};

use calendar::{Calendar, HourStamp, MOST_DAYS};
use forms::{Contract, ContractForm, MOST_AGENTS};
use settlement::{Agent, LineFault, Setting, check_hour};

/// The figures that a month is opened with, as the host fills them in: any at all.
#[derive(Clone, Copy, PartialEq, Eq, Debug)]
pub struct MonthFigures {
    pub agents: u32,
    pub days: u32,
    pub calendar: Calendar,
}

impl MonthFigures {
    ghost use Rattle.std.specs.Prelude.{◌≡◌};
    ghost use Rattle.book.specs.Months.{size_known};

    /// Whether its agents and its days are within their limits.
    pub fn is_size_known(&self) -> bool
        ensures { result ≡ size_known self.now }
    {
        1 <= self.agents && self.agents <= MOST_AGENTS && 1 <= self.days && self.days <= MOST_DAYS
    }
}

/// The figures of a month that was opened, open or closed.
#[derive(Clone, Copy)]
pub(crate) struct Extent {
    pub(crate) agents: u32,
    pub(crate) days: u32,
    pub(crate) calendar: Calendar,
    ghost some_agents: { 1 ≤ agents },
    ghost few_agents: { agents ≤ most_agents },
    ghost some_days: { 1 ≤ days },
    ghost few_days: { days ≤ most_days },
    ghost known_weekday: { calendar.weekday ≤ 6 },
}

/// A month that is open. It is moved, and cannot be copied or let go: closing takes it, and
/// `retire` gives its figures back.
pub struct OpenMonth {
    agents: u32,
    days: u32,
    weekday: u32,
    ghost some_agents: { 1 ≤ agents },
    ghost few_agents: { agents ≤ most_agents },
    ghost some_days: { 1 ≤ days },
    ghost few_days: { days ≤ most_days },
    ghost known_weekday: { weekday ≤ 6 },
}

/// A month that is closed. It is moved, and cannot be copied or let go: `retire` gives its figures
/// back.
pub struct ClosedMonth {
    agents: u32,
    days: u32,
    weekday: u32,
    ghost some_agents: { 1 ≤ agents },
    ghost few_agents: { agents ≤ most_agents },
    ghost some_days: { 1 ≤ days },
    ghost few_days: { days ≤ most_days },
    ghost known_weekday: { weekday ≤ 6 },
}

impl Extent {
    ghost use Rattle.std.specs.Prelude.{◌≡◌, IfOk};
    ghost use Rattle.std.specs.Result.{result_err};
    ghost use Rattle.calendar.specs.Limits.{hours_of};
    ghost use Rattle.settlement.specs.PostingFaults.{hour_fault};
    ghost use Rattle.settlement.specs.Setting.{setting_of};
    ghost use Rattle.book.specs.Months.{figures_in, figures_of, setting_with};

    /// The figures that the month was opened with.
    pub(crate) fn figures(&self) -> MonthFigures
        ensures { result ≡ figures_in self.now }
    {
        MonthFigures {
            agents: self.agents,
            days: self.days,
            calendar: self.calendar,
        }
    }

    /// How many hours the month has.
    pub(crate) fn hours(&self) -> u32
        ensures { result ≡ hours_of self.now.days }
    {
        24 * self.days
    }

    /// What its hours are settled with.
    pub(crate) fn setting<'a, F: ContractForm>(
        &self,
        form: &'a F,
        agents: &'a [Agent],
        contracts: &'a [Option<Contract>],
    ) -> Setting<'a, F>
        ensures { let f = figures_in self.now in
            setting_of (F.meaning result.form.now) result
            ≡ setting_with (F.meaning form.now) f agents.now contracts.now }
    {
        let Extent { days, calendar, .. } = *self;
        Setting {
            form,
            calendar,
            days,
            agents,
            contracts,
        }
    }

    /// The stamp of one of the month's hours, or a refusal where the hour lies outside.
    pub(crate) fn check_hour(&self, hour: u32) -> Result<HourStamp, LineFault>
        ensures fault { result_err result ≡ hour_fault (hours_of self.now.days) hour }
        ensures stamp { IfOk result (λ s. (s.hour ≡ hour) × (s.days ≡ self.now.days)) }
    {
        check_hour(self.days, self.calendar, hour)
    }

    /// The month that was opened with these figures: for an accepted opening alone.
    pub(crate) fn opened(self) -> OpenMonth
        ensures { figures_of result ≡ figures_in self }
    {
        let Extent {
            agents,
            days,
            calendar,
        } = self;
        OpenMonth {
            agents,
            days,
            weekday: calendar.weekday,
        }
    }
}

impl OpenMonth {
    ghost use Rattle.std.specs.Prelude.{◌≡◌};
    ghost use Rattle.book.specs.Months.{figures_in, figures_of, closed_figures_of};

    /// What it is looked at as.
    pub(crate) fn extent(&self) -> Extent
        ensures { figures_in result ≡ figures_of self.now }
    {
        let &OpenMonth {
            agents,
            days,
            weekday,
        } = self;
        Extent {
            agents,
            days,
            calendar: Calendar { weekday },
        }
    }

    /// The figures that it was opened with.
    pub fn figures(&self) -> MonthFigures
        ensures { result ≡ figures_of self.now }
    {
        self.extent().figures()
    }

    /// Gives the month up, and its figures back.
    pub fn retire(self) -> MonthFigures
        ensures { result ≡ figures_of self }
    {
        let OpenMonth {
            agents,
            days,
            weekday,
        } = self;
        MonthFigures {
            agents,
            days,
            calendar: Calendar { weekday },
        }
    }

    /// The same month, closed: for an accepted closing alone.
    pub(crate) fn closed(self) -> ClosedMonth
        ensures { closed_figures_of result ≡ figures_of self }
    {
        let extent = self.extent();
        let _ = self.retire();
        ClosedMonth {
            agents: extent.agents,
            days: extent.days,
            weekday: extent.calendar.weekday,
        }
    }
}

impl ClosedMonth {
    ghost use Rattle.std.specs.Prelude.{◌≡◌};
    ghost use Rattle.book.specs.Months.{figures_in, closed_figures_of};

    /// What it is looked at as.
    pub(crate) fn extent(&self) -> Extent
        ensures { figures_in result ≡ closed_figures_of self.now }
    {
        let &ClosedMonth {
            agents,
            days,
            weekday,
        } = self;
        Extent {
            agents,
            days,
            calendar: Calendar { weekday },
        }
    }

    /// The figures that it was opened with.
    pub fn figures(&self) -> MonthFigures
        ensures { result ≡ closed_figures_of self.now }
    {
        self.extent().figures()
    }

    /// Gives the month up, and its figures back.
    pub fn retire(self) -> MonthFigures
        ensures { result ≡ closed_figures_of self }
    {
        let ClosedMonth {
            agents,
            days,
            weekday,
        } = self;
        MonthFigures {
            agents,
            days,
            calendar: Calendar { weekday },
        }
    }
}
