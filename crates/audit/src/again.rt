//! Only what stands, asked of a book anew: its contracts, then its postings in the order of the hours, then the closing.
ghost use Rattle.std.specs.Prelude.{◌≡◌, ◌≤◌, [], ◌∷◌, length};
ghost use Rattle.calendar.specs.Limits.{most_days, hours_of};
ghost use Rattle.law.specs.Only.{entries_of, posting_at, postings_of, closing_of, only_standing};
ghost use Rattle.runs.specs.Lent.{memory_in, SameLoan};
ghost use Rattle.runs.specs.Reading.{request_of};

use crate::cases::Case;
use forms::{Contract, ContractForm};
use runs::{Answer, Call, Lent, Month, State, answer, is_done};

/// What the first book left at the end: its answers, its contract places, and whether its month is open or closed.
#[derive(Drop)]
pub(crate) struct Left<'a> {
    pub(crate) answers: &'a [Answer],
    pub(crate) places: &'a [Option<Contract>],
    pub(crate) state: State,
}

/// A book that hears calls anew, and whether all of them were done so far.
pub(crate) struct Rerun {
    pub(crate) month: Month,
    pub(crate) done: bool,
}

impl Rerun {
    ghost use Rattle.audit.specs.Again.{running_of, heard_anew};
    ghost use Rattle.audit.specs.Cases.{opening_in, standing_in, FirstAnswers};
    ghost use Rattle.audit.specs.Reading.{case_in};
    ghost use Rattle.audit.specs.Settlings.{FirstLeft};

    /// One call more.
    fn hear<F: ContractForm>(self, form: &F, call: &Call, lent: &mut Lent<'_>) -> Rerun
        ensures lent { SameLoan lent.old lent.new }
        ensures heard { let before = running_of self (memory_in lent.old) in
            running_of result (memory_in lent.new)
            ≡ heard_anew (F.meaning form.now) (request_of call.now ∷ []) before }
    {
        let Rerun { month, done } = self;
        let (month, reply) = answer(month, form, call, lent);
        Rerun {
            month,
            done: done && is_done(&reply),
        }
    }

    /// Enters the contract of a place, if there is one, under a number.
    fn enter_place<F: ContractForm>(
        self,
        form: &F,
        number: u32,
        place: &Option<Contract>,
        lent: &mut Lent<'_>,
    ) -> Rerun
        ensures lent { SameLoan lent.old lent.new }
        ensures heard { let before = running_of self (memory_in lent.old) in
            running_of result (memory_in lent.new)
            ≡ heard_anew (F.meaning form.now) (entries_of number (place.now ∷ [])) before }
    {
        match place {
            Some(contract) => {
                let entry = Call::Enter {
                    number,
                    contract: *contract,
                };
                self.hear(form, &entry, lent)
            }
            None => self,
        }
    }

    /// Enters the contracts of these places, each under its number.
    fn enter_places<F: ContractForm>(
        self,
        form: &F,
        places: &[Option<Contract>],
        lent: &mut Lent<'_>,
    ) -> Rerun
        requires { length places.now ≤ 64 }
        ensures lent { SameLoan lent.old lent.new }
        ensures heard { let before = running_of self (memory_in lent.old) in
            running_of result (memory_in lent.new)
            ≡ heard_anew (F.meaning form.now) (entries_of 1 places.now) before }
    {
        let mut rerun = self;
        for (i, place) in places.iter().enumerate() {
            rerun = rerun.enter_place(form, i as u32 + 1, place, lent);
        }
        rerun
    }

    /// Posts what stands at an hour, if anything does.
    fn post_hour<F: ContractForm>(
        self,
        case: &Case<'_, F>,
        hour: u32,
        answers: &[Answer],
        lent: &mut Lent<'_>,
    ) -> Rerun
        requires { FirstAnswers (case_in (F.meaning case.now.form.now) case.now) answers.now }
        ensures lent { SameLoan lent.old lent.new }
        ensures heard { let before = running_of self (memory_in lent.old) in
            let posted = (standing_in (case_in (F.meaning case.now.form.now) case.now)).posted in
            running_of result (memory_in lent.new)
            ≡ heard_anew (F.meaning case.now.form.now) (posting_at (posted hour)) before }
    {
        match case.standing_call(hour, answers) {
            Some(call) => self.hear(case.form, call, lent),
            None => self,
        }
    }

    /// Posts what stands at each hour, in the order of the hours.
    fn post_hours<F: ContractForm>(
        self,
        case: &Case<'_, F>,
        answers: &[Answer],
        lent: &mut Lent<'_>,
    ) -> Rerun
        requires few { case.now.figures.days ≤ most_days }
        requires first { FirstAnswers (case_in (F.meaning case.now.form.now) case.now) answers.now }
        ensures lent { SameLoan lent.old lent.new }
        ensures heard { let before = running_of self (memory_in lent.old) in
            let posted = (standing_in (case_in (F.meaning case.now.form.now) case.now)).posted in
            let postings = postings_of posted 0 (hours_of case.now.figures.days) in
            running_of result (memory_in lent.new)
            ≡ heard_anew (F.meaning case.now.form.now) postings before }
    {
        let mut rerun = self;
        for hour in 0..24 * case.figures.days {
            rerun = rerun.post_hour(case, hour, answers, lent);
        }
        rerun
    }

    /// Closes the month, if it is to be closed.
    fn close_as<F: ContractForm>(self, form: &F, state: State, lent: &mut Lent<'_>) -> Rerun
        ensures lent { SameLoan lent.old lent.new }
        ensures heard { let before = running_of self (memory_in lent.old) in
            running_of result (memory_in lent.new)
            ≡ heard_anew (F.meaning form.now) (closing_of state) before }
    {
        match state {
            State::Open => self,
            State::Closed => self.hear(form, &Call::Close, lent),
        }
    }

    /// Asks a book anew for all that stands in the first: its contracts, what stands at each hour, and the closing if it is closed.
    pub(crate) fn repeat<F: ContractForm>(
        self,
        case: &Case<'_, F>,
        left: &Left<'_>,
        lent: &mut Lent<'_>,
    ) -> Rerun
        requires few { case.now.figures.days ≤ most_days }
        requires left { FirstLeft (case_in (F.meaning case.now.form.now) case.now) left.now }
        ensures lent { SameLoan lent.old lent.new }
        ensures heard { let case = case_in (F.meaning case.now.form.now) case.now in
            let before = running_of self (memory_in lent.old) in
            running_of result (memory_in lent.new)
            ≡ heard_anew case.form (only_standing (opening_in case) (standing_in case)) before }
    {
        let rerun = self.enter_places(case.form, left.places, lent);
        let rerun = rerun.post_hours(case, left.answers, lent);
        rerun.close_as(case.form, left.state, lent)
    }
}
