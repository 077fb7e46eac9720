//! What contracts put on their parties' contract lines, and so all that an hour gives.
ghost use Rattle.std.specs.Prelude.{◌≡◌, ℕ, ◌+◌, ◌≤◌, true, length, pos, if◌then◌else◌, nat_eq};
ghost use Rattle.std.specs.List.{list_all};
ghost use Rattle.forms.specs.Meaning.{Balanced};
ghost use Rattle.forms.specs.Parties.{legs_by_party};
ghost use Rattle.settlement.specs.ContractFaults.{PartiesKnown, contract_fits, place_fits, covers};
ghost use Rattle.settlement.specs.Holdings.{with_points, EachGets, entries_of};
ghost use Rattle.settlement.specs.Legs.{distributors_withdrawn, facts_of, legs_of, is_number, given_to, given_in, contract_line, hour_of};
ghost use Rattle.settlement.specs.Posting.{posting_of};
ghost use Rattle.settlement.specs.PostingFaults.{PostingFits};
ghost use Rattle.settlement.specs.Setting.{setting_of};
ghost use Rattle.std.proofs.Props.{props};

use crate::admissions::parties;
use crate::holdings::{Holding, points_alone};
use crate::postings::{CheckedPosting, Posting};
use crate::settings::Setting;
use calendar::HourStamp;
use forms::{Contract, ContractForm, ContractHour, Facts, Legs, settle_hour};
use tally::{MoneyLine, Tally};

/// Whether a contract covers an hour.
pub fn does_cover(contract: Contract, hour: u32) -> bool
    ensures { result ≡ covers contract hour }
{
    contract.first <= hour && hour <= contract.last
}

/// Puts points on the contract line of an entry.
fn put_points(entry: &mut Holding, points: i64)
    ensures { entry.new ≡ with_points points entry.old }
{
    *entry = entry.join(points_alone(MoneyLine::Contract, points));
}

/// Puts points on the contract line of the agent with this number.
fn put_leg(number: u32, points: i64, fresh: &mut [Holding])
    requires some { 1 ≤ number }
    requires known { number ≤ length fresh.old }
    ensures { EachGets (λ i. if nat_eq number (i + 1) then points else pos 0) fresh.old fresh.new }
{
    put_points(&mut fresh[number as usize - 1], points);
}

/// The legs of a contract, each with its party's number.
fn legs_by_party(contract: Contract, legs: Legs) -> [(u32, i64); 2]
    ensures { result ≡ legs_by_party contract legs }
{
    [(contract.seller, legs.seller), (contract.buyer, legs.buyer)]
}

/// Puts the legs of a contract on the contract lines of its parties.
fn put_legs(contract: Contract, legs: Legs, fresh: &mut [Holding])
    requires known { PartiesKnown (length fresh.old) contract }
    requires balanced { Balanced legs }
    ensures { let given = λ (i : ℕ). given_to (is_number i) (legs_by_party contract legs) in
        EachGets given fresh.old fresh.new }
{
    for (number, points) in &legs_by_party(contract, legs) {
        put_leg(*number, *points, fresh);
    }
}

/// An hour with what it is settled with, its posting, and the energy that all distributors withdrew.
#[derive(Drop)]
struct HourSetting<'a, F> {
    setting: &'a Setting<'a, F>,
    stamp: HourStamp,
    posting: Posting<'a>,
    distributors: u32,
    ghost stamped: { stamp.hour ≡ posting.hour },
    ghost same_calendar: { stamp.calendar ≡ setting.now.calendar } by { Prim.hlevel props },
    ghost fits: { PostingFits (posting_of posting) } by { Prim.hlevel props },
    ghost agents_long: { length setting.now.agents.now ≡ length posting.lines.now },
    ghost distributed: { distributors ≡
        distributors_withdrawn setting.now.agents.now posting.lines.now },
}

impl<F: ContractForm> HourSetting<'_, F> {
    /// What a contract is settled by in the hour.
    fn facts(&self, contract: Contract) -> Facts
        requires { PartiesKnown (length self.now.posting.lines.now) contract }
        ensures { let s = self.now.setting.now in
            let posting = posting_of self.now.posting in
            result ≡ facts_of (setting_of (F.meaning s.form.now) s) posting contract }
    {
        let seller = self.posting.lines[contract.seller as usize - 1];
        let buyer = self.posting.lines[contract.buyer as usize - 1];
        Facts {
            band: self.stamp.band(),
            price: self.posting.price,
            seller_factor: seller.factor,
            buyer_factor: buyer.factor,
            injected: seller.injected,
            withdrawn: buyer.withdrawn,
            distributors_withdrawn: self.distributors,
        }
    }

    /// What a contract gives its parties in the hour, where it covers it.
    fn legs_of(&self, contract: Contract) -> Legs
        requires { let s = self.now.setting.now in
            contract_fits (setting_of (F.meaning s.form.now) s) contract ≡ true }
        ensures value { let s = self.now.setting.now in
            let posting = posting_of self.now.posting in
            result ≡ legs_of (setting_of (F.meaning s.form.now) s) posting contract }
        ensures balanced { Balanced result }
    {
        let parties = parties(self.setting.agents, contract);
        let hour = ContractHour::new(contract, parties, self.facts(contract));
        settle_hour(self.setting.form, hour)
    }

    /// Puts what a contract place comes to in the hour on the contract lines: the legs of a contract that covers it.
    fn put_place(&self, place: &Option<Contract>, fresh: &mut [Holding])
        requires fresh_long { length fresh.old ≡ length self.now.posting.lines.now }
        requires fits { let s = self.now.setting.now in
            place_fits (setting_of (F.meaning s.form.now) s) place.now ≡ true }
        ensures { let s = self.now.setting.now in
            let given = λ (i : ℕ). given_in (is_number i) (setting_of (F.meaning s.form.now) s) in
            let points = λ (i : ℕ). given i (posting_of self.now.posting) place.now in
            EachGets points fresh.old fresh.new }
    {
        if let Some(contract) = place {
            if does_cover(*contract, self.posting.hour) {
                put_legs(*contract, self.legs_of(*contract), fresh);
            }
        }
    }

    /// Puts the legs of every contract that covers the hour on the contract lines of its parties.
    fn put_contracts(&self, fresh: &mut [Holding])
        requires fit { let s = self.now.setting.now in
            list_all (place_fits (setting_of (F.meaning s.form.now) s)) s.contracts.now ≡ true }
        requires fresh_long { length fresh.old ≡ length self.now.posting.lines.now }
        ensures { let s = self.now.setting.now in
            let posting = posting_of self.now.posting in
            let lines = contract_line (setting_of (F.meaning s.form.now) s) posting in
            EachGets lines fresh.old fresh.new }
    {
        for place in self.setting.contracts {
            self.put_place(place, fresh);
        }
    }
}

impl CheckedPosting<'_> {
    /// The energy that all distributors withdrew.
    fn distributors_withdrawn(&self) -> u32
        ensures { result ≡ distributors_withdrawn self.now.agents.now self.now.posting.lines.now }
    {
        let each = self.posting.lines.iter().zip(self.agents);
        let all: u64 = each
            .map(|(line, agent)| u64::from(agent.distributed(line.withdrawn)))
            .sum();
        all as u32
    }
}

impl<F: ContractForm> Setting<'_, F> {
    /// Writes what a posting gives each agent at its hour, with the legs of the contracts that cover it, to its place.
    pub fn fill_hour(&self, checked: &CheckedPosting<'_>, fresh: &mut [Holding])
        requires agents { checked.now.agents.now ≡ self.now.agents.now }
        requires calendar { checked.now.stamp.calendar ≡ self.now.calendar }
        requires fit { let setting = setting_of (F.meaning self.now.form.now) self.now in
            list_all (place_fits setting) self.now.contracts.now ≡ true }
        requires fresh_long { length fresh.old ≡ length checked.now.posting.lines.now }
        ensures { let setting = setting_of (F.meaning self.now.form.now) self.now in
            let figures = hour_of setting (posting_of checked.now.posting) in
            fresh.new ≡ entries_of figures (length checked.now.posting.lines.now) }
    {
        checked.fill_entries(fresh);
        let hour = HourSetting {
            setting: self,
            stamp: checked.stamp,
            posting: checked.posting,
            distributors: checked.distributors_withdrawn(),
        };
        hour.put_contracts(fresh);
    }
}
