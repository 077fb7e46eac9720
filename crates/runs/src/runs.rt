//! Calls one after another.
ghost use Rattle.std.specs.Prelude.{◌≡◌, ◌++◌, map, length, take, drop};
ghost use Rattle.settlement.specs.declared.states.State.TheVariants.{Open, Closed};
ghost use Rattle.book.specs.Lent.{memory_in as memory_of_pool, memory_seen, memory_with, SameLoan as SameLedger};
ghost use Rattle.book.specs.Months.{figures_of, closed_figures_of};
ghost use Rattle.law.specs.Requests.{closing};
ghost use Rattle.runs.specs.Lent.{SameLoan};
ghost use Rattle.runs.specs.Reading.{request_of, state_of, figures_in};
ghost use Rattle.runs.specs.Runs.{kept_of, kept_in, turn_of, done_as, heard, turn, answers_to, kept_after};

use crate::answers::{Answer, Told};
use crate::calls::Call;
use crate::lent::Lent;
use crate::months::Month;
use book::{
    Agent, BookFault, ClosedMonth, Ledger, NumberedContract, OpenMonth, Pool, Posting, View,
    cancel, close, enter, final_statement, post, post_packet, provisional, withdraw,
};
use forms::{Contract, ContractForm};

/// What is told of a call that gives nothing back.
fn told(outcome: Result<(), BookFault>) -> Answer
    ensures { result ≡ done_as outcome }
{
    outcome.map(|()| Told::Accepted)
}

/// Closes an open book.
fn answer_close<F: ContractForm>(
    month: OpenMonth,
    form: &F,
    pool: &Pool<'_>,
    ledger: &mut Ledger<'_>,
) -> (Month, Answer)
    ensures lent { SameLedger ledger.old ledger.new }
    ensures turn { let before = kept_of Open (memory_of_pool pool.now ledger.old) in
        let after = kept_of (state_of result.0) (memory_of_pool pool.now ledger.new) in
        turn_of result.1 after ≡ heard (F.meaning form.now) (figures_of month) closing before }
    ensures figures { figures_in result.0 ≡ figures_of month }
{
    match close(month, form, pool, ledger) {
        Ok(month) => (Month::Closed(month), Ok(Told::Accepted)),
        Err((month, fault)) => (Month::Open(month), Err(fault)),
    }
}

/// One call on an open book.
fn answer_open<F: ContractForm>(
    month: OpenMonth,
    form: &F,
    call: &Call,
    agents: &[Agent],
    contracts: &mut [Option<Contract>],
    ledger: &mut Ledger<'_>,
) -> (Month, Answer)
    ensures lent { SameLedger ledger.old ledger.new }
    ensures turn { let before = kept_of Open (memory_with agents.now contracts.old ledger.old) in
        let after = kept_of (state_of result.0) (memory_with agents.now contracts.new ledger.new) in
        turn_of result.1 after
        ≡ heard (F.meaning form.now) (figures_of month) (request_of call.now) before }
    ensures figures { figures_in result.0 ≡ figures_of month }
{
    let answer = match call {
        Call::Post { hour, price, lines } => {
            let posting = Posting {
                hour: *hour,
                price: *price,
                lines,
            };
            told(post(&month, form, &posting, &Pool { agents, contracts }, ledger))
        }
        Call::Packet(bytes) => told(post_packet(
            &month,
            form,
            bytes,
            &Pool { agents, contracts },
            ledger,
        )),
        Call::Withdraw(hour) => told(withdraw(
            &month,
            form,
            *hour,
            &Pool { agents, contracts },
            ledger,
        )),
        Call::Enter { number, contract } => {
            let numbered = NumberedContract {
                number: *number,
                contract: *contract,
            };
            told(enter(&month, form, numbered, agents, contracts, ledger))
        }
        Call::Cancel(number) => told(cancel(&month, form, *number, agents, contracts, ledger)),
        Call::Close => return answer_close(month, form, &Pool { agents, contracts }, ledger),
        Call::Statement(agent) => provisional(
            &month,
            form,
            *agent,
            &ledger.view(&Pool { agents, contracts }),
        )
        .map(Told::Stated),
    };
    (Month::Open(month), answer)
}

/// One call on a closed book, of which only statements can be asked.
fn answer_closed<F: ContractForm>(
    month: &ClosedMonth,
    form: &F,
    call: &Call,
    view: &View<'_, '_>,
) -> Answer
    ensures { let before = kept_of Closed (memory_seen view.now) in
        turn_of result before
        ≡ heard (F.meaning form.now) (closed_figures_of month.now) (request_of call.now) before }
{
    match call {
        Call::Statement(agent) => final_statement(month, form, *agent, view).map(Told::Stated),
        _ => Ok(Told::Skipped),
    }
}

/// One call on one book. Of a closed month only statements can be asked: any other call is skipped.
pub fn answer<F: ContractForm>(
    month: Month,
    form: &F,
    call: &Call,
    lent: &mut Lent<'_>,
) -> (Month, Answer)
    ensures lent { SameLoan lent.old lent.new }
    ensures turn { let before = kept_in month lent.old in
        turn_of result.1 (kept_in result.0 lent.new)
        ≡ heard (F.meaning form.now) (figures_in month) (request_of call.now) before }
    ensures figures { figures_in result.0 ≡ figures_in month }
{
    match month {
        Month::Open(open) => answer_open(
            open,
            form,
            call,
            lent.agents,
            lent.contracts,
            &mut lent.ledger,
        ),
        Month::Closed(closed) => {
            let answer = answer_closed(&closed, form, call, &lent.view());
            (Month::Closed(closed), answer)
        }
    }
}

/// One call on a book that hears of contracts or does not.
fn hear<F: ContractForm>(
    hears_contracts: bool,
    month: Month,
    form: &F,
    call: &Call,
    lent: &mut Lent<'_>,
) -> (Month, Answer)
    ensures lent { SameLoan lent.old lent.new }
    ensures turn { let f = figures_in month in
        let before = kept_in month lent.old in
        turn_of result.1 (kept_in result.0 lent.new)
        ≡ turn hears_contracts (F.meaning form.now) f (request_of call.now) before }
    ensures figures { figures_in result.0 ≡ figures_in month }
{
    if hears_contracts || !call.is_about_contracts() {
        answer(month, form, call, lent)
    } else {
        (month, Ok(Told::Skipped))
    }
}

/// Makes the calls one after another, as many as there are places for answers, and writes each answer to its place. Calls about contracts are
/// skipped if the run does not hear of them.
pub fn replay<F: ContractForm>(
    hears_contracts: bool,
    month: Month,
    form: &F,
    calls: &[Call],
    lent: &mut Lent<'_>,
    answers: &mut [Answer],
) -> Month
    ensures lent { SameLoan lent.old lent.new }
    ensures told { let requests = take (length answers.old) (map request_of calls.now) in
        let before = kept_in month lent.old in
        answers.new
        ≡ answers_to hears_contracts (F.meaning form.now) (figures_in month) requests before
        ++ drop (length calls.now) answers.old }
    ensures kept { let requests = take (length answers.old) (map request_of calls.now) in
        let before = kept_in month lent.old in
        kept_in result lent.new
        ≡ kept_after hears_contracts (F.meaning form.now) (figures_in month) requests before }
    ensures figures { figures_in result ≡ figures_in month }
{
    let mut month = month;
    let heard = &calls[..calls.len().min(answers.len())];
    for (i, call) in heard.iter().enumerate() {
        let (next, answer) = hear(hears_contracts, month, form, call, lent);
        month = next;
        answers[i] = answer;
    }
    month
}
