//! What the parser reads, and what the printer says, on examples.
use crate::choices::Choice;
use crate::differences::{Books, Difference, compare};
use crate::dollars::Dollars;
use crate::expected::Expected;
use crate::facts::{Facts, NoAudit};
use crate::journal::{Entry, Request};
use crate::metering::{Metered, Unmetered, hour_in};
use crate::numbers::number;
use crate::trouble::Trouble;
use crate::words::{Heading, Reply, Sheet, Totals, Undone};
use crate::{auditing, journal, settling};
use audit::{Comparison, Report, Told, is_alike};
use book::{Agent, BookFault, Line, LineFault, MonthFigures, Statement};
use calendar::Calendar;
use forms::{Contract, Delivery, Role};
use meter::{Hour, MeterFault};
use packets::ByteFault;
use settlement::State;
use std::alloc::{AllocError, Global};
use std::test::Fail;
use tally::{Energy, Money, Peak};

/// The contract of the lines that are read below.
const BLOCK: Contract = Contract {
    delivery: Delivery::MarketBar,
    kind: 1,
    seller: 1,
    buyer: 2,
    first: 0,
    last: 23,
    price: 50_000,
    peak: 100,
    medium: 90,
    base: 80,
    margin: 7,
};

#[test]
fn reads_numbers(rt: HostRuntime) {
    let words = [
        ("0", Some(0)),
        ("007", Some(7)),
        ("4294967295", Some(4294967295)),
        ("4294967296", None),
        ("99999999999999999999", None),
        ("", None),
        ("+5", None),
        ("-5", None),
        ("5.", None),
        ("1,000", None),
        ("five", None),
    ];
    for (word, wanted) in words {
        assert_eq!(rt; number(word), wanted, "{}", word);
    }
}

/// Lines of a journal, and what they say.
const LINES: [(&str, Option<Entry<'static>>); 15] = [
    ("", None),
    ("   ", None),
    ("# open", None),
    (
        "open agents 2 days 1 weekday monday",
        Some(Entry::Call(Request::Open(MonthFigures {
            agents: 2,
            days: 1,
            calendar: Calendar { weekday: 0 },
        }))),
    ),
    (
        "open agents 4294967295 days 99 weekday sunday",
        Some(Entry::Call(Request::Open(MonthFigures {
            agents: 4294967295,
            days: 99,
            calendar: Calendar { weekday: 6 },
        }))),
    ),
    (
        "agent 1 role generator capacity 4000 power 7",
        Some(Entry::Agent(
            1,
            Agent {
                role: 1,
                capacity: 4000,
                power: 7,
            },
        )),
    ),
    (
        "agent 2 role 9 capacity 0 power 0",
        Some(Entry::Agent(
            2,
            Agent {
                role: 9,
                capacity: 0,
                power: 0,
            },
        )),
    ),
    (
        "  post   hour 8  price 60000 ",
        Some(Entry::Call(Request::Post {
            hour: 8,
            price: 60000,
        })),
    ),
    (
        "line class forced cause 1 injected 2 withdrawn 3 gross 4 factor 5 cost 6",
        Some(Entry::Line(Line {
            class: 3,
            cause: 1,
            injected: 2,
            withdrawn: 3,
            gross: 4,
            factor: 5,
            cost: 6,
        })),
    ),
    (
        " packet  08e0D403 ",
        Some(Entry::Call(Request::Packet("08e0D403"))),
    ),
    (
        "withdraw hour 8",
        Some(Entry::Call(Request::Withdraw { hour: 8 })),
    ),
    (
        "cancel 64",
        Some(Entry::Call(Request::Cancel { number: 64 })),
    ),
    ("close", Some(Entry::Call(Request::Close))),
    (
        "statement 64",
        Some(Entry::Call(Request::Statement { agent: 64 })),
    ),
    ("statements", Some(Entry::Call(Request::Statements))),
];

#[test]
fn reads_lines(rt: HostRuntime) {
    for (line, wanted) in LINES {
        assert_eq!(rt; journal::read(line), Ok(wanted), "{}", line);
    }
}

#[test]
fn reads_contracts(rt: HostRuntime) {
    let lines = [
        (
            "contract 1 kind 1 seller 1 buyer 2 place market first 0 last 23 price 50000 peak 100 medium 90 base 80 margin 7",
            Some(Entry::Call(Request::Enter {
                number: 1,
                contract: BLOCK,
            })),
        ),
        (
            "contract 65 kind 1 seller 1 buyer 2 place seller first 0 last 23 price 50000 peak 100 medium 90 base 80 margin 7",
            Some(Entry::Call(Request::Enter {
                number: 65,
                contract: Contract {
                    delivery: Delivery::SellerNode,
                    ..BLOCK
                },
            })),
        ),
        (
            "contract 0 kind 1 seller 1 buyer 2 place 3 first 0 last 23 price 50000 peak 100 medium 90 base 80 margin 7",
            Some(Entry::Call(Request::Enter {
                number: 0,
                contract: Contract {
                    delivery: Delivery::BuyerNode,
                    ..BLOCK
                },
            })),
        ),
    ];
    for (line, wanted) in lines {
        assert_eq!(rt; journal::read(line), Ok(wanted), "{}", line);
    }
}

/// Lines that are refused, and what was expected there.
const REFUSED_LINES: [(&str, Expected); 29] = [
    ("opens agents 2", Expected::Call),
    ("OPEN agents 2", Expected::Call),
    ("audit", Expected::Call),
    ("post\thour 8 price 1", Expected::Call),
    ("open", Expected::Figure("agents")),
    (
        "open agents two days 1 weekday 0",
        Expected::Figure("agents"),
    ),
    ("open agents 2 days 1", Expected::Named(Choice::Weekday)),
    (
        "open agents 2 days 1 weekday someday",
        Expected::Named(Choice::Weekday),
    ),
    ("agent", Expected::Agent),
    ("agent one role 1 capacity 0 power 0", Expected::Agent),
    (
        "agent 1 role owner capacity 0 power 0",
        Expected::Named(Choice::Role),
    ),
    ("post hour 8", Expected::Figure("price")),
    ("post hour 8 price +5", Expected::Figure("price")),
    ("post price 8 hour 5", Expected::Figure("hour")),
    ("post hour 8 price 1 now", Expected::End),
    ("line class odd", Expected::Named(Choice::Class)),
    (
        "line class 1 cause 0 injected 1 withdrawn 1 gross 1 factor 1",
        Expected::Figure("cost"),
    ),
    ("packet", Expected::Digits),
    ("packet 08E", Expected::Digits),
    ("packet 08EG", Expected::Digits),
    ("packet +8", Expected::Digits),
    ("packet hour 8", Expected::Digits),
    ("packet 08 E0", Expected::End),
    ("withdraw 8", Expected::Figure("hour")),
    ("cancel", Expected::Contract),
    ("cancel contract 1", Expected::Contract),
    ("close 1", Expected::End),
    ("statement", Expected::Agent),
    ("statements 2", Expected::End),
];

#[test]
fn refuses_lines(rt: HostRuntime) {
    for (line, wanted) in REFUSED_LINES {
        assert_eq!(rt; journal::read(line), Err(wanted), "{}", line);
    }
}

#[test]
fn refuses_contracts(rt: HostRuntime) {
    let lines = [
        ("contract", Expected::Contract),
        ("contract kind 1", Expected::Contract),
        ("contract 1 seller 1", Expected::Figure("kind")),
        (
            "contract 1 kind 1 seller 1 buyer 2 place bar first 0",
            Expected::Place,
        ),
        (
            "contract 1 kind 1 seller 1 buyer 2 place 0 first 0",
            Expected::Place,
        ),
        (
            "contract 1 kind 1 seller 1 buyer 2 place 4 first 0",
            Expected::Place,
        ),
        (
            "contract 1 kind 1 seller 1 buyer 2 first 0 last 23",
            Expected::Place,
        ),
        (
            "contract 1 kind 1 seller 1 buyer 2 place 1 first 0 last 1 price 1 peak 1 medium 1 base 1",
            Expected::Figure("margin"),
        ),
    ];
    for (line, wanted) in lines {
        assert_eq!(rt; journal::read(line), Err(wanted), "{}", line);
    }
}

#[test]
fn says_dollars(rt: HostRuntime) -> Result<(), Fail> {
    let amounts = [
        (0, "0.0000 dollars"),
        (1, "0.0001 dollars"),
        (-1, "minus 0.0001 dollars"),
        (9_999, "0.9999 dollars"),
        (10_000, "1.0000 dollars"),
        (-10_000, "minus 1.0000 dollars"),
        (-593_640, "minus 59.3640 dollars"),
        (i128::from(i64::MAX), "922337203685477.5807 dollars"),
        (i128::from(i64::MIN), "minus 922337203685477.5808 dollars"),
        (
            i128::MAX,
            "17014118346046923173168730371588410.5727 dollars",
        ),
        (
            i128::MIN,
            "minus 17014118346046923173168730371588410.5728 dollars",
        ),
    ];
    for (points, wanted) in amounts {
        let said = Dollars(points).to_string(rt.alloc())?;
        assert_eq!(rt; said.as_str(), wanted);
    }
    Ok(())
}

/// A packet with a byte that is none.
const BYTE: BookFault = BookFault::Posting(LineFault::Packet(ByteFault::Malformed(55)));

/// The journal's line; the call; how it went; what is said.
const REPLIES: [(usize, Heading, Result<(), Undone>, &str); 7] = [
    (
        5,
        Heading::Post(8),
        Ok(()),
        "Line 5, post hour 8: accepted.",
    ),
    (
        1,
        Heading::Open,
        Err(Undone::NoBook),
        "Line 1, open: skipped, no book is open.",
    ),
    (
        9,
        Heading::Withdraw(8),
        Err(Undone::Refused(BookFault::FreeHour(8))),
        "Line 9, withdraw hour 8: refused, fault 9 at 8, the hour is free.",
    ),
    (
        10,
        Heading::Contract(65),
        Err(Undone::Refused(BookFault::ContractNumber)),
        "Line 10, contract 65: refused, fault 12 at 0, the contract number is outside 1 to 64, taken or not standing.",
    ),
    (
        11,
        Heading::Cancel(1),
        Err(Undone::Closed),
        "Line 11, cancel 1: skipped, the month is closed.",
    ),
    (
        12,
        Heading::Close,
        Err(Undone::Refused(BookFault::MissingHour(7))),
        "Line 12, close: refused, fault 10 at 7, an hour of the month is missing.",
    ),
    (
        13,
        Heading::Packet,
        Err(Undone::Refused(BYTE)),
        "Line 13, packet: refused, fault 17 at 55, no number that the format allows starts at byte 55, or bytes are left over from there on.",
    ),
];

#[test]
fn says_replies(rt: HostRuntime) -> Result<(), Fail> {
    for (line, heading, outcome, wanted) in REPLIES {
        let reply = Reply {
            line,
            heading,
            outcome,
        };
        assert_eq!(rt; reply.to_string(rt.alloc())?.as_str(), wanted);
    }
    Ok(())
}

#[test]
fn says_totals(rt: HostRuntime) -> Result<(), Fail> {
    let totals = Totals {
        balances: -23_640,
        residue: 23_640,
    };
    assert_eq!(rt;
        totals.to_string(rt.alloc())?.as_str(),
        "Sum of balances: minus 2.3640 dollars.\nResidue of the standing hours: 2.3640 dollars.\nThe sum of balances is minus the residue."
    );
    let totals = Totals {
        balances: 1,
        residue: 1,
    };
    assert_eq!(rt;
        totals.to_string(rt.alloc())?.as_str(),
        "Sum of balances: 0.0001 dollars.\nResidue of the standing hours: 0.0001 dollars.\nThe sum of balances is NOT minus the residue."
    );
    Ok(())
}

/// A statement with another figure in each of its lines.
const STATEMENT: Statement = Statement {
    lines: Money {
        market: -593_640,
        contract: 10_000,
        overcost: -1,
        power: 57_000,
    },
    balance: -526_641,
    energy: Energy {
        injected: 3,
        withdrawn: 970,
    },
    peak: Peak { kwh: 970, hour: 8 },
};

#[test]
fn says_statements(rt: HostRuntime) -> Result<(), Fail> {
    let sheet = Sheet {
        agent: 2,
        role: Some(Role::Distributor),
        state: State::Closed,
        statement: STATEMENT,
    };
    assert_eq!(rt;
        sheet.to_string(rt.alloc())?.as_str(),
        "Statement of agent 2, distributor, final.\nMarket: minus 59.3640 dollars.\nContracts: 1.0000 dollars.\nOvercost: minus 0.0001 dollars.\nPower: 5.7000 dollars.\nBalance: minus 52.6641 dollars.\nInjected: 3 kilowatt-hours.\nWithdrawn: 970 kilowatt-hours.\nPeak: 970 kilowatt-hours in hour 8.\nEnd of statement."
    );
    Ok(())
}

#[test]
fn says_audits(rt: HostRuntime) -> Result<(), Fail> {
    let facts = Facts(Report {
        balances: -1,
        balances_without: -2,
        balances_again: -3,
        residue: 4,
        repeated: true,
        comparison: Comparison {
            heard: 5,
            alike: 6,
            strangers: 7,
            strangers_same: 8,
            same: 9,
        },
    });
    assert_eq!(rt;
        facts.to_string(rt.alloc())?.as_str(),
        "Calls that the first and the second book both heard: 5.\nOf these calls, answered alike: 6.\nSum of balances in the first book: minus 0.0001 dollars.\nSum of balances in the second book: minus 0.0002 dollars.\nSum of balances in the third book: minus 0.0003 dollars.\nResidue of the standing hours: 0.0004 dollars.\nAgents that are party to no standing contract: 7.\nOf these agents, with the same statement in the first and the second book: 8.\nAgents with the same statement in the first and the third book: 9."
    );
    assert_eq!(rt;
        NoAudit::NoOpening.to_string(rt.alloc())?.as_str(),
        "Audit: none, since no book was opened."
    );
    assert_eq!(rt;
        NoAudit::Refused(BookFault::OutsideBook)
            .to_string(rt.alloc())?
            .as_str(),
        "Audit: none, since the last opening was refused, fault 3 at 0, a figure of the opening or the statement's agent is outside the book's limits."
    );
    Ok(())
}

#[test]
fn says_differences(rt: HostRuntime) -> Result<(), Fail> {
    let answer = Difference::Answer {
        line: 8,
        heading: Heading::Post(3),
    };
    assert_eq!(rt;
        answer.to_string(rt.alloc())?.as_str(),
        "Difference between the first and the second book: line 8, post hour 3, the answer."
    );
    let statement = Difference::Statement {
        books: Books::FirstAndThird,
        agent: 2,
        line: "Market",
    };
    assert_eq!(rt;
        statement.to_string(rt.alloc())?.as_str(),
        "Difference between the first and the third book: agent 2, Market."
    );
    Ok(())
}

/// The lines of a statement, by the words that begin them.
const STATEMENT_LINES: [&str; 8] = [
    "Market",
    "Contracts",
    "Overcost",
    "Power",
    "Balance",
    "Injected",
    "Withdrawn",
    "Peak",
];

/// The lines in which a statement of agent 2 differs from that of the tests, by the words that begin them.
fn differing(heap: Global, other: &Statement) -> Result<Vec<&'static str>, AllocError> {
    let mut found = Vec::new(heap);
    compare(&mut found, Books::FirstAndThird, 2, &STATEMENT, other)?;
    let mut words = Vec::new(heap);
    for difference in &found {
        if let Difference::Statement { line, .. } = difference {
            words.push(*line)?;
        }
    }
    Ok(words)
}

#[test]
fn finds_differing_lines(rt: HostRuntime) -> Result<(), Fail> {
    let later = Statement {
        peak: Peak { kwh: 970, hour: 9 },
        ..STATEMENT
    };
    let cases: [(Statement, &[&str]); 3] = [
        (STATEMENT, &[]),
        (Statement::blank(), &STATEMENT_LINES),
        (later, &["Peak"]),
    ];
    for (other, words) in cases {
        assert_eq!(rt; differing(rt.alloc(), &other)?.as_slice(), words);
    }
    Ok(())
}

#[test]
fn tells_answers_apart(rt: HostRuntime) {
    let answers = [
        Ok(Told::Accepted),
        Ok(Told::Skipped),
        Err(BookFault::FreeHour(1)),
        Err(BookFault::FreeHour(2)),
        Err(BookFault::MissingHour(1)),
    ];
    for (place, one) in answers.iter().enumerate() {
        for (other_place, other) in answers.iter().enumerate() {
            assert_eq!(rt;
                is_alike(one, other),
                place == other_place,
                "{} {}",
                place,
                other_place
            );
        }
    }
    let stated = Ok(Told::Stated(STATEMENT));
    assert!(rt; is_alike(&stated, &Ok(Told::Stated(Statement::blank()))));
}

#[test]
fn reads_hours(rt: HostRuntime) {
    let mut day = [0; 384];
    day[368..384].copy_from_slice(&[0, 0, 0, 40, 0, 0, 1, 4, 0, 2, 0, 0, 1, 0, 0, 3]);
    let wanted = Hour {
        gross: 40,
        net: 260,
        external: 131_072,
        auxiliaries: 16_777_219,
    };
    assert_eq!(rt; hour_in(&day, 23), wanted);
    let blank = Hour {
        gross: 0,
        net: 0,
        external: 0,
        auxiliaries: 0,
    };
    assert_eq!(rt; hour_in(&day, 22), blank);
}

#[test]
fn says_hours(rt: HostRuntime) -> Result<(), Fail> {
    let metered = Metered {
        number: 0,
        hour: Hour {
            gross: 40,
            net: 36,
            external: 0,
            auxiliaries: 4,
        },
    };
    assert_eq!(rt;
        metered.to_string(rt.alloc())?.as_str(),
        "Hour 0: gross 40, net 36, external auxiliaries 0, auxiliaries 4 kilowatt-hours."
    );
    let metered = Metered {
        number: 23,
        hour: Hour {
            gross: 4_000_000,
            net: 0,
            external: 3_999_999,
            auxiliaries: 7_999_999,
        },
    };
    assert_eq!(rt;
        metered.to_string(rt.alloc())?.as_str(),
        "Hour 23: gross 4000000, net 0, external auxiliaries 3999999, auxiliaries 7999999 kilowatt-hours."
    );
    Ok(())
}

#[test]
fn says_refused_days(rt: HostRuntime) -> Result<(), Fail> {
    let faults = [
        (
            MeterFault::OutputTooShort,
            "Meter: refused, fault 1 at 0, the output is too short for the hours of a day.",
        ),
        (
            MeterFault::WrongLength,
            "Meter: refused, fault 15 at 0, the dump is not as long as that of a day.",
        ),
        (
            MeterFault::Quarter(95),
            "Meter: refused, fault 16 at 95, a quarter's channel, gross or net energy is outside its limit.",
        ),
    ];
    for (fault, wanted) in faults {
        let said = Unmetered(fault).to_string(rt.alloc())?;
        assert_eq!(rt; said.as_str(), wanted);
    }
    Ok(())
}

/// Journals that end a run; the line where; what was expected there.
const ENDED_RUNS: [(&str, usize, Expected); 8] = [
    ("statements\nfoo", 2, Expected::Call),
    ("statements\r\n", 1, Expected::Call),
    (
        "open agents 2 days 1 weekday 0\nagent 1 role 1 capacity 0 power 0\npost hour 1 price 1",
        3,
        Expected::AgentLine(2, 2),
    ),
    (
        "open agents 2 days 1 weekday 0\nagent 2 role 1 capacity 0 power 0",
        2,
        Expected::AgentLine(1, 2),
    ),
    (
        "open agents 4294967295 days 1 weekday 0\n",
        2,
        Expected::AgentLine(1, 4294967295),
    ),
    (
        "open agents 0 days 1 weekday 0\nagent 1 role 1 capacity 0 power 0",
        2,
        Expected::NoAgentLine,
    ),
    (
        "# none\nline class 1 cause 0 injected 1 withdrawn 1 gross 1 factor 1 cost 1",
        2,
        Expected::NoPostingLine,
    ),
    ("\npacket 08EG", 2, Expected::Digits),
];

#[test]
fn ends_runs(rt: HostRuntime) -> Result<(), Fail> {
    for (text, line, wanted) in ENDED_RUNS {
        for outcome in [settling::settle(&rt, text), auditing::audit(&rt, text)] {
            match outcome {
                Err(Trouble::Malformed(at, expected)) => {
                    assert_eq!(rt; at, line, "{}", text);
                    assert_eq!(rt; expected, wanted, "{}", text);
                }
                _ => return Err(Fail::new(text)),
            }
        }
    }
    Ok(())
}
