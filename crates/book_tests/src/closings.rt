//! Months that are closed, and their final statements.
use crate::desk::{
    ACCEPTED, BLOCK, IDLE, LINES, Memory, RIGHT, Refusal, Told, close_and_retire, close_on,
    energy_alone, open_on, post_on, refused, state_finally_on,
};
use book::{ClosedMonth, Line, OpenMonth, Posting, Statement};
use std::process::Abort;
use tally::{Energy, Money, Peak};

/// A month to be closed: the hours that are free, the power of agent 1 and what agent 2 withdrew.
#[derive(Clone, Copy)]
struct Ending<'a> {
    free: &'a [usize],
    power: u32,
    withdrawn: u64,
}

/// Opens the month and makes it such.
fn opened(memory: &mut Memory, ending: Ending<'_>) -> Result<OpenMonth, Refusal> {
    memory.agents[0].power = ending.power;
    let month = open_on(memory, RIGHT)?;
    memory.marks.fill(1);
    memory.mark(ending.free, 0);
    memory.accounts[1] = energy_alone(0, ending.withdrawn);
    Ok(month)
}

/// Posts an hour at a price.
fn post_hour(
    memory: &mut Memory,
    month: &OpenMonth,
    hour: u32,
    price: u32,
    lines: &[Line],
) -> Told {
    post_on(memory, month, &Posting { hour, price, lines })
}

/// Closes the month. A refusal leaves all memory as it was, and gives a month back that can still be posted to.
fn ended(rt: &impl Abort, ending: Ending<'_>) -> Told {
    let mut memory = Memory::new();
    let month = opened(&mut memory, ending)?;
    let before = memory;
    match close_on(&mut memory, month, RIGHT) {
        Ok(closed) => {
            let _ = closed.retire();
            Ok(())
        }
        Err((month, fault)) => {
            assert!(rt; memory == before);
            let posted = post_hour(&mut memory, &month, 0, 0, &[IDLE; 5]);
            assert_eq!(rt; posted, ACCEPTED);
            let _ = month.retire();
            Err(fault.into())
        }
    }
}

const EVERY_HOUR: [usize; 24] = [
    0, 1, 2, 3, 4, 5, 6, 7, 8, 9, 10, 11, 12, 13, 14, 15, 16, 17, 18, 19, 20, 21, 22, 23,
];

// The free hours, the power of agent 1, what agent 2 withdrew, and the answer: an hour that is missing comes before power that nobody carries.
#[test]
fn hours_that_are_missing_and_power_that_nobody_carries(rt: HostRuntime) {
    let cases: [(&[usize], u32, u64, Told); 11] = [
        (&[], 1, 1, ACCEPTED),
        (&[0], 1, 1, refused(10, 0)),
        (&[23], 1, 1, refused(10, 23)),
        (&[12, 5, 23], 1, 1, refused(10, 5)),
        (&[1, 0], 1, 1, refused(10, 0)),
        (&EVERY_HOUR, 1, 1, refused(10, 0)),
        (&[], 0, 0, ACCEPTED),
        (&[], 0, 1, ACCEPTED),
        (&[], 1, 0, refused(11, 0)),
        (&[], 1_000_000, 0, refused(11, 0)),
        (&[23], 1, 0, refused(10, 23)),
    ];
    for (free, power, withdrawn, told) in cases {
        let ending = Ending {
            free,
            power,
            withdrawn,
        };
        assert_eq!(rt;
            ended(&rt, ending),
            told,
            "free {free:?}, power {power}, withdrawn {withdrawn}"
        );
    }
}

/// Posts the missing hour in a month that came back from a refused closing, and closes it.
fn mended(memory: &mut Memory, month: OpenMonth, hour: u32) -> Told {
    let posted = post_hour(memory, &month, hour, 0, &[IDLE; 5]);
    let told = close_and_retire(memory, month, RIGHT);
    posted?;
    told
}

#[test]
fn a_refused_closing_is_mended(rt: HostRuntime) -> Result<(), Refusal> {
    let mut memory = Memory::new();
    let ending = Ending {
        free: &[3],
        power: 1,
        withdrawn: 1,
    };
    let month = opened(&mut memory, ending)?;
    let told = match close_on(&mut memory, month, RIGHT) {
        Ok(closed) => {
            let _ = closed.retire();
            refused(0, 0)
        }
        Err((month, _)) => mended(&mut memory, month, 3),
    };
    assert_eq!(rt; told, ACCEPTED);
    Ok(())
}

/// The power lines of all agents of a closed month.
fn power_lines(memory: &mut Memory, month: &ClosedMonth) -> Result<[i64; 5], Refusal> {
    let mut lines = [0; 5];
    for (place, line) in lines.iter_mut().enumerate() {
        *line = state_finally_on(memory, month, RIGHT, place as u32 + 1)?
            .lines
            .power;
    }
    Ok(lines)
}

impl Memory {
    /// Sets the accounts to what each agent withdrew.
    fn withdraw(&mut self, withdrawn: &[u64]) {
        for (place, energy) in withdrawn.iter().enumerate() {
            if let Some(account) = self.accounts.get_mut(place) {
                *account = energy_alone(0, *energy);
            }
        }
    }

    /// Sets the power lines of the accounts.
    fn charge(&mut self, lines: &[i64]) {
        for (place, line) in lines.iter().enumerate() {
            if let Some(account) = self.accounts.get_mut(place) {
                account.first.power = *line;
            }
        }
    }
}

/// Closes a month in which agents 1 and 5 have so much power and each agent withdrew so much. Nothing but power lines is written.
fn charged(rt: &impl Abort, powers: [u32; 2], withdrawn: [u64; 5]) -> Result<[i64; 5], Refusal> {
    let mut memory = Memory::new();
    memory.agents[0].power = powers[0];
    memory.agents[4].power = powers[1];
    let month = open_on(&mut memory, RIGHT)?;
    memory.marks.fill(1);
    memory.withdraw(&withdrawn);
    let mut wanted = memory;
    match close_on(&mut memory, month, RIGHT) {
        Ok(closed) => {
            let lines = power_lines(&mut memory, &closed);
            let _ = closed.retire();
            let lines = lines?;
            wanted.charge(&lines);
            assert!(rt; memory == wanted);
            Ok(lines)
        }
        Err((month, fault)) => {
            let _ = month.retire();
            Err(fault.into())
        }
    }
}

#[test]
fn power_is_shared_over_withdrawn_energy(rt: HostRuntime) {
    // the power of agents 1 and 5, the withdrawn energy of each agent, and the power line of each: generators carry nothing
    let cases: [([u32; 2], [u64; 5], [i64; 5]); 8] = [
        ([0, 0], [0, 0, 0, 0, 0], [0, 0, 0, 0, 0]),
        ([0, 0], [9, 9, 9, 9, 9], [0, 0, 0, 0, 0]),
        (
            [1, 0],
            [0, 1, 1, 1, 0],
            [57_000, -19_000, -19_000, -19_000, 0],
        ),
        (
            [1, 0],
            [5, 1, 2, 4, 5],
            [57_000, -8_142, -16_286, -32_572, 0],
        ),
        (
            [1, 0],
            [0, 4, 2, 1, 0],
            [57_000, -32_571, -16_286, -8_143, 0],
        ),
        (
            [1, 2],
            [0, 2, 0, 5, 0],
            [57_000, -48_857, 0, -122_143, 114_000],
        ),
        ([0, 1], [0, 0, 57_001, 0, 0], [0, 0, -57_000, 0, 57_000]),
        (
            [1_000_000, 1_000_000],
            [0, 2_976_000_000, 0, 0, 0],
            [57_000_000_000, -114_000_000_000, 0, 0, 57_000_000_000],
        ),
    ];
    for (powers, withdrawn, lines) in cases {
        assert_eq!(rt;
            charged(&rt, powers, withdrawn),
            Ok(lines),
            "{powers:?}, {withdrawn:?}"
        );
    }
}

/// Posts a day in which a generator injects and a distributor withdraws in hour 6 alone.
fn post_day(memory: &mut Memory, month: &OpenMonth) -> Told {
    for hour in 0..24 {
        let lines = if hour == 6 { LINES } else { [IDLE; 5] };
        post_hour(memory, month, hour, 60_000, &lines)?;
    }
    Ok(())
}

/// The final statements of a closed month for agents 1 and 2, and the answers for numbers that are no agent's.
fn finally(
    rt: &impl Abort,
    memory: &mut Memory,
    month: &ClosedMonth,
) -> Result<[Statement; 2], Refusal> {
    for agent in [0, 6, u32::MAX] {
        let said = state_finally_on(memory, month, RIGHT, agent);
        assert_eq!(rt; said.map(|_| ()), refused(3, 0), "agent {agent}");
    }
    Ok([
        state_finally_on(memory, month, RIGHT, 1)?,
        state_finally_on(memory, month, RIGHT, 2)?,
    ])
}

/// Posts a whole day under a block, closes it, and states it finally.
fn whole_day(rt: &impl Abort) -> Result<[Statement; 2], Refusal> {
    let mut memory = Memory::new();
    memory.agents[0].power = 1;
    let month = open_on(&mut memory, RIGHT)?;
    memory.contracts[0] = Some(BLOCK);
    let posted = post_day(&mut memory, &month);
    match close_on(&mut memory, month, RIGHT) {
        Ok(closed) => {
            let said = finally(rt, &mut memory, &closed);
            let _ = closed.retire();
            posted?;
            said
        }
        Err((month, fault)) => {
            let _ = month.retire();
            Err(fault.into())
        }
    }
}

// The block of 100 kWh covers hours 5 to 7; the price of the hours is 60,000 and the block's 50,000.
#[test]
fn a_day_from_its_opening_to_its_final_statements(rt: HostRuntime) -> Result<(), Refusal> {
    let [seller, buyer] = whole_day(&rt)?;
    let seller_lines = Money {
        market: 570_000,
        contract: -30_000,
        overcost: 0,
        power: 57_000,
    };
    let buyer_lines = Money {
        market: -593_640,
        contract: 30_000,
        overcost: 0,
        power: -57_000,
    };
    assert_eq!(rt; seller.lines, seller_lines);
    assert_eq!(rt; seller.balance, 597_000);
    assert_eq!(rt;
        seller.energy,
        Energy {
            injected: 1_000,
            withdrawn: 0
        }
    );
    assert_eq!(rt; seller.peak, Peak { kwh: 0, hour: 0 });
    assert_eq!(rt; buyer.lines, buyer_lines);
    assert_eq!(rt; buyer.balance, -620_640);
    assert_eq!(rt;
        buyer.energy,
        Energy {
            injected: 0,
            withdrawn: 970
        }
    );
    assert_eq!(rt; buyer.peak, Peak { kwh: 970, hour: 6 });
    Ok(())
}
