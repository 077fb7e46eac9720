//! What contracts put on the contract lines of a month.
use crate::desk::{
    BLOCK, LINES, Memory, RIGHT, Refusal, SHARE, Told, open_on, post_on, state_on, withdraw_on,
};
use book::{OpenMonth, Posting};
use forms::{Contract, Delivery};

/// The contract lines of agents 1 and 2, and their balances.
#[derive(Clone, Copy, PartialEq, Eq, Debug)]
struct Worth {
    contract: [i64; 2],
    balance: [i64; 2],
}

const NOTHING: Worth = Worth {
    contract: [0, 0],
    balance: [0, 0],
};

/// What the month is worth to agents 1 and 2 now.
fn worth_of(memory: &mut Memory, month: &OpenMonth) -> Result<Worth, Refusal> {
    let seller = state_on(memory, month, 1)?;
    let buyer = state_on(memory, month, 2)?;
    Ok(Worth {
        contract: [seller.lines.contract, buyer.lines.contract],
        balance: [seller.balance, buyer.balance],
    })
}

/// Posts an hour of the trade at a price.
fn trade(memory: &mut Memory, month: &OpenMonth, hour: u32, price: u32) -> Told {
    let posting = Posting {
        hour,
        price,
        lines: &LINES,
    };
    post_on(memory, month, &posting)
}

/// What an hour at a price of 60,000 is worth under a contract.
fn worth_under(contract: Contract, hour: u32) -> Result<Worth, Refusal> {
    let mut memory = Memory::new();
    let month = open_on(&mut memory, RIGHT)?;
    memory.contracts[0] = Some(contract);
    let said = trade(&mut memory, &month, hour, 60_000);
    let worth = worth_of(&mut memory, &month);
    let _ = month.retire();
    said?;
    worth
}

#[test]
fn legs_at_each_place(rt: HostRuntime) {
    // place of delivery; what the seller gets under the contract, and both balances
    let cases: [(Delivery, i64, [i64; 2]); 3] = [
        (Delivery::MarketBar, -10_000, [560_000, -583_640]),
        (Delivery::SellerNode, -7_000, [563_000, -586_640]),
        (Delivery::BuyerNode, -11_200, [558_800, -582_440]),
    ];
    for (delivery, points, balance) in cases {
        let contract = Contract { delivery, ..BLOCK };
        let worth = Worth {
            contract: [points, -points],
            balance,
        };
        assert_eq!(rt; worth_under(contract, 6), Ok(worth), "{delivery:?}");
    }
}

#[test]
fn legs_by_the_hour(rt: HostRuntime) -> Result<(), Refusal> {
    // the hour of a Sunday, and what the seller of a block gets for it
    let cases = [
        (4, 0),
        (5, -6_000),
        (16, -6_000),
        (17, -10_000),
        (21, -10_000),
        (22, -6_000),
        (23, 0),
    ];
    let block = Contract {
        last: 22,
        peak: 100,
        medium: 80,
        base: 60,
        ..BLOCK
    };
    for (hour, points) in cases {
        assert_eq!(rt;
            worth_under(block, hour)?.contract,
            [points, -points],
            "hour {hour}"
        );
    }
    Ok(())
}

#[test]
fn legs_of_all_contracts_add_up(rt: HostRuntime) -> Result<(), Refusal> {
    let mut memory = Memory::new();
    let month = open_on(&mut memory, RIGHT)?;
    memory.contracts[0] = Some(BLOCK);
    memory.contracts[8] = Some(Contract { last: 5, ..BLOCK });
    memory.contracts[63] = Some(SHARE);
    // the hour, and what the seller has then: a block is minus 10,000, and the share, of all 1,000 kWh, is minus 100,000
    let cases = [
        (4, 0),
        (5, -120_000),
        (6, -230_000),
        (7, -340_000),
        (8, -340_000),
    ];
    for (hour, points) in cases {
        assert_eq!(rt; trade(&mut memory, &month, hour, 60_000), Ok(()));
        let now = worth_of(&mut memory, &month);
        assert_eq!(rt;
            now.map(|now| now.contract),
            Ok([points, -points]),
            "hour {hour}"
        );
    }
    let _ = month.retire();
    Ok(())
}

#[test]
fn corrections_under_a_contract(rt: HostRuntime) -> Result<(), Refusal> {
    let mut memory = Memory::new();
    let month = open_on(&mut memory, RIGHT)?;
    memory.contracts[0] = Some(BLOCK);
    let free = memory;
    // the hour's price; what the seller gets under the contract, and both balances
    let cases: [(u32, i64, [i64; 2]); 4] = [
        (60_000, -10_000, [560_000, -583_640]),
        (40_000, 10_000, [390_000, -405_760]),
        (50_000, 0, [475_000, -494_700]),
        (60_000, -10_000, [560_000, -583_640]),
    ];
    for (price, points, balance) in cases {
        assert_eq!(rt; trade(&mut memory, &month, 5, price), Ok(()));
        let wanted = Worth {
            contract: [points, -points],
            balance,
        };
        assert_eq!(rt; worth_of(&mut memory, &month), Ok(wanted), "price {price}");
    }
    assert_eq!(rt; withdraw_on(&mut memory, &month, 5), Ok(()));
    assert_eq!(rt; worth_of(&mut memory, &month), Ok(NOTHING));
    assert!(rt; memory == free);
    let _ = month.retire();
    Ok(())
}
