//! The packet of a statement.
ghost use Rattle.std.specs.Prelude.{◌≡◌};
ghost use Rattle.billing.specs.Statements.{statement_checked};

use crate::answers::Answer;
use packets::read_statement;

/// Checks the packet of an agent's statement: its form, its limits, and that its balance is the sum of its lines.
#[unsafe(no_mangle)]
pub extern "C" fn gibzurg_check_statement(bytes: &[u8]) -> Answer
    ensures { result ≡ statement_checked bytes.now }
{
    match read_statement(bytes) {
        Ok(_) => Answer::ACCEPTED,
        Err(fault) => Answer::from(fault),
    }
}
