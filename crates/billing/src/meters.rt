//! The day of a meter.
ghost use Rattle.std.specs.Prelude.{◌≡◌};
ghost use Rattle.meter.specs.Days.{day_fault, output_of, AddsUp};
ghost use Rattle.billing.specs.Meters.{day_told};

use crate::answers::Answer;
use meter::read_day;

/// Checks the dump of a day, 1,536 bytes, and writes its 24 hours into the first 384 bytes of the output. A refusal leaves all of it as it was.
#[unsafe(no_mangle)]
pub extern "C" fn gibzurg_meter_day(dump: &[u8], output: &mut [u8]) -> Answer
    ensures answer { result ≡ day_told dump.now output.old }
    ensures output { output.new ≡ output_of (day_fault dump.now output.old) dump.now output.old }
    ensures adds_up { result.number ≡ 0 → AddsUp dump.now output.new }
{
    match read_day(dump, output) {
        Ok(()) => Answer::ACCEPTED,
        Err(fault) => Answer::from(fault),
    }
}
