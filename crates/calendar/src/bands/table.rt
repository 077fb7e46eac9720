//! The band of each hour of the week.
ghost use Rattle.std.specs.Prelude.{◌≡◌, ◌<◌, true, length};
ghost use Rattle.calendar.specs.Bands.{band_of, table_is_right};

use crate::bands::Band;
use crate::weekdays::Weekday;

/// The bands of the 168 hours of a week, from Monday's midnight on.
const BANDS: [Band; 168] = [
    Band::Base, // Monday 0
    Band::Base, // Monday 1
    Band::Base, // Monday 2
    Band::Base, // Monday 3
    Band::Base, // Monday 4
    Band::Base, // Monday 5
    Band::Base, // Monday 6
    Band::Medium, // Monday 7
    Band::Medium, // Monday 8
    Band::Medium, // Monday 9
    Band::Medium, // Monday 10
    Band::Medium, // Monday 11
    Band::Medium, // Monday 12
    Band::Medium, // Monday 13
    Band::Medium, // Monday 14
    Band::Medium, // Monday 15
    Band::Medium, // Monday 16
    Band::Peak, // Monday 17
    Band::Peak, // Monday 18
    Band::Peak, // Monday 19
    Band::Peak, // Monday 20
    Band::Peak, // Monday 21
    Band::Base, // Monday 22
    Band::Base, // Monday 23
    Band::Base, // Tuesday 0
    Band::Base, // Tuesday 1
    Band::Base, // Tuesday 2
    Band::Base, // Tuesday 3
    Band::Base, // Tuesday 4
    Band::Base, // Tuesday 5
    Band::Base, // Tuesday 6
    Band::Medium, // Tuesday 7
    Band::Medium, // Tuesday 8
    Band::Medium, // Tuesday 9
    Band::Medium, // Tuesday 10
    Band::Medium, // Tuesday 11
    Band::Medium, // Tuesday 12
    Band::Medium, // Tuesday 13
    Band::Medium, // Tuesday 14
    Band::Medium, // Tuesday 15
    Band::Medium, // Tuesday 16
    Band::Peak, // Tuesday 17
    Band::Peak, // Tuesday 18
    Band::Peak, // Tuesday 19
    Band::Peak, // Tuesday 20
    Band::Peak, // Tuesday 21
    Band::Base, // Tuesday 22
    Band::Base, // Tuesday 23
    Band::Base, // Wednesday 0
    Band::Base, // Wednesday 1
    Band::Base, // Wednesday 2
    Band::Base, // Wednesday 3
    Band::Base, // Wednesday 4
    Band::Base, // Wednesday 5
    Band::Base, // Wednesday 6
    Band::Medium, // Wednesday 7
    Band::Medium, // Wednesday 8
    Band::Medium, // Wednesday 9
    Band::Medium, // Wednesday 10
    Band::Medium, // Wednesday 11
    Band::Medium, // Wednesday 12
    Band::Medium, // Wednesday 13
    Band::Medium, // Wednesday 14
    Band::Medium, // Wednesday 15
    Band::Medium, // Wednesday 16
    Band::Peak, // Wednesday 17
    Band::Peak, // Wednesday 18
    Band::Peak, // Wednesday 19
    Band::Peak, // Wednesday 20
    Band::Peak, // Wednesday 21
    Band::Base, // Wednesday 22
    Band::Base, // Wednesday 23
    Band::Base, // Thursday 0
    Band::Base, // Thursday 1
    Band::Base, // Thursday 2
    Band::Base, // Thursday 3
    Band::Base, // Thursday 4
    Band::Base, // Thursday 5
    Band::Base, // Thursday 6
    Band::Medium, // Thursday 7
    Band::Medium, // Thursday 8
    Band::Medium, // Thursday 9
    Band::Medium, // Thursday 10
    Band::Medium, // Thursday 11
    Band::Medium, // Thursday 12
    Band::Medium, // Thursday 13
    Band::Medium, // Thursday 14
    Band::Medium, // Thursday 15
    Band::Medium, // Thursday 16
    Band::Peak, // Thursday 17
    Band::Peak, // Thursday 18
    Band::Peak, // Thursday 19
    Band::Peak, // Thursday 20
    Band::Peak, // Thursday 21
    Band::Base, // Thursday 22
    Band::Base, // Thursday 23
    Band::Base, // Friday 0
    Band::Base, // Friday 1
    Band::Base, // Friday 2
    Band::Base, // Friday 3
    Band::Base, // Friday 4
    Band::Base, // Friday 5
    Band::Base, // Friday 6
    Band::Medium, // Friday 7
    Band::Medium, // Friday 8
    Band::Medium, // Friday 9
    Band::Medium, // Friday 10
    Band::Medium, // Friday 11
    Band::Medium, // Friday 12
    Band::Medium, // Friday 13
    Band::Medium, // Friday 14
    Band::Medium, // Friday 15
    Band::Medium, // Friday 16
    Band::Peak, // Friday 17
    Band::Peak, // Friday 18
    Band::Peak, // Friday 19
    Band::Peak, // Friday 20
    Band::Peak, // Friday 21
    Band::Base, // Friday 22
    Band::Base, // Friday 23
    Band::Base, // Saturday 0
    Band::Base, // Saturday 1
    Band::Base, // Saturday 2
    Band::Base, // Saturday 3
    Band::Base, // Saturday 4
    Band::Base, // Saturday 5
    Band::Base, // Saturday 6
    Band::Base, // Saturday 7
    Band::Base, // Saturday 8
    Band::Base, // Saturday 9
    Band::Base, // Saturday 10
    Band::Base, // Saturday 11
    Band::Base, // Saturday 12
    Band::Base, // Saturday 13
    Band::Base, // Saturday 14
    Band::Base, // Saturday 15
    Band::Base, // Saturday 16
    Band::Peak, // Saturday 17
    Band::Peak, // Saturday 18
    Band::Peak, // Saturday 19
    Band::Peak, // Saturday 20
    Band::Peak, // Saturday 21
    Band::Base, // Saturday 22
    Band::Base, // Saturday 23
    Band::Base, // Sunday 0
    Band::Base, // Sunday 1
    Band::Base, // Sunday 2
    Band::Base, // Sunday 3
    Band::Base, // Sunday 4
    Band::Base, // Sunday 5
    Band::Base, // Sunday 6
    Band::Base, // Sunday 7
    Band::Base, // Sunday 8
    Band::Base, // Sunday 9
    Band::Base, // Sunday 10
    Band::Base, // Sunday 11
    Band::Base, // Sunday 12
    Band::Base, // Sunday 13
    Band::Base, // Sunday 14
    Band::Base, // Sunday 15
    Band::Base, // Sunday 16
    Band::Peak, // Sunday 17
    Band::Peak, // Sunday 18
    Band::Peak, // Sunday 19
    Band::Peak, // Sunday 20
    Band::Peak, // Sunday 21
    Band::Base, // Sunday 22
    Band::Base, // Sunday 23
];

/// The band of an hour by a table that has the right band at each of the 168 places.
#[tactic(auto, using(crate::proofs::BandTable::rule))]
fn looked_up(table: &[Band], weekday: Weekday, hour: u32) -> Band
    requires places { length table.now ≡ 168 }
    requires right { table_is_right table.now ≡ true }
    requires day { hour < 24 }
    ensures { result ≡ band_of weekday hour }
{
    table[(24 * weekday.number() + hour) as usize]
}

/// The band of the hour of a weekday that begins at `hour`.
pub fn band_of(weekday: Weekday, hour: u32) -> Band
    requires { hour < 24 }
    ensures { result ≡ band_of weekday hour }
{
    looked_up(&BANDS, weekday, hour)
}
