// The week's bands at their edges, and the hours of months that begin on different days.
use crate::{Band, Calendar, HourStamp, NoSuchWeekday, Weekday, band_of};
use std::test::Fail;

#[test]
fn bands_of_the_week(rt: HostRuntime) {
    let cases: [(Weekday, u32, Band); 19] = [
        (Weekday::Monday, 7, Band::Medium),
        (Weekday::Saturday, 7, Band::Base),
        (Weekday::Sunday, 21, Band::Peak),
        (Weekday::Monday, 0, Band::Base),
        (Weekday::Wednesday, 6, Band::Base),
        (Weekday::Wednesday, 7, Band::Medium),
        (Weekday::Wednesday, 16, Band::Medium),
        (Weekday::Wednesday, 17, Band::Peak),
        (Weekday::Wednesday, 21, Band::Peak),
        (Weekday::Wednesday, 22, Band::Base),
        (Weekday::Friday, 16, Band::Medium),
        (Weekday::Saturday, 6, Band::Base),
        (Weekday::Saturday, 16, Band::Base),
        (Weekday::Saturday, 17, Band::Peak),
        (Weekday::Saturday, 22, Band::Base),
        (Weekday::Sunday, 16, Band::Base),
        (Weekday::Sunday, 17, Band::Peak),
        (Weekday::Sunday, 22, Band::Base),
        (Weekday::Sunday, 23, Band::Base),
    ];
    for (weekday, hour, band) in cases {
        assert!(rt; hour < 24);
        assert_eq!(rt; band_of(weekday, hour), band);
    }
}

#[test]
fn hours_of_a_month(rt: HostRuntime) -> Result<(), Fail> {
    // number of the first weekday, hour of the month; its weekday, hour of the day and band
    let cases: [(u32, u32, Weekday, u32, Band); 8] = [
        (0, 0, Weekday::Monday, 0, Band::Base),
        (0, 23, Weekday::Monday, 23, Band::Base),
        (0, 24, Weekday::Tuesday, 0, Band::Base),
        (4, 24 + 7, Weekday::Saturday, 7, Band::Base),
        (4, 3 * 24 + 7, Weekday::Monday, 7, Band::Medium),
        (6, 21, Weekday::Sunday, 21, Band::Peak),
        (6, 743, Weekday::Tuesday, 23, Band::Base),
        // 4,294,967,295 days past a Monday are a Thursday.
        (u32::MAX, 24 + 7, Weekday::Friday, 7, Band::Medium),
    ];
    for (first, hour, weekday, hour_of_day, band) in cases {
        let calendar = Calendar { weekday: first };
        assert_eq!(rt; calendar.weekday_at(hour), weekday);
        assert_eq!(rt; calendar.band_at(hour), band);
        let Some(stamp) = HourStamp::new(hour, 31, calendar) else {
            return Err(Fail::new("outside the month"));
        };
        assert_eq!(rt; stamp.weekday(), weekday);
        assert_eq!(rt; stamp.hour_of_day(), hour_of_day);
        assert_eq!(rt; stamp.band(), band);
    }
    assert_eq!(rt; Weekday::try_from(6), Ok(Weekday::Sunday));
    assert_eq!(rt; Weekday::try_from(7), Err(NoSuchWeekday { number: 7 }));
    assert_eq!(rt; Weekday::Saturday.number(), 5);
    Ok(())
}

// A first weekday's number, and whether a month may begin on it.
#[test]
fn calendars_within_limits(rt: HostRuntime) {
    for (weekday, fits) in [(0, true), (6, true), (7, false), (u32::MAX, false)] {
        assert_eq!(rt; Calendar { weekday }.is_within_limits(), fits);
    }
}

// An hour and a month's days, and whether the month has that hour.
#[test]
fn no_stamp_is_outside_its_month(rt: HostRuntime) {
    let cases = [
        (0, 0, false),
        (0, 1, true),
        (23, 1, true),
        (24, 1, false),
        (743, 31, true),
        (744, 31, false),
        (u32::MAX, 31, false),
        (0, 32, false),
        (0, u32::MAX, false),
    ];
    for (hour, days, exists) in cases {
        let stamp = HourStamp::new(hour, days, Calendar { weekday: 0 });
        assert_eq!(rt; stamp.is_some(), exists);
    }
}
