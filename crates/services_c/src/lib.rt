// Dates, weekdays and services over plain numbers, for programs in C and Rust to call.
#![tactic(auto)]

ghost use Rattle.std.specs.Prelude.{◌≡◌};
ghost use Rattle.calendar.specs.Dates.{is_date, weekday_of};
ghost use Rattle.services.specs.Runs.{runs_of};
ghost use Rattle.services_c.specs.Plain.{service_with};

use services::Service;
use texts::Text;

// Whether the calendar has the date.
#[unsafe(no_mangle)]
pub extern "C" fn date_known(d: u32) -> bool
    ensures { result ≡ is_date d }
{
    calendar::is_date(d)
}

// The weekday of a date, 0 Monday to 6 Sunday; 7 for a number that is no date, since C has no options.
#[unsafe(no_mangle)]
pub extern "C" fn date_weekday(d: u32) -> u8
    ensures { result ≡ weekday_of d }
{
    calendar::weekday(d)
}

// Whether a service of these weekdays, start, end and marks runs on the load's day `day`, which has this date.
// The numbers one by one, as C hands them in.
#[unsafe(no_mangle)]
pub extern "C" fn service_runs(
    weekdays: u8,
    start: u32,
    end: u32,
    added: u8,
    removed: u8,
    day: u8,
    date: u32,
) -> bool
    ensures { result ≡ runs_of (service_with weekdays start end added removed) day date }
{
    let service = Service {
        name: Text::of(b""),
        weekdays,
        start,
        end,
        added,
        removed,
    };
    service.runs(day, date)
}
