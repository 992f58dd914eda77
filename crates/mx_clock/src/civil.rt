ghost use Rattle.std.specs.Prelude.{◌≡◌, ◌↔◌, ◌<◌, ◌^◌, ◌<ℤ◌, pos, IsNone, IfSome};
ghost use Rattle.mx_clock.specs.Civil.{civil_number};

use jiff::civil::DateTime;
use mx_base::Instant;

/// The instant of a civil date and time: the year in four digits, month, day, hour, minute and second in two each, and the
/// millisecond in three. None before the year 0.
pub fn instant_of_civil(at: DateTime) -> Option<Instant>
    ensures none { IsNone result ↔ (at.date.year <ℤ pos 0) }
    ensures value { IfSome result (λ instant. pos instant ≡ civil_number at) }
{
    if at.year() < 0 {
        return None;
    }
    Instant::new(number_of(at))
}

fn number_of(at: DateTime) -> u64
    requires { ¬ (at.date.year <ℤ pos 0) }
    ensures value { pos result ≡ civil_number at }
    ensures bound { result < 10 ^ 17 }
{
    let mut number = at.year() as u64;
    number = number * 100 + at.month() as u64;
    number = number * 100 + at.day() as u64;
    number = number * 100 + at.hour() as u64;
    number = number * 100 + at.minute() as u64;
    number = number * 100 + at.second() as u64;
    number * 1000 + at.millisecond() as u64
}
