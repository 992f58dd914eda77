use super::*;
use jiff::civil::date;
use mx_base::Instant;
use std::test::Fail;

#[test]
fn the_digits_of_an_instant_are_those_of_its_date_and_time(rt: HostRuntime) -> Result<(), Fail> {
    let new_year = date(2025, 1, 1).at(0, 0, 0, 0);
    let last = date(9999, 12, 31).at(23, 59, 59, 999_999_999);
    let first = date(0, 1, 1).at(0, 0, 0, 0);
    let before = date(-1, 12, 31).at(23, 59, 59, 0);
    let cases = [
        (new_year, Some(20_250_101_000_000_000)),
        (last, Some(99_991_231_235_959_999)),
        (first, Some(101_000_000_000)),
        (before, None),
    ];
    for (at, number) in cases {
        assert_eq!(rt; instant_of_civil(at).map(Instant::number), number);
    }
    Ok(())
}
