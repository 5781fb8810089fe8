// Which dates are real, and the headings made of them.
ghost use Rattle.std.specs.Prelude.{◌≡◌};
ghost use Rattle.dayfile.specs.Calendar.{days_in, leap_year, real_heading};
ghost use Rattle.dayfile.specs.Headings.{HeadingsAreMade, HeadingsAreTheirFields, HeadingsEqualByFields, heading_of};

use crate::heading::Heading;

fn is_leap_year(year: u16) -> bool
    ensures { result ≡ leap_year year }
{
    year % 4 == 0 && (year % 100 != 0 || year % 400 == 0)
}

// How many days the month has; 31 for a number that is no month.
fn days_in_month(year: u16, month: u8) -> u8
    ensures { result ≡ days_in year month }
{
    match month {
        2 => { if is_leap_year(year) { 29 } else { 28 } }
        4 | 6 | 9 | 11 => 30,
        _ => 31,
    }
}

// May a heading hold these? Seven parameters, since the one struct of them is a heading, and no heading is unreal.
fn is_real(
    year: u16,
    month: u8,
    day: u8,
    hours: u8,
    accounts: u8,
    nodes: u8,
    interconnections: u8,
) -> bool
    ensures { result ≡ real_heading year month day hours accounts nodes interconnections }
{
    matches!(
        (year, month, hours, accounts, nodes, interconnections),
        (2016..=2099, 1..=12, 23..=25, 1..=32, 1..=16, 0..=8)
    ) && (1..=days_in_month(year, month)).contains(&day)
}

impl Heading {
    // The heading with these fields, if they are real ones.
    pub fn new(
        year: u16,
        month: u8,
        day: u8,
        hours: u8,
        accounts: u8,
        nodes: u8,
        interconnections: u8,
    ) -> Option<Heading>
        ensures { result ≡ heading_of year month day hours accounts nodes interconnections }
    {
        if !is_real(year, month, day, hours, accounts, nodes, interconnections) {
            return None;
        }
        Some(Heading {
            year,
            month,
            day,
            hours,
            accounts,
            nodes,
            interconnections,
        })
    }
}

// A heading holds nothing but its fields: every heading is the one that they make, and two with the same fields are one.
pub fn headings_stand()
    ensures made { HeadingsAreMade }
    ensures same { HeadingsAreTheirFields }
    ensures equal { HeadingsEqualByFields }
{}
