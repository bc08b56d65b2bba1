// The figures of the third section: days against limits.
ghost use Rattle.std.specs.Prelude.{◌≡◌, true};
ghost use Rattle.station.specs.Months.{days_of};
ghost use Rattle.layout.specs.declared.section.Section.TheVariants.{Third};
ghost use Rattle.layout.specs.Tables.{groups_of, rows_of};
ghost use Rattle.layout.specs.Laid.{figures_fit};
ghost use Rattle.section_figures.specs.Third.{days_at, third_figures};

use columns::limit::Limit;
use columns::month::ObservedMonth;
use columns::table::report_limits;
use daybook::source::DaySource;
use figures::days::days_at_limit;

// The days that meet a limit.
fn days_at<S: DaySource>(month: ObservedMonth<'_, S>, limit: Limit) -> Option<u32>
    ensures { result ≡ days_at (S.grid month.entry.source.now) (days_of month.entry.calendar) limit }
{
    days_at_limit(month, limit).map(u32::from)
}

pub fn third_figures<S: DaySource>(month: ObservedMonth<'_, S>) -> [Option<u32>; 22]
    ensures value { result ≡ third_figures (S.grid month.entry.source.now) (days_of month.entry.calendar) }
    ensures fits { figures_fit (days_of month.entry.calendar) (groups_of Third) (rows_of Third) (third_figures (S.grid month.entry.source.now) (days_of month.entry.calendar)) ≡ true }
{
    report_limits().map(|limit| days_at(month, limit))
}
