//! What holds of the problem that rules make of a table.
ghost use Rattle.bound_maker.specs.Sound.{IsSound};

use rule_file::Rules;
use series_csv::Table;

/// The problem that is made is sound: both ends of each bound are Zero or readings, no limit is greater than 4·10^15 units
/// in size, and so it is for all bounds; each reading has a weight of at most 1,000, and no price is greater than 1,000.
pub fn problem_is_sound(table: &Table, rules: &Rules)
    ensures { IsSound rules.now table.now }
{
    let _rules = rules;
    let _series = table.series();
}
