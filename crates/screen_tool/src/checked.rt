//! The steps of the commands that check a certificate.
ghost use Rattle.std.specs.Prelude.{◌≡◌, ◌≢◌, Err, MatchResult};
ghost use Rattle.screen_tool.specs.Checking.{EndsUnchecked, IsChecked};

use bound_maker::make;
use cert_check::{Accepted, accepted_is_true};
use rule_file::Rules;
use screen_io::Source;
use screen_steps::{accepted_from, files_are_one, rules_from, table_from};
use screen_words::{Ending, Inputs, Outcome};
use series_csv::Table;
use std::alloc::Global;

/// What the rules, the readings and the certificate are accepted as.
#[derive(Drop)]
pub(crate) struct Checked {
    pub(crate) rules: Rules,
    pub(crate) table: Table,
    pub(crate) accepted: Accepted,
}

/// Reads the rules and the readings, makes the bounds, and then reads the certificate and checks it.
pub(crate) fn check_files<S: Source>(alloc: Global, ins: &mut Inputs<S>) -> Result<Checked, Ending>
    ensures checked { MatchResult result (IsChecked S.left S.faults ins.old ins.new) (EndsUnchecked S.left S.faults ins.old ins.new) }
    ensures no_usage { result ≢ Err (Ending.Ended Outcome.Usage) }
    ensures no_done { result ≢ Err (Ending.Ended Outcome.Done) }
{
    // The law that shows where the command stops; it does nothing.
    files_are_one();
    let rules = rules_from(alloc, &mut ins.rules)?;
    let table = table_from(alloc, &rules, &mut ins.readings)?;
    // The law that shows that what is accepted is true; it does nothing.
    accepted_is_true(&table, &rules);
    let bounds = make(alloc, &table, &rules)?;
    let accepted = accepted_from(alloc, &rules, &table, &bounds, &mut ins.cert)?;
    Ok(Checked {
        rules,
        table,
        accepted,
    })
}
