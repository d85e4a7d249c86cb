//! Laws of what files are read as.
ghost use Rattle.screen_steps.specs.Files.{CertsAreOne, RulesAreOne, ReadingsAreOne};

/// The rules are read as one thing only, and so are the readings by any rules, and a certificate by any rules and table.
pub fn files_are_one()
    ensures rules { RulesAreOne }
    ensures readings { ReadingsAreOne }
    ensures certs { CertsAreOne }
{
    rule_file::one_answer();
    series_csv::one_answer();
    cert_check::one_answer();
}
