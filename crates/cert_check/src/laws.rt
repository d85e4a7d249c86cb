//! Laws of what certificates are accepted as.
ghost use Rattle.cert_check.specs.Laws.{AcceptedIsTrue, AnAnswer, OneAnswer, ShownIsShort, TruthIsAccepted};

use bound_maker::{made_bind_all, made_is_a_part, names_are_distinct, problem_is_sound};
use cert_format::{sets_tell_series, short_texts};
use rule_file::Rules;
use screen_model::{best_costs_least, blocked_forbids, items_within_prices};
use series_csv::Table;

/// A text has one answer only: one claim that is accepted, or one fault.
pub fn one_answer()
    ensures { OneAnswer }
{
    cert_format::one_answer();
}

/// Every text has an answer: a claim that is accepted, or a fault.
pub fn an_answer()
    ensures { AnAnswer }
{
    cert_format::an_answer();
}

/// What is accepted is true: a repair obeys all bounds, its flow shows that no series that obeys costs less, and its total
/// and what is paid are those of its series; and where a cycle is accepted no series obeys.
pub fn accepted_is_true(table: &Table, rules: &Rules)
    ensures { AcceptedIsTrue rules.now table.now }
{
    let _rules = rules;
    let _places = table.places();
    names_are_distinct(table, rules);
    problem_is_sound(table, rules);
    made_bind_all(table, rules);
    items_within_prices();
    best_costs_least();
    blocked_forbids();
}

/// What is shown is accepted: the text of a certificate of a series that a flow shows to be best, and that of a cycle of
/// bounds that shows that no series obeys.
pub fn truth_is_accepted(table: &Table, rules: &Rules)
    ensures { TruthIsAccepted rules.now table.now }
{
    let _places = table.places();
    names_are_distinct(table, rules);
    made_is_a_part();
    items_within_prices();
    sets_tell_series();
}

/// A certificate of what is shown has a text that is not too long, where its flow has no more items than bounds may be made.
pub fn shown_is_short(table: &Table, rules: &Rules)
    ensures { ShownIsShort rules.now table.now }
{
    let _places = table.places();
    let _count = table.len();
    names_are_distinct(table, rules);
    problem_is_sound(table, rules);
    short_texts();
}
