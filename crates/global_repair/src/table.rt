//! The repair of a table.
ghost use Rattle.std.specs.Prelude.{◌≡◌, ◌≢◌, ◌<◌, ◌≤◌, length, IfOk, IfErr};
ghost use Rattle.bound_maker.specs.declared.maker.TheConstants.{MOST_BOUNDS};
ghost use Rattle.bound_maker.specs.Bounds.{made_bounds};
ghost use Rattle.bound_maker.specs.Costs.{made_problem, whole_problem};
ghost use Rattle.least_cost.specs.Answer.{Answers, CountsChanges};
ghost use Rattle.global_repair.specs.declared.fault.RepairFault.TheVariants.{Memory};

use crate::fault::RepairFault;
use crate::lists::prices;
use bound_maker::{
    best_over_made, made_bind_all, made_is_a_part, make, names_are_distinct, problem_is_sound,
    weights_of,
};
use flow_core::Solver;
use least_cost::{Outcome, Problem, least_cost};
use rule_file::Rules;
use series_csv::Table;
use std::alloc::Global;

/// The repair of a table under all bounds of its rules, or a cycle of bounds that shows that no series obeys them.
///
/// The solver works on the bounds that are made, from which the others follow. All memory for it is taken before it begins.
///
/// # Errors
///
/// `TooManyBounds` exactly where more than 4,000,000 bounds would be made. `Memory` may come at any time.
pub fn repair<V: Solver>(
    alloc: Global,
    table: &Table,
    rules: &Rules,
    solver: &mut V,
) -> Result<Outcome, RepairFault>
    // Over all bounds: the greatest of the series that cost least, with a flow that shows it; or a cycle that forbids all.
    ensures answer { IfOk result (Answers (whole_problem rules.now table.now)) }
    // The flow is over the bounds that are made, and so are the changes counted.
    ensures made { IfOk result (Answers (made_problem rules.now table.now)) }
    ensures changes { IfOk result (CountsChanges (made_problem rules.now table.now) (V.most solver.new) (V.last solver.new)) }
    ensures few { IfOk result (λ outcome. length (made_bounds rules.now table.now) ≤ MOST_BOUNDS) }
    ensures too_many { IfErr result (λ fault. fault ≢ Memory → MOST_BOUNDS < length (made_bounds rules.now table.now)) }
    ensures most_stays { V.most solver.new ≡ V.most solver.old }
{
    // The laws that show the clauses; they do nothing.
    made_is_a_part();
    names_are_distinct(table, rules);
    made_bind_all(table, rules);
    best_over_made(table, rules);
    problem_is_sound(table, rules);
    // There are not too many readings.
    let _count = table.len();
    let places = table.places();
    let bounds = make(alloc, table, rules)?;
    let weights = weights_of(alloc, table, rules)?;
    let prices = prices(alloc, rules, &bounds)?;
    let problem = Problem {
        places,
        values: table.series(),
        weights: weights.as_slice(),
        bounds: &bounds,
        prices: prices.as_slice(),
    };
    Ok(least_cost(alloc, &problem, solver)?)
}
