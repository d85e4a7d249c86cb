//! Laws of the repaired rows and of the output. The contract of a function is the law; the call does nothing.
ghost use Rattle.online_repair.specs.Laws.{OutputsAreOne, OutputsExist, RefusalsStay, RepairsCostLeast, RepairsKeepRates};

use series_csv::{files_have_answers, one_answer, read_stays};

/// The bytes of a file have one output only.
pub fn outputs_are_one()
    ensures { OutputsAreOne }
{
    one_answer();
}

/// All bytes have an output by all rules, whether the file has ended or goes on.
pub fn outputs_exist()
    ensures { OutputsExist }
{
    files_have_answers();
}

/// What is refused at a front of a file is refused whatever follows, and whether it has ended: for the same reason, and
/// with the same text.
pub fn refusals_stay()
    ensures { RefusalsStay }
{
    one_answer();
    read_stays();
}

/// In every file, each reading that a rule speaks of is repaired to a value of the least local cost: of all whole numbers,
/// or, where the previous reading of the sensor lies within the window, of all that the steps allow after its value.
pub fn repairs_cost_least()
    ensures { RepairsCostLeast }
{
    online_values::results_cost_least();
}

/// In every file, the repaired values of any two readings of a sensor obey its speed rule.
pub fn repairs_keep_the_rates()
    ensures { RepairsKeepRates }
{
    online_values::results_keep_the_rates();
}
