//! Laws of what the commands answer.
ghost use Rattle.screen_tool.specs.Answers.{OneOutcome, OneText, RestsOnRead};

use screen_steps::files_are_one;

/// A command comes to one outcome only, whatever its sources hold and whatever text it may choose.
pub fn one_outcome()
    ensures { OneOutcome }
{
    files_are_one();
    online_repair::outputs_are_one();
    online_repair::refusals_stay();
}

/// The text of the output is one only, whatever flow is found. So a repaired file is a function of the two files that it is
/// made from.
pub fn one_text()
    ensures { OneText }
{
    files_are_one();
    online_repair::outputs_are_one();
    online_repair::refusals_stay();
    least_cost::repair_is_one();
}

/// An answer rests on no more of the sources than it reads.
pub fn rests_on_read()
    ensures { RestsOnRead }
{}
