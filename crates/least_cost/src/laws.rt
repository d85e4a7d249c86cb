//! That a repair is one only.
ghost use Rattle.least_cost.specs.Repair.{RepairIsOne};

/// A problem has one repair only.
pub fn repair_is_one()
    ensures { RepairIsOne }
{}
