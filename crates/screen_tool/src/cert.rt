//! The certificates that commands write.
ghost use Rattle.std.specs.Prelude.{◌≡◌, [], ◌++◌, length, IfOk, OnOk};
ghost use Rattle.cert_format.specs.declared.cert.SetLine.{SetLine};
ghost use Rattle.cert_format.specs.Sets.{sets_of, with_set};
ghost use Rattle.series_csv.specs.Readings.{places, values};
ghost use Rattle.screen_tool.specs.Certificates.{cert_of, repair_cert};
ghost use Rattle.screen_tool.specs.Global.{IsFoundFor};

use crate::prices::has_price;
use cert_format::{Cert, SetLine, SetList};
use global_repair::Outcome;
use rule_file::Rules;
use screen_model::{FlowList, Place, Series};
use series_csv::Table;
use std::alloc::{AllocError, Global};

/// The certificate of what was found for a table.
pub(crate) fn cert_of(
    alloc: Global,
    rules: &Rules,
    table: &Table,
    found: Outcome,
) -> Result<Cert, AllocError>
    requires { IsFoundFor rules.now table.now found }
    ensures { IfOk result (λ cert. cert ≡ cert_of rules.now table.now found) }
{
    match found {
        Outcome::Repaired {
            series,
            flow,
            total,
            paid,
            changes: _,
        } => {
            let sets = sets_of(
                alloc,
                table.places().as_slice(),
                table.series().as_slice(),
                series.as_slice(),
            )?;
            Ok(repair_cert(rules, total, paid, sets, flow))
        }
        Outcome::NoSeries { cycle } => Ok(Cert::NoSeries { steps: cycle }),
    }
}

/// The certificate of a repair. Where some rule has a price it also says what is paid.
fn repair_cert(rules: &Rules, total: i128, paid: i128, sets: SetList, flow: FlowList) -> Cert
    ensures { result ≡ repair_cert rules.now total paid sets flow }
{
    if has_price(rules) {
        Cert::Priced {
            total,
            paid,
            sets,
            flow,
        }
    } else {
        Cert::Repair { total, sets, flow }
    }
}

/// The readings that a series changes, in their order, each with its new value.
fn sets_of(
    alloc: Global,
    places: &[Place],
    values: &[i64],
    series: &[i64],
) -> Result<SetList, AllocError>
    requires values { length values.now ≡ length places.now }
    requires series { length series.now ≡ length places.now }
    ensures { IfOk result (λ sets. sets ≡ sets_of places.now values.now series.now) }
{
    let mut sets = SetList::new(alloc);
    for (i, place) in places.iter().enumerate() {
        push_set(&mut sets, *place, values[i], series[i])?;
    }
    Ok(sets)
}

/// Adds the set line of a reading, if its value is another one.
fn push_set(sets: &mut SetList, place: Place, value: i64, new: i64) -> Result<(), AllocError>
    ensures { OnOk result (sets.new ≡ sets.old ++ with_set place value new []) }
{
    if new != value {
        sets.push(SetLine { place, value: new })?;
    }
    Ok(())
}
