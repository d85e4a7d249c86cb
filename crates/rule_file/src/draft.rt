//! The rules of a rule file, while its tables are read.
ghost use Rattle.std.specs.Prelude.{◌+◌, [], ◌≤◌, OnOk};
ghost use Rattle.rule_keys.specs.Entries.{Fit};
ghost use Rattle.rule_keys.specs.Keys.{keys_of};
ghost use Rattle.rule_file.specs.Draft.{IsRead, AreDraftOf, AddsRule, count_in};

use crate::rules::{
    BetweenList, DriftList, Format, RangeList, Rules, SpeedList, SwingList, TrustList, WeightList,
};
use crate::typed::{
    between_from, drift_from, range_from, speed_from, swing_from, trust_from, weight_from,
};
use rule_keys::{Entries, TableKind};
use sequence::Sequence;
use std::alloc::{AllocError, Global};

/// The rules that were read so far, kind by kind.
#[derive(Drop)]
pub(crate) struct Draft {
    pub(crate) speeds: SpeedList,
    pub(crate) swings: SwingList,
    pub(crate) drifts: DriftList,
    pub(crate) ranges: RangeList,
    pub(crate) trusts: TrustList,
    pub(crate) weights: WeightList,
    pub(crate) betweens: BetweenList,
}

/// No rules.
pub(crate) fn no_rules(alloc: Global) -> Draft
    ensures rules { AreDraftOf [] result }
    ensures count { count_in result ≤ 0 }
{
    Draft {
        speeds: Sequence::new(alloc),
        swings: Sequence::new(alloc),
        drifts: Sequence::new(alloc),
        ranges: Sequence::new(alloc),
        trusts: Sequence::new(alloc),
        weights: Sequence::new(alloc),
        betweens: Sequence::new(alloc),
    }
}

/// Adds the rule that the entries of a table of this kind mean.
pub(crate) fn push_rule(
    alloc: Global,
    draft: &mut Draft,
    kind: TableKind,
    entries: &Entries<'_>,
) -> Result<(), AllocError>
    requires fit { Fit (keys_of kind) entries.now }
    requires read { IsRead kind entries.now }
    ensures rules { OnOk result (AddsRule kind entries.now draft.old draft.new) }
    ensures count { OnOk result (count_in draft.new ≤ count_in draft.old + 1) }
{
    match kind {
        TableKind::Format => Ok(()),
        TableKind::Speed => draft.speeds.push(speed_from(alloc, entries)?),
        TableKind::Swing => draft.swings.push(swing_from(alloc, entries)?),
        TableKind::Drift => draft.drifts.push(drift_from(alloc, entries)?),
        TableKind::Range => draft.ranges.push(range_from(alloc, entries)?),
        TableKind::Trust => draft.trusts.push(trust_from(alloc, entries)?),
        TableKind::Weight => draft.weights.push(weight_from(alloc, entries)?),
        TableKind::Between => draft.betweens.push(between_from(alloc, entries)?),
    }
}
