//! The charts of the basic blocks that are opened: one for each type.

ghost use Rattle.std.specs.Prelude.{◌≡◌, IfOk, IfSome, OnOk};
ghost use Rattle.std.specs.BTreeMap.{get};
ghost use Rattle.std.specs.Ordering.{nat_cmp};
ghost use Rattle.fb_ecc.specs.Opened.{IsOfDeclaration};
ghost use Rattle.fb_ecc.specs.Programs.{IsSharedOf};
ghost use Rattle.fb_net.specs.Opening.{ChartsGrow};

use fb_ecc::SharedChart;
use fb_types::BasicType;
use std::alloc::{AllocError, Global};
use std::collections::BTreeMap;

/// The charts that were made so far, by the indexes of their types in the library.
pub type Charts = BTreeMap<usize, SharedChart, Global>;

/// The chart of the type at an index of the library. It is made with the first block of the type, and shared by all.
pub(crate) fn chart_at(
    alloc: Global,
    block: &BasicType,
    index: usize,
    charts: &mut Charts,
) -> Result<SharedChart, AllocError>
    requires declared { IsOfDeclaration block.now }
    requires known { IfSome (get nat_cmp charts.old index) (IsSharedOf block.now) }
    ensures chart { IfOk result (IsSharedOf block.now) }
    ensures charts { OnOk result (ChartsGrow charts.old index block.now charts.new) }
{
    if let Some(chart) = charts.get(&index) {
        return chart.share();
    }
    let chart = SharedChart::of(alloc, block)?;
    let kept = chart.share()?;
    charts.insert(index, kept)?;
    Ok(chart)
}
