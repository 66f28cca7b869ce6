//! The ticks and the other parts of a document: each is looked up once, and has its type from then
//! on.
ghost use Rattle.std.specs.Prelude.{◌≡◌, map, option_map, IfOk, None, Some};
ghost use Rattle.serde_json.specs.View.{view};
ghost use Rattle.zs_run.specs.declared.plan_fault.PlanFault.TheVariants as faults;
ghost use Rattle.zs_run.specs.Refusals.{Gives, demand_some};
ghost use Rattle.zs_run.specs.Tree.{all_of, as_whole, as_wholes};
ghost use Rattle.zs_run.specs.Shapes.{one_or_more};

use crate::plan_fault::PlanFault;
use crate::tree::{as_list, take_list, whole_or};
use serde_json::Value;
use std::alloc::Global;
use zs_agenda::Clock;

/// The ticks that a document has, which may be invalid for a clock.
#[derive(Drop)]
pub(crate) enum AskedTicks {
    /// Each millisecond up to a horizon.
    EveryMs(u64),
    /// The moments of a list.
    Listed(Vec<u64>),
}

/// The parts of a document beside its clock.
#[derive(Drop)]
pub(crate) struct DocumentParts {
    pub(crate) workers: u64,
    pub(crate) grain: u64,
    pub(crate) jobs: Vec<Value>,
}

// The whole numbers of a list.
fn wholes_of(alloc: Global, items: &[Value]) -> Result<Vec<u64>, PlanFault>
    ensures value { Gives (λ numbers. numbers.items) result
        (demand_some (all_of as_whole (map view items.now)) (faults.Shape None)) }
{
    let mut numbers = Vec::new(alloc);
    for item in items {
        let Some(number) = item.as_u64() else {
            return Err(PlanFault::Shape { job: None });
        };
        numbers.push(number)?;
    }
    Ok(numbers)
}

// The whole numbers of what has to be a list.
fn wholes_in(alloc: Global, value: &Value) -> Result<Vec<u64>, PlanFault>
    ensures value { Gives (λ numbers. numbers.items) result
        (demand_some (as_wholes (view value.now)) (faults.Shape None)) }
{
    let items = as_list(value).ok_or(PlanFault::Shape { job: None })?;
    wholes_of(alloc, items)
}

/// The number at a document's key `workers` or `grain`, or 1 if there is none.
pub(crate) fn one_or_more(document: &Value, key: &str) -> Option<u64>
    ensures value { result ≡ one_or_more key.now (view document.now) }
{
    whole_or(document, key, 1)
}

impl AskedTicks {
    ghost use Rattle.std.specs.Prelude.{if◌then◌else◌};
    ghost use Rattle.zs_agenda.specs.Tests.{is_clock};
    ghost use Rattle.zs_run.specs.Shapes.{ticks_asked};
    ghost use Rattle.zs_run.specs.ShapeViews.{asked_view, found_view};

    /// The ticks of a document, by its keys `horizon` and `ticks`: just one of the two.
    pub(crate) fn of(
        alloc: Global,
        horizon: Option<&Value>,
        ticks: Option<&Value>,
    ) -> Result<AskedTicks, PlanFault>
        ensures value { Gives asked_view result (demand_some
            (ticks_asked (found_view horizon.entry) (found_view ticks.entry)) (faults.Shape None)) }
    {
        match (horizon, ticks) {
            (Some(horizon), None) => {
                let last = horizon.as_u64().ok_or(PlanFault::Shape { job: None })?;
                Ok(AskedTicks::EveryMs(last))
            }
            (None, Some(ticks)) => Ok(AskedTicks::Listed(wholes_in(alloc, ticks)?)),
            _ => Err(PlanFault::Shape { job: None }),
        }
    }

    /// The clock of these ticks, if they are valid.
    pub(crate) fn into_clock(self) -> Option<Clock>
        ensures value { result
            ≡ (if is_clock (asked_view self) then Some (asked_view self) else None) }
    {
        match self {
            AskedTicks::EveryMs(last) => Clock::every_ms(last),
            AskedTicks::Listed(ticks) => Clock::of_ticks(ticks),
        }
    }
}

impl DocumentParts {
    ghost use Rattle.zs_run.specs.Shapes.{document_parts};
    ghost use Rattle.zs_run.specs.ShapeViews.{document_view};

    /// The parts of a document, if all are there and have their types. The list of jobs is taken
    /// out of it.
    #[tactic(auto, unfolding(crate::specs::Shapes::document_parts))]
    pub(crate) fn of(alloc: Global, document: &mut Value) -> Option<DocumentParts>
        ensures value { option_map document_view result ≡ document_parts (view document.old) }
    {
        let workers = one_or_more(document, "workers")?;
        let grain = one_or_more(document, "grain")?;
        let jobs = take_list(alloc, document, "jobs")?;
        Some(DocumentParts {
            workers,
            grain,
            jobs,
        })
    }
}
