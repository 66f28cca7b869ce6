//! The tasks of a run, each in the slot of its job. A slot is empty while its task is polled.
ghost use Rattle.std.specs.Prelude.{List, ◌≡◌, Some, None, slice_get, slice_set, OnOk, IfOk};
ghost use Rattle.zs_drive.specs.Tasks.{TaskValue};
ghost use Rattle.zs_engine.specs.Slots.{Picks, emptied, IsDistinct};

use crate::fault::EngineFault;
use zs_drive::Task;

// Takes the task out of one slot.
fn take_task(slots: &mut Vec<Option<Task>>, number: u64) -> Task
    requires filled { (task : TaskValue) × (slice_get slots.old.items number ≡ Some (Some task)) }
    ensures taken { slice_get slots.old.items number ≡ Some (Some result) }
    ensures emptied { slots.new.items ≡ slice_set slots.old.items number None }
{
    let slot = &mut slots[number as usize];
    let Some(task) = slot.take() else {
        unreachable!();
    };
    task
}

// Takes the tasks out of these slots, in order, into a list in place of what it has.
pub(crate) fn take_tasks(
    slots: &mut Vec<Option<Task>>,
    numbers: &[u64],
    mut tasks: Vec<Task>,
) -> Result<Vec<Task>, EngineFault>
    requires filled { (tasks : List TaskValue) × Picks slots.old.items numbers.now tasks }
    requires distinct { IsDistinct numbers.now }
    ensures picks { IfOk result (λ tasks. Picks slots.old.items numbers.now tasks.items) }
    ensures emptied { OnOk result (slots.new.items ≡ emptied slots.old.items numbers.now) }
{
    tasks.clear();
    for number in numbers {
        tasks.push(take_task(slots, *number))?;
    }
    Ok(tasks)
}
