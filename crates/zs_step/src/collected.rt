//! The outputs that a `collectAll` has collected.

ghost use Rattle.std.specs.Prelude.{◌≡◌, false, OnOk};
ghost use Rattle.zs_term.specs.Output.{output_of, none, count, with_last};

use crate::decision::Decision;
use std::alloc::{AllocError, Global};
use std::mem::drop;
use zs_term::{Out, Outs};

// The outputs of the steps before the last one at which the part continued. If the part continued
// at the last step, its output there is due: it joins the list before the next step.
#[derive(Drop)]
pub(crate) struct Collected {
    pub(crate) list: Outs,
    pub(crate) due: bool,
}

impl Collected {
    ghost use Rattle.zs_step.specs.Answer.{is_next};
    ghost use Rattle.zs_step.specs.Collected.{earlier_outputs};

    // Starts with nothing collected.
    pub(crate) fn nothing(alloc: Global) -> Collected
        ensures value { earlier_outputs result ≡ none }
        ensures joined { result.due ≡ false }
    {
        Collected {
            list: Outs::new(Vec::new(alloc)),
            due: false,
        }
    }

    // Returns the number of outputs of the steps before the last one.
    #[tactic(auto, using(crate::proofs::Steps::count_items))]
    pub(crate) fn len(&self) -> u64
        ensures value { result ≡ count (earlier_outputs self.now) }
    {
        self.list.items().len() as u64
    }

    // Appends the output that is due. The list then shares its memory with copies of it.
    pub(crate) fn join(&mut self, last: Out) -> Result<(), AllocError>
        ensures joined { OnOk result
            (earlier_outputs self.new ≡ with_last (earlier_outputs self.old) (output_of last)) }
        ensures due { OnOk result (self.new.due ≡ false) }
    {
        self.list.push(last)?;
        self.due = false;
        drop(self.list.share()?);
        Ok(())
    }

    // The output of the part's last step is due if the part continued.
    pub(crate) fn follow(&mut self, decision: Decision)
        ensures due { self.new.due ≡ is_next decision }
        ensures same { self.new.list ≡ self.old.list }
    {
        self.due = decision.is_next();
    }
}
