//! The least sizes of a schedule that has been read in part. Past a limit its terms are dropped.

ghost use Rattle.std.specs.Prelude.{◌≡◌, [], map, true, false};
ghost use Rattle.zs_term.specs.Parts.{stack_of, state_in, joined_onto, sizes_frame, without_term};
ghost use Rattle.zs_term.specs.Totals.{whole, ArePast, Watches};

use crate::limits::{MAX_DEPTH, MAX_WEIGHT};
use crate::parser::{Joined, Parser, Stage};

// Returns depth and weight of all open forms, if the term in hand has these.
#[tactic(auto, using(crate::proofs::Stacks::joined_push, crate::proofs::Stacks::whole_bare))]
fn whole_sizes(joined: &[Joined], depth: u64, weight: u64) -> (u64, u64)
    ensures value { result ≡ whole (joined_onto [] joined.now) (depth, weight) }
{
    match joined.split_last() {
        None => (depth, weight),
        Some((last, rest)) => {
            let depth = last.left.depth.max(depth).saturating_add(1);
            let weight = last.left.weight.saturating_add(weight);
            whole_sizes(rest, depth, weight.saturating_add(1))
        }
    }
}

// Drops the term of each left part.
fn drop_terms(forms: &mut [Joined])
    ensures value { forms.new ≡ map without_term forms.old }
{
    for form in forms.iter_mut() {
        form.left.term = None;
    }
}

impl Parser {
    // Drops all terms if the schedule is past a limit once the term in hand has these sizes.
    // Returns whether it is.
    #[tactic(auto, using(crate::proofs::Stacks::stack_sizes, crate::proofs::Stacks::whole_bare))]
    fn drop_past(&mut self, depth: u64, weight: u64) -> bool
        ensures same { result ≡ false
            → (stack_of self.new ≡ stack_of self.old) × (self.new.build ≡ self.old.build) }
        ensures built { result ≡ true → (self.old.build ≡ true) × (self.new.build ≡ false) }
        ensures past { result ≡ true → ArePast (whole (stack_of self.old) (depth, weight)) }
        ensures sizes { result ≡ true
            → stack_of self.new ≡ map sizes_frame (stack_of self.old) }
    {
        if !self.build {
            return false;
        }
        let (depth, weight) = whole_sizes(&self.joined, depth, weight);
        if depth <= MAX_DEPTH && weight <= MAX_WEIGHT {
            return false;
        }
        self.build = false;
        drop_terms(&mut self.joined);
        true
    }

    /// Drops all terms if the next node is past a limit, whatever follows. The parser then goes on
    /// with sizes alone.
    pub(crate) fn watch(&mut self, stage: &mut Stage)
        ensures value { Watches self.old.build self.new.build (state_in self.old stage.old)
            (state_in self.new stage.new) }
    {
        match stage {
            Stage::Start => {
                self.drop_past(1, 1);
            }
            Stage::Dotted(part) => {
                let weight = part.weight.saturating_add(1);
                if self.drop_past(part.depth.saturating_add(1), weight) {
                    part.term = None;
                }
            }
            Stage::Comparing(part, subject, _) => {
                let weight = subject.weight_over(part.weight);
                if self.drop_past(part.depth.saturating_add(1), weight) {
                    part.term = None;
                }
            }
            _ => {}
        }
    }
}
