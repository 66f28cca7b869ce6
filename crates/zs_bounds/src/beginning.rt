//! The state after the first step, added to those in which a node may be.

ghost use Rattle.std.specs.Prelude.{◌≡◌};
ghost use Rattle.zs_bounds.specs.Node.{node_begun, node_state, KnowsFirsts, SameNode};

use crate::decisions::more_items;
use crate::node::Node;
use crate::span::Span;

// Adds the state after the first step to those of a node that may begin. It is the node's only
// state if the node was not on.
pub(crate) fn begin(begins: bool, is_on: bool, node: &mut Node)
    requires firsts { KnowsFirsts node.old }
    ensures state { node_state node.new ≡ node_begun begins is_on node.old }
    ensures same { SameNode node.old node.new }
{
    if !begins {
        return;
    }
    match node {
        Node::Leaf(_, steps, time) => {
            *steps = steps.begin(is_on, Span::one(1));
            *time = time.begin(is_on, Span::one(0));
        }
        Node::Both(first, second) => {
            begin(true, is_on, first);
            begin(true, is_on, second)
        }
        Node::Either(first, second) => {
            begin(true, is_on, first);
            begin(true, is_on, second)
        }
        Node::AndThen(turns, first, second) => {
            let (goes_on, stops) = (turns.begins.may_go_on(), turns.begins.stops);
            let (left, right) = (is_on && turns.first_on, is_on && turns.second_on);
            turns.first_on = left || goes_on;
            turns.second_on = right || stops;
            begin(!is_on || goes_on, left, first);
            begin(!is_on || stops, right, second)
        }
        Node::CollectAll(part, first, items) => {
            *items = items.begin(is_on, more_items(*first, Span::one(0)));
            begin(true, is_on, part)
        }
        Node::WhileInput(part, _) => begin(true, is_on, part),
        Node::WhileOutput(part, _, _) => begin(true, is_on, part),
        Node::Map(part, _) => begin(true, is_on, part),
        Node::ResetWhen(part, _, _, _) => begin(true, is_on, part),
    }
}
