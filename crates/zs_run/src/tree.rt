//! A JSON document from bytes, and look-ups in it.
ghost use Rattle.std.specs.Prelude.{◌≡◌, ℕ, List, map, option_map, string_bytes};
ghost use Rattle.std.specs.List.{list_all};
ghost use Rattle.serde_json.specs.View.{view};
ghost use Rattle.serde_json.specs.Find.{get};
ghost use Rattle.std.specs.BTreeMap.{keys};
ghost use Rattle.zs_run.specs.declared.plan_fault.PlanFault.TheVariants as faults;
ghost use Rattle.zs_run.specs.Refusals.{Gives};
ghost use Rattle.zs_run.specs.Plan.{document_of};
ghost use Rattle.zs_run.specs.Tree.{as_list, find_whole, find_text, find_list, whole_or, is_one_of, has_only_keys};

use crate::plan_fault::PlanFault;
use serde_json::{Map, Value};
use std::alloc::Global;
use std::mem;

/// The most bytes of a plan.
pub const MAX_BYTES: usize = 16_777_216;

/// The document that the bytes are.
#[tactic(auto, using(crate::proofs::Trees::tree_of_text, crate::proofs::Trees::tree_of_none))]
pub(crate) fn read_tree(alloc: Global, bytes: &[u8]) -> Result<Value, PlanFault>
    ensures value { Gives view result (document_of bytes.now) }
{
    if bytes.len() > MAX_BYTES {
        return Err(PlanFault::TooLong);
    }
    match Value::from_slice(alloc, bytes) {
        Ok(value) => Ok(value),
        Err(error) if error.is_memory() => Err(PlanFault::Memory),
        Err(_) => Err(PlanFault::Json),
    }
}

/// Returns the whole number at the key.
pub(crate) fn whole(value: &Value, key: &str) -> Option<u64>
    ensures value { result ≡ find_whole key.now (view value.now) }
{
    value.get(key).and_then(Value::as_u64)
}

/// Returns the text at the key.
pub(crate) fn text<'v>(value: &'v Value, key: &str) -> Option<&'v str>
    ensures value { option_map (λ s. s.now) result ≡ find_text key.now (view value.now) }
{
    value.get(key).and_then(Value::as_str)
}

/// Returns the items of a list.
#[tactic(auto, using(crate::proofs::Trees::list_of_view))]
pub(crate) fn as_list(value: &Value) -> Option<&[Value]>
    ensures value { option_map (λ vs. map view vs.now) result ≡ as_list (view value.now) }
{
    value.as_array().map(|items| items.as_slice())
}

/// Returns the list at the key.
pub(crate) fn list<'v>(value: &'v Value, key: &str) -> Option<&'v [Value]>
    ensures value { option_map (λ vs. map view vs.now) result ≡ find_list key.now (view value.now) }
{
    as_list(value.get(key)?)
}

/// Takes the list at the key out of the tree, so that each item can be dropped as soon as it is
/// read.
#[tactic(auto, using(crate::proofs::Trees::list_of_view))]
pub(crate) fn take_list(alloc: Global, value: &mut Value, key: &str) -> Option<Vec<Value>>
    ensures value { option_map (λ vs. map view vs.items) result
        ≡ find_list key.now (view value.old) }
{
    let items = value.get_mut(key)?.as_array_mut()?;
    Some(mem::replace(items, Vec::new(alloc)))
}

/// Returns the whole number at the key, or the default if there is none.
pub(crate) fn whole_or(value: &Value, key: &str, default: u64) -> Option<u64>
    ensures value { result ≡ whole_or default (get key.now (view value.now)) }
{
    value.get(key).map_or(Some(default), Value::as_u64)
}

// Whether the text is in the list.
#[tactic(auto, using(crate::proofs::Trees::list_any_map))]
fn is_among(known: &[&str], key: &str) -> bool
    ensures value { result ≡ is_one_of (map (λ k. k.now) known.now) key.now }
{
    known.contains(&key)
}

// Whether each key is in the list.
fn keys_are_among(members: &Map<String, Value>, known: &[&str]) -> bool
    ensures value { result ≡ list_all (λ k.
        is_one_of (map (λ k. k.now) known.now) (string_bytes k)) (keys members.now) }
{
    members.keys().all(|key| is_among(known, key.as_str()))
}

/// Whether an object has no key but the known ones.
#[tactic(auto, using(crate::proofs::Trees::list_all_keys))]
pub(crate) fn has_only_keys(value: &Value, known: &[&str]) -> bool
    ensures value { result ≡ has_only_keys (map (λ k. k.now) known.now) (view value.now) }
{
    value
        .as_object()
        .is_none_or(|members| keys_are_among(members, known))
}
