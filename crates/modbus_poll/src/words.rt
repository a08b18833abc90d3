//! The values of items, from the words that the reads of a plan gave.
ghost use Rattle.std.specs.Prelude.{◌≡◌, ◌<◌, true, [], length, slice_index_or, IfOk};
ghost use Rattle.modbus_poll.specs.Items.{width, lies_in, gives, covers};
ghost use Rattle.modbus_poll.specs.Words.{AreWordsOf, words_of_read, value_among, values_among};

use crate::item::Item;
use crate::plan::Plan;
use crate::read::Read;
use crate::value::{Value, value_of};
use modbus_frame::{Word, Words};
use std::alloc::{AllocError, Global};

/// The words that the read at this place gave.
fn words_at(found: &[Words], place: usize) -> &[Word]
    requires { place < length found.now }
    ensures { result.now ≡ slice_index_or found.now place [] }
{
    match found.get(place) {
        Some(words) => words.as_slice(),
        None => unreachable!(),
    }
}

/// The words of an item that lies in this read, from those that the read gave.
#[tactic(auto, using(crate::proofs::Tests::lies_between))]
fn words_in<'a>(read: &Read, words: &'a [Word], item: &Item) -> &'a [Word]
    requires lies { lies_in item.now read.now ≡ true }
    requires count { length words.now ≡ read.now.count }
    ensures words { result.now ≡ words_of_read read.now words.now item.now }
    ensures length { length result.now ≡ width item.now.kind }
{
    let start = usize::from(item.address - read.address);
    let end = start + usize::from(item.kind.width());
    &words[start..end]
}

/// The value of an item that lies in a read of the plan, from the words that each read gave.
fn value_among(
    alloc: Global,
    plan: &Plan,
    found: &[Words],
    item: &Item,
) -> Result<Value, AllocError>
    requires given { gives plan.now item.now ≡ true }
    requires words { AreWordsOf plan.now found.now }
    ensures { IfOk result (λ value. value ≡ value_among plan.now found.now item.now) }
{
    match plan.read_of(item) {
        Some(place) => {
            let words = words_in(&plan.reads()[place], words_at(found, place), item);
            value_of(alloc, item.kind, words)
        }
        None => unreachable!(),
    }
}

/// The values of items, in their order, from the words that each read of the plan gave. The value of an item is that of its words in the
/// first read in which it lies.
///
/// # Errors
/// `AllocError` where memory is refused.
pub fn values_among(
    alloc: Global,
    plan: &Plan,
    found: &[Words],
    items: &[Item],
) -> Result<Vec<Value>, AllocError>
    requires covered { covers plan.now items.now ≡ true }
    requires words { AreWordsOf plan.now found.now }
    ensures { IfOk result (λ values. values.items ≡ values_among plan.now found.now items.now) }
{
    let mut values = Vec::with_capacity(alloc, items.len())?;
    for item in items {
        let value = value_among(alloc, plan, found, item)?;
        values.push_reserved(value);
    }
    Ok(values)
}
