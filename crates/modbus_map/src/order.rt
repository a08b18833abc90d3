//! The orders of bytes: the numbers of words.
ghost use Rattle.std.specs.Prelude.{◌≡◌, ◌+◌, ◌*◌, ◌^◌, ◌<◌, ◌≤◌, length, IfOk, IfSome, IfNone};
ghost use Rattle.modbus_map.specs.Orders.{word_in, low_first, from_low, number_in};

use crate::kind::ByteOrder;
use modbus_frame::Word;
use std::alloc::{AllocError, Global};

/// How many numbers there are of one word.
const WORDS: u64 = 0x1_0000;

impl ByteOrder {
    /// What a word of a register is in this order: itself, or with its bytes the other way round.
    pub(crate) fn word(self, word: Word) -> Word
        ensures { result ≡ word_in self word }
    {
        match self {
            ByteOrder::Abcd | ByteOrder::Cdab => word,
            ByteOrder::Badc | ByteOrder::Dcba => word.swap_bytes(),
        }
    }
}

/// The least significant of words, and those above it.
fn split_low(order: ByteOrder, words: &[Word]) -> Option<(&Word, &[Word])>
    ensures none { IfNone result (length words.now ≡ 0) }
    ensures value { IfSome result (λ parts. number_in order words.now
        ≡ word_in order parts.0.now + 2 ^ 16 * number_in order parts.1.now) }
    ensures rest { IfSome result (λ parts. length parts.1.now + 1 ≡ length words.now) }
{
    match order {
        ByteOrder::Abcd | ByteOrder::Badc => words.split_last(),
        ByteOrder::Cdab | ByteOrder::Dcba => words.split_first(),
    }
}

/// The number of at most four words in this order.
pub(crate) fn number(order: ByteOrder, words: &[Word]) -> u64
    requires { length words.now ≤ 4 }
    ensures value { result ≡ number_in order words.now }
    ensures below { result < 2 ^ (16 * length words.now) }
{
    match split_low(order, words) {
        None => 0,
        Some((low, higher)) => u64::from(order.word(*low)) + WORDS * number(order, higher),
    }
}

/// The words of a number, the least significant first, each as its order has it.
fn low_words(
    alloc: Global,
    order: ByteOrder,
    count: u16,
    number: u64,
) -> Result<Vec<Word>, AllocError>
    requires { number < 2 ^ (16 * count) }
    ensures number { IfOk result (λ words. from_low order words.items ≡ number) }
    ensures count { IfOk result (λ words. length words.items ≡ count) }
{
    let mut words = Vec::new(alloc);
    let mut rest = number;
    for _place in 0..count {
        words.push(order.word((rest % WORDS) as u16))?;
        rest /= WORDS;
    }
    Ok(words)
}

/// Words of which the least significant is the first, as they lie in registers.
fn arranged(order: ByteOrder, mut words: Vec<Word>) -> Vec<Word>
    ensures { result.items ≡ low_first order words.items }
{
    match order {
        ByteOrder::Abcd | ByteOrder::Badc => {
            words.reverse();
            words
        }
        ByteOrder::Cdab | ByteOrder::Dcba => words,
    }
}

/// The so many words of a number in this order.
pub(crate) fn words_of(
    alloc: Global,
    order: ByteOrder,
    count: u16,
    number: u64,
) -> Result<Vec<Word>, AllocError>
    requires { number < 2 ^ (16 * count) }
    ensures number { IfOk result (λ words. number_in order words.items ≡ number) }
    ensures count { IfOk result (λ words. length words.items ≡ count) }
{
    Ok(arranged(order, low_words(alloc, order, count, number)?))
}
