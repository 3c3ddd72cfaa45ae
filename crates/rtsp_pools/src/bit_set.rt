//! A set of numbers, in which the least that isn't below a given one is found by looking at few words.

ghost use Rattle.std.specs.Prelude.{◌≡◌, ℕ, ◌+◌, ◌<◌, ◌≤◌, ◌^◌, true, false, IfOk, IfSome, IfNone};
ghost use Rattle.rtsp_pools.specs.Bits.{bit_of, has, IsPut, count_below, IsSummed};

use crate::words::{lowest_bit, lowest_number, write_bit};
use std::alloc::{AllocError, Global};

/// A set of numbers below a limit. For each word of its bits a summary has one bit, which is on
/// where the word is not 0. So of 65,536 numbers the least that isn't below a given one is found in
/// 18 words at most.
#[derive(Drop)]
pub(crate) struct BitSet {
    limit: usize,
    words: Vec<u64>,
    summary: Vec<u64>,
    count: usize,
    ghost summed: { IsSummed limit words.items summary.items count },
}

impl BitSet {
    // The empty set.
    fn empty(alloc: Global, limit: usize) -> Result<Self, AllocError>
        requires { limit ≤ 2 ^ 16 }
        ensures limit { IfOk result (λ s. s.limit ≡ limit) }
        ensures empty { IfOk result (λ s. (k : ℕ) → has s.words.items k ≡ false) }
    {
        let long = limit.div_ceil(64);
        let words = vec![in alloc; 0; long]?;
        let summary = vec![in alloc; 0; long.div_ceil(64)]?;
        Ok(BitSet {
            limit,
            words,
            summary,
            count: 0,
        })
    }

    /// The set of all numbers below the limit.
    pub(crate) fn full(alloc: Global, limit: usize) -> Result<Self, AllocError>
        requires { limit ≤ 2 ^ 16 }
        ensures limit { IfOk result (λ s. s.limit ≡ limit) }
        ensures full { IfOk result (λ s. (k : ℕ) → k < limit → has s.words.items k ≡ true) }
    {
        let mut all = BitSet::empty(alloc, limit)?;
        for number in 0..limit {
            all.insert(number);
        }
        Ok(all)
    }

    /// Puts a number in.
    pub(crate) fn insert(&mut self, number: usize)
        requires within { number < self.old.limit }
        requires new { has self.old.words.items number ≡ false }
        ensures limit { self.new.limit ≡ self.old.limit }
        ensures put { IsPut number true self.old.words.items self.new.words.items }
    {
        write_bit(&mut self.words, number, true);
        write_bit(&mut self.summary, number / 64, true);
        self.count += 1;
    }

    /// Takes a number out.
    pub(crate) fn remove(&mut self, number: usize)
        requires within { number < self.old.limit }
        requires there { has self.old.words.items number ≡ true }
        ensures limit { self.new.limit ≡ self.old.limit }
        ensures put { IsPut number false self.old.words.items self.new.words.items }
    {
        write_bit(&mut self.words, number, false);
        let has_more = self.words[number / 64] != 0;
        write_bit(&mut self.summary, number / 64, has_more);
        self.count -= 1;
    }

    /// Whether a number is there.
    pub(crate) fn contains(&self, number: usize) -> bool
        requires { number < self.now.limit }
        ensures { result ≡ has self.now.words.items number }
    {
        (self.words[number / 64] >> (number % 64)) & 1 == 1
    }

    /// Puts a number in or takes it out, where it isn't so already.
    pub(crate) fn put(&mut self, number: usize, is_there: bool)
        requires { number < self.old.limit }
        ensures limit { self.new.limit ≡ self.old.limit }
        ensures put { IsPut number is_there self.old.words.items self.new.words.items }
    {
        if self.contains(number) == is_there {
            return;
        }
        if is_there {
            self.insert(number);
        } else {
            self.remove(number);
        }
    }

    /// The least number that isn't below `from`.
    pub(crate) fn least_from(&self, from: usize) -> Option<usize>
        ensures found { IfSome result (λ k. (k < self.now.limit) × (from ≤ k) × (bit_of self.now.words.items k ≡ 1)) }
        ensures least { IfSome result (λ k. (j : ℕ) → from ≤ j → j < k → bit_of self.now.words.items j ≡ 0) }
        ensures none { IfNone result ((j : ℕ) → from ≤ j → bit_of self.now.words.items j ≡ 0) }
    {
        let index = from / 64;
        if index >= self.words.len() {
            return None;
        }
        if let Some(bit) = lowest_bit(self.words[index], (from % 64) as u32) {
            return Some(index * 64 + bit as usize);
        }
        let next = lowest_number(&self.summary, index + 1)?;
        let bit = lowest_bit(self.words[next], 0)?;
        Some(next * 64 + bit as usize)
    }

    /// How many there are.
    pub(crate) fn len(&self) -> usize
        ensures { result ≡ count_below self.now.words.items self.now.limit }
    {
        self.count
    }
}
