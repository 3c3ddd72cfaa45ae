//! Numbers as bits of words: number 64 i + j is bit j of word i.

ghost use Rattle.std.specs.Prelude.{◌≡◌, ◌≢◌, ℕ, ◌/◌, ◌<◌, ◌≤◌, length, slice_index, IfSome, IfNone};
ghost use Rattle.std.specs.Int.{bit_at};
ghost use Rattle.rtsp_record.specs.Sums.{one_if};
ghost use Rattle.rtsp_pools.specs.Bits.{bit_of};

/// The place of the lowest bit that is on, not below `low`.
pub(crate) fn lowest_bit(bits: u64, low: u32) -> Option<u32>
    requires { low < 64 }
    ensures found { IfSome result (λ k. (k < 64) × (low ≤ k) × (bit_at bits k ≡ 1)) }
    ensures least { IfSome result (λ k. (j : ℕ) → low ≤ j → j < k → bit_at bits j ≡ 0) }
    ensures none { IfNone result ((j : ℕ) → low ≤ j → j < 64 → bit_at bits j ≡ 0) }
{
    let rest = bits & (u64::MAX << low);
    if rest == 0 {
        None
    } else {
        Some(rest.trailing_zeros())
    }
}

// The word with one of its bits on or off.
fn with_bit(bits: u64, place: usize, on: bool) -> u64
    requires { place < 64 }
    ensures there { bit_at result place ≡ one_if on }
    ensures others { (i : ℕ) → i < 64 → i ≢ place → bit_at result i ≡ bit_at bits i }
{
    if on {
        bits | 1 << place
    } else {
        bits & !(1 << place)
    }
}

/// Writes the bit of a number.
pub(crate) fn write_bit(words: &mut Vec<u64>, number: usize, on: bool)
    requires { number / 64 < length words.old.items }
    ensures there { bit_of words.new.items number ≡ one_if on }
    ensures others { (k : ℕ) → k ≢ number → bit_of words.new.items k ≡ bit_of words.old.items k }
    ensures apart { (w : ℕ) → w ≢ number / 64 → slice_index words.new.items w ≡ slice_index words.old.items w }
    ensures len { length words.new.items ≡ length words.old.items }
{
    let index = number / 64;
    words[index] = with_bit(words[index], number % 64, on);
}

/// The least number whose bit is on, not below `from`. It looks at each word from that of `from` on.
pub(crate) fn lowest_number(words: &[u64], from: usize) -> Option<usize>
    requires { length words.now ≤ 1024 }
    ensures found { IfSome result (λ k. (from ≤ k) × (k / 64 < length words.now) × (bit_of words.now k ≡ 1)) }
    ensures least { IfSome result (λ k. (j : ℕ) → from ≤ j → j < k → bit_of words.now j ≡ 0) }
    ensures none { IfNone result ((j : ℕ) → from ≤ j → bit_of words.now j ≡ 0) }
{
    let mut low = (from % 64) as u32;
    for index in from / 64..words.len() {
        if let Some(bit) = lowest_bit(words[index], low) {
            return Some(index * 64 + bit as usize);
        }
        low = 0;
    }
    None
}
