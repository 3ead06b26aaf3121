//! Computes the product of a row of a matrix and a vector.
ghost use Rattle.std.specs.List.{sum};
ghost use Rattle.std.specs.Prelude.{◌≡◌, ◌-◌, ◌*◌, ◌^◌, ◌<◌, ℕ, length, map, min, slice_index, slice_index_or};

/// Multiplies the number of each entry `(column, number)` by `vector[column]`. Returns the sum of
/// the products, or `u64::MAX` if the sum is greater.
pub(crate) fn row_product(entries: &[(usize, u64)], vector: &[u64]) -> u64
    requires in_bounds { (k : ℕ) → k < length entries.now
        → (slice_index_or entries.now k (0, 0)).0 < length vector.now }
    ensures value { result
        ≡ min (sum (map (λ entry. entry.1 * slice_index vector.now entry.0) entries.now))
        (2 ^ 64 - 1) }
{
    let mut total = 0u64;
    for &(column, number) in entries {
        total = total.saturating_add(number.saturating_mul(vector[column]));
    }
    total
}
