//! Finds the minimum, the median and the maximum of values.
ghost use Rattle.std.specs.Prelude.{◌≡◌, None, Some};
ghost use Rattle.rw_mrm.specs.Statistics as specs;

/// Returns the minimum of values, if there are any.
pub(crate) fn least(values: &[i64]) -> Option<i64>
    ensures { result ≡ specs.least_value values.now }
{
    if values.is_empty() {
        return None;
    }
    let mut least = values[0];
    for place in 0..values.len() {
        least = least.min(values[place]);
    }
    Some(least)
}

/// Returns the maximum of values, if there are any.
pub(crate) fn greatest(values: &[i64]) -> Option<i64>
    ensures { result ≡ specs.greatest_value values.now }
{
    if values.is_empty() {
        return None;
    }
    let mut greatest = values[0];
    for place in 0..values.len() {
        greatest = greatest.max(values[place]);
    }
    Some(greatest)
}

/// Returns the median of values, if there are any: the least of them for which at least half of them are at most it. It leaves
/// them in another order.
pub(crate) fn median(values: &mut [i64]) -> Option<i64>
    ensures { result ≡ specs.median values.old }
{
    if values.is_empty() {
        return None;
    }
    let middle = (values.len() - 1) / 2;
    let (_, found, _) = values.select_nth_unstable(middle);
    Some(*found)
}
