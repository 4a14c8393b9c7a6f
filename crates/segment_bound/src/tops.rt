//! The sum of the greatest numbers of a list.
ghost use Rattle.std.specs.Prelude.{◌≡◌, ◌<◌, ◌≤◌, ◌*◌, ◌^◌, length, sum_by, vec_len, vec_capacity};
ghost use Rattle.std.specs.List.{All};
ghost use Rattle.std.specs.List.Sorted.{IsPermutation, IsNonDecreasingBy};
ghost use Rattle.segment_bound.specs.Tops.{IsTopSum, with_some};

/// Lists the number where it is above 0.
pub fn push_some(numbers: &mut Vec<u128>, x: u128)
    requires space { vec_len numbers.old < vec_capacity numbers.old }
    ensures items { numbers.new.items ≡ with_some numbers.old.items x }
    ensures space { vec_capacity numbers.new ≡ vec_capacity numbers.old }
{
    if 0 < x {
        numbers.push_reserved(x);
    }
}

/// Sorts the numbers where there isn't room for all.
fn sort_above(numbers: &mut Vec<u128>, room: usize)
    ensures moved { IsPermutation numbers.old.items numbers.new.items }
    ensures rising { room < length numbers.new.items → IsNonDecreasingBy (λ x. x) numbers.new.items }
    ensures space { vec_capacity numbers.new ≡ vec_capacity numbers.old }
{
    if numbers.len() > room {
        numbers.sort_unstable();
    }
}

/// The sum of the greatest numbers, as many as there is room for. The numbers may change places.
pub fn top_sum(numbers: &mut Vec<u128>, room: usize) -> u128
    requires few { length numbers.old.items ≤ 256 }
    requires small { All (λ x. x ≤ 2 ^ 60 * 10 ^ 18) numbers.old.items }
    ensures top { IsTopSum numbers.old.items room result }
    ensures most { result ≤ sum_by (λ x. x) numbers.old.items }
    ensures space { vec_capacity numbers.new ≡ vec_capacity numbers.old }
{
    sort_above(numbers, room);
    let first = numbers.len().saturating_sub(room);
    let mut total = 0;
    for k in first..numbers.len() {
        total += numbers[k];
    }
    total
}
