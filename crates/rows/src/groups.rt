// The rows of each key.
ghost use Rattle.std.specs.Prelude.{◌≡◌, ◌==◌, [], map, filter, IfOk, vec_items, slice_index_or};
ghost use Rattle.rows.specs.Rows.{by_key};

use crate::keyed::Keyed;
use std::alloc::{AllocError, Global};

// The rows of each key below a number, in their order.
pub fn grouped<T: Copy + Keyed>(
    heap: Global,
    rows: &[T],
    keys: usize,
) -> Result<Vec<Vec<T>>, AllocError>
    ensures { IfOk result (λ v. map vec_items v.items ≡ by_key T.key_of keys rows.now) }
{
    let mut groups = Vec::new(heap);
    // a loop: after `map` and `try_collect` a goal is left that no short answer closes
    for key in 0..keys {
        groups.push(with_key(heap, rows, key)?)?;
    }
    Ok(groups)
}

fn with_key<T: Copy + Keyed>(heap: Global, rows: &[T], key: usize) -> Result<Vec<T>, AllocError>
    ensures { IfOk result (λ v. v.items ≡ filter (λ row. T.key_of row == key) rows.now) }
{
    rows.iter()
        .filter(|row| row.key() == key)
        .copied()
        .collect(heap)
}

// The rows of one key, none where there is no such group.
pub fn group_at<T>(groups: &[Vec<T>], key: usize) -> &[T]
    ensures { result.now ≡ slice_index_or (map vec_items groups.now) key [] }
{
    groups.get(key).map_or(&[], |group| group.as_slice())
}
