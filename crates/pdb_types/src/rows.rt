//! Tables that grow a row at a time.

ghost use Rattle.std.specs.Prelude.{◌≡◌, ◌*◌, ◌++◌, [], ◌∷◌, ◌≤◌, vec_len, vec_capacity, OnOk};

use std::alloc::AllocError;

// One more row. The capacity doubles where it is used up: it is never more than twice the number of rows.
pub(crate) fn push_row<T: Copy>(rows: &mut Vec<T>, row: T) -> Result<(), AllocError>
    requires { vec_capacity rows.old ≤ 2 * vec_len rows.old }
    ensures pushed { OnOk result (rows.new.items ≡ rows.old.items ++ row ∷ []) }
    ensures room { OnOk result (vec_capacity rows.new ≤ 2 * vec_len rows.new) }
{
    let count = rows.len();
    if count == rows.capacity() {
        rows.reserve_exact(count.max(1))?;
    }
    // The capacity is there: nothing grows.
    rows.push_reserved(row);
    Ok(())
}
