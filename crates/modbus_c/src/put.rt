//! How arrays of the caller are written.
ghost use Rattle.std.specs.Prelude.{◌≡◌, ◌+◌, ◌≤◌, length};
ghost use Rattle.modbus_store.specs.Tables.{with_entries};
ghost use Rattle.modbus_c.specs.Layout.{laid};

/// Writes items to the front of a list.
pub(crate) fn put_front<T: Copy>(items: &[T], list: &mut [T])
    requires { length items.now ≤ length list.old }
    ensures { list.new ≡ laid items.now list.old }
{
    list[..items.len()].copy_from_slice(items);
}

/// Writes items into a list from a place on.
pub(crate) fn put_at<T: Copy>(place: usize, items: &[T], list: &mut [T])
    requires { place + length items.now ≤ length list.old }
    ensures { list.new ≡ with_entries place items.now list.old }
{
    list[place..place + items.len()].copy_from_slice(items);
}
