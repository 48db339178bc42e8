//! Removing bytes from the front of a vector.
ghost use Rattle.std.specs.Prelude.{◌≡◌, ◌≤◌, drop, vec_capacity, vec_len};

/// Removes the first n bytes and moves the others to the front.
pub(crate) fn drop_front(bytes: &mut Vec<u8>, n: usize)
    requires { n ≤ vec_len bytes.old }
    ensures items { bytes.new.items ≡ drop n bytes.old.items }
    ensures capacity { vec_capacity bytes.new ≡ vec_capacity bytes.old }
{
    if n == 0 {
        return;
    }
    let len = bytes.len();
    bytes.copy_within(n..len, 0);
    bytes.truncate(len - n);
}
