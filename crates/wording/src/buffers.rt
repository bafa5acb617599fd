//! Parts of the buffers that are lent to calls.
ghost use Rattle.std.specs.Prelude.{◌≡◌, take};

/// The first `length` elements of a list, or all of a shorter one.
pub fn front(list: &[u8], length: usize) -> &[u8]
    ensures { result.now ≡ take length list.now }
{
    &list[..length.min(list.len())]
}
