// What is put into a caller's buffer.
ghost use Rattle.std.specs.Prelude.{◌≡◌, length, nat_le};
ghost use Rattle.embed.specs.Buffers.{laid};

// Puts items at the start of a buffer that is long enough, and leaves the rest of it; a shorter one stays as it was. It answers
// whether they are there.
pub(crate) fn lay<T: Copy>(items: &[T], buffer: &mut [T]) -> bool
    ensures there { result ≡ nat_le (length items.now) (length buffer.old) }
    ensures after { buffer.new ≡ laid items.now buffer.old }
{
    if items.len() > buffer.len() {
        return false;
    }
    buffer[..items.len()].copy_from_slice(items);
    true
}
