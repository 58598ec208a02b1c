// Runs of bytes.
ghost use Rattle.std.specs.Prelude.{◌≡◌, length, replicate};

// The bytes of `from`, in their order. By a loop, since the library's `copy_from_slice` calls `memmove`, which an archive for C would
// then need from outside, and a run is mostly short.
pub fn copy(to: &mut [u8], from: &[u8])
    requires { length to.old ≡ length from.now }
    ensures { to.new ≡ from.now }
{
    for i in 0..to.len() {
        to[i] = from[i];
    }
}

// White paper.
pub fn whiten(to: &mut [u8])
    ensures { to.new ≡ replicate (length to.old) 255 }
{
    to.fill(255);
}
