// Bytes at a place in a buffer that has room for them. Buffer and place stay two arguments, as in the public writers.
ghost use Rattle.std.specs.Prelude.{◌≡◌, [], ◌∷◌, ◌++◌, ◌+◌, ◌≤◌, length};
ghost use Rattle.primitives.specs.Place.{overwrite};
ghost use Rattle.receipt.specs.Texts.{separator};

// Writes one byte at a place.
pub(crate) fn put8(out: &mut [u8], at: usize, x: u8)
    requires { at + 1 ≤ length out.old }
    ensures { out.new ≡ overwrite out.old at (x ∷ []) }
{
    out[at] = x;
}

// Writes all of a slice at a place. `primitives::put` asks first whether there is room, which callers of this one know.
#[tactic(auto, unfolding(primitives::specs::Place::overwrite))]
pub(crate) fn put(out: &mut [u8], at: usize, src: &[u8])
    requires { at + length src.now ≤ length out.old }
    ensures { out.new ≡ overwrite out.old at src.now }
{
    out[at..at + src.len()].copy_from_slice(src);
}

// Writes all of a slice, followed by a '_', at a place.
pub(crate) fn put_field(out: &mut [u8], at: usize, src: &[u8])
    requires { at + length src.now + 1 ≤ length out.old }
    ensures { out.new ≡ overwrite out.old at (src.now ++ (separator ∷ [])) }
{
    put(out, at, src);
    put8(out, at + src.len(), b'_');
}
