//! Parts of a slice, by how many elements stand before its end or its front.
ghost use Rattle.std.specs.Prelude.{◌≡◌, drop, take};

/// The first so many, or all.
pub fn before(bytes: &[u8], count: usize) -> &[u8]
    ensures { result.now ≡ take count bytes.now }
{
    if count < bytes.len() {
        &bytes[..count]
    } else {
        bytes
    }
}

/// What stands behind so many.
pub fn behind(bytes: &[u8], count: usize) -> &[u8]
    ensures { result.now ≡ drop count bytes.now }
{
    if count < bytes.len() {
        &bytes[count..]
    } else {
        &[]
    }
}
