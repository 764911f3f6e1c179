//! What is asked of the paths of output files, byte by byte and component by component.
//! `docs/rules.md` says what a path is.

ghost use Rattle.std.specs.Prelude.{◌≡◌};
ghost use Rattle.nqs_base.specs.Path.{is_visible, has_parent};

/// Whether the byte is seen where it is printed: 33 to 126.
pub fn is_visible(byte: u8) -> bool
    ensures { result ≡ is_visible byte }
{
    byte.is_ascii_graphic()
}

/// Whether a component of the path, between slashes, is `..`.
pub fn has_parent(path: &[u8]) -> bool
    ensures { result ≡ has_parent path.now }
{
    path.split(|b| *b == b'/').any(|c| c == b"..".as_slice())
}
