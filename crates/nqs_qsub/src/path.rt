//! Paths of output files.

ghost use Rattle.std.specs.Prelude.{◌≡◌};
ghost use Rattle.std.specs.List.{list_all};
ghost use Rattle.nqs_base.specs.Path.{is_visible, begins_with_slash, is_path};

use nqs_base::{has_parent, is_visible};

fn all_visible(path: &[u8]) -> bool
    ensures { result ≡ list_all is_visible path.now }
{
    path.iter().all(|b| is_visible(*b))
}

fn begins_with_slash(path: &[u8]) -> bool
    ensures { result ≡ begins_with_slash path.now }
{
    match path.split_first() {
        Some((byte, _)) => *byte == b'/',
        None => false,
    }
}

/// Is it a path below the folder that it starts from: 1 to 255 bytes that are seen, no `/` in front
/// and no component `..`?
pub fn is_path(path: &[u8]) -> bool
    ensures { result ≡ is_path path.now }
{
    if path.is_empty() {
        return false;
    }
    if path.len() > 255 {
        return false;
    }
    if !all_visible(path) {
        return false;
    }
    if begins_with_slash(path) {
        return false;
    }
    !has_parent(path)
}
