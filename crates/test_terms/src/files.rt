//! Which files paths lead to.
use std::fs;
use std::os::unix::fs::MetadataExt;
use std::rt::Files;

/// Whether a path leads to one of these files, by any of its names.
pub fn is_one_of<R: Files>(rt: &R, path: &str, files: &[&str]) -> bool {
    let Ok(there) = fs::metadata(rt, path) else {
        return false;
    };
    for file in files {
        if let Ok(other) = fs::metadata(rt, file)
            && there.dev() == other.dev()
            && there.ino() == other.ino()
        {
            return true;
        }
    }
    false
}
