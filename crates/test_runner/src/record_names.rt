//! What the names of records begin with.
ghost use Rattle.std.specs.Prelude.{◌≡◌, ◌++◌, ℕ, List, Some, IfOk, length, map, string_bytes, true};
ghost use Rattle.std.specs.Path.{path_file_name};
ghost use Rattle.test_runner.specs.Records.{AreApart, AreNoFiles, IsApartFrom, IsNoFile};

use std::alloc::Global;
use std::io::{self, ErrorKind};
use std::path::Path;
use test_terms::Stop;

/// For each file, how the names of its records begin: its own name and a dot. If a tested file's name, or another file's record
/// could begin so, a number stands before the dot. So no record overwrites a tested file, or another file's record.
///
/// # Errors
///
/// Memory was refused, or each number is taken.
pub(crate) fn record_names(alloc: Global, files: &[&str]) -> Result<Vec<String>, Stop>
    ensures many { IfOk result (λ names. length names.items ≡ length files.now) }
    ensures files { IfOk result (λ names. AreNoFiles (map (λ file. file.now) files.now) (map string_bytes names.items)) }
    ensures apart { IfOk result (λ names. AreApart (map string_bytes names.items)) }
{
    let mut names = Vec::with_capacity(alloc, files.len())?;
    for place in 0..files.len() {
        let earlier = namesakes(&files[..place], own_name(files[place]));
        let name = free_name(alloc, own_name(files[place]), earlier, files, &names)?;
        names.push(name)?;
    }
    Ok(names)
}

/// How many of these files have this own name.
fn namesakes(files: &[&str], own: &str) -> u64 {
    let mut many: u64 = 0;
    for file in files {
        if own_name(file) == own {
            many = many.saturating_add(1);
        }
    }
    many
}

/// A free beginning for the records of a file of this own name, which so many earlier files have too.
fn free_name(
    alloc: Global,
    own: &str,
    earlier: u64,
    files: &[&str],
    names: &[String],
) -> Result<String, Stop>
    ensures files { IfOk result (λ name. IsNoFile (map (λ file. file.now) files.now) (string_bytes name)) }
    ensures apart { IfOk result (λ name. IsApartFrom (map string_bytes names.now) (string_bytes name)) }
{
    let name = format!(in alloc; "{own}.")?;
    if is_free(files, names, name.as_str()) {
        return Ok(name);
    }
    for number in earlier.saturating_add(1).max(2)..u64::MAX {
        // (a file of that very name keeps it for its own records)
        let name = format!(in alloc; "{own}~{number}")?;
        if is_free(files, names, name.as_str()) {
            return Ok(format!(in alloc; "{name}.")?);
        }
    }
    Err(Stop::System(io::Error::from(ErrorKind::AlreadyExists)))
}

/// Whether no tested file's own name begins so, and no other file's record.
fn is_free(files: &[&str], names: &[String], name: &str) -> bool
    ensures files { result ≡ true → IsNoFile (map (λ file. file.now) files.now) name.now }
    ensures apart { result ≡ true → IsApartFrom (map string_bytes names.now) name.now }
{
    is_no_file(files, name) && is_apart(names, name)
}

/// Whether no tested file's own name begins so.
fn is_no_file(files: &[&str], name: &str) -> bool
    ensures { result ≡ true → IsNoFile (map (λ file. file.now) files.now) name.now }
{
    for file in files {
        if begins(own_name(file), name) {
            return false;
        }
    }
    true
}

/// Whether no name begins as one of these, and none of these as it.
fn is_apart(names: &[String], name: &str) -> bool
    ensures { result ≡ true → IsApartFrom (map string_bytes names.now) name.now }
{
    for place in 0..names.len() {
        let other = names[place].as_str();
        if begins(other, name) || begins(name, other) {
            return false;
        }
    }
    true
}

/// Whether a text begins with another.
fn begins(text: &str, front: &str) -> bool
    ensures { (rest : List ℕ) → text.now ≡ front.now ++ rest → result ≡ true }
{
    text.starts_with(front)
}

/// A file's own name, without its folders.
fn own_name(file: &str) -> &str
    ensures { (own : List ℕ) → path_file_name file.now ≡ Some own → result.now ≡ own }
{
    Path::new(file).file_name().unwrap_or(file)
}
