ghost use Rattle.std.specs.Prelude.{◌≡◌, ◌+◌, ◌^◌, ◌≤◌, ◌<◌, [], length, take, drop, None, is_ok, if◌then◌else◌, OnOk, OnErr};
ghost use Rattle.std.specs.List.{position};
ghost use Rattle.offer_io.specs.Entries.{is_named, content_of, content_at, IsWritten, IsGrown, IsAdded, IsPut, KeepsPlaces};

use std::alloc::{AllocError, Global};

/// A file in memory.
#[derive(Drop)]
pub struct Entry {
    name: Vec<u8>,
    content: Vec<u8>,
}

/// The place of the first file of this name.
pub fn place_of(files: &[Entry], name: &[u8]) -> Option<usize>
    ensures { result ≡ position (is_named name.now) files.now }
{
    files.iter().position(|e| e.name.as_slice() == name)
}

/// The content of the file at a place.
pub fn whole_at(files: &[Entry], at: usize) -> &[u8]
    requires { at < length files.now }
    ensures { result.now ≡ content_at files.now at }
{
    files[at].content.as_slice()
}

/// What stands in a file behind a place in it.
pub fn rest_at(files: &[Entry], at: usize, from: usize) -> &[u8]
    requires { at < length files.now }
    ensures bytes { result.now ≡ drop from (content_at files.now at) }
    ensures end_fits { from + length result.now < 2 ^ 64 }
{
    let content = files[at].content.as_slice();
    if from < content.len() {
        content.split_at(from).1
    } else {
        &[]
    }
}

/// Puts what is left at the front of a piece, as much as fits, and at most so many bytes.
pub fn fill(left: &[u8], piece: &mut [u8], most: usize) -> usize
    requires { 1 ≤ most }
    ensures count { result ≤ length piece.new }
    ensures within { result ≤ length left.now }
    ensures most { result ≤ most }
    ensures bytes { take result piece.new ≡ take result left.now }
    ensures end { result ≡ 0 → 0 < length piece.new → left.now ≡ [] }
{
    let count = left.len().min(piece.len()).min(most);
    piece[..count].copy_from_slice(&left[..count]);
    count
}

/// Empties the file at a place.
pub fn empty_at(files: &mut Vec<Entry>, at: usize)
    requires { at < length files.old.items }
    ensures { IsWritten files.old.items at files.new.items [] }
{
    files[at].content.clear();
}

/// Gives the file at a place another content.
fn write_at(files: &mut Vec<Entry>, at: usize, content: Vec<u8>)
    requires { at < length files.old.items }
    ensures { IsWritten files.old.items at files.new.items content.items }
{
    files[at].content = content;
}

/// Adds a piece to the file at a place. An `Err` changes nothing.
pub fn grow_at(files: &mut Vec<Entry>, at: usize, piece: &[u8]) -> Result<(), AllocError>
    requires { at < length files.old.items }
    ensures { IsGrown files.old.items at (if is_ok result then piece.now else []) files.new.items }
{
    files[at].content.extend_from_slice(piece)
}

/// Adds a file, whose name is new. An `Err` changes nothing.
pub fn add_file(
    alloc: Global,
    files: &mut Vec<Entry>,
    name: &[u8],
    content: Vec<u8>,
) -> Result<(), AllocError>
    requires { content_of files.old.items name.now ≡ None }
    ensures ok { OnOk result (IsAdded files.old.items name.now content.items files.new.items) }
    ensures err { OnErr result (files.new.items ≡ files.old.items) }
{
    let name = name.to_vec(alloc)?;
    files.push(Entry { name, content })?;
    Ok(())
}

/// Puts a file there, in place of one of its name. An `Err` changes nothing.
pub fn put_file(
    alloc: Global,
    files: &mut Vec<Entry>,
    name: &[u8],
    content: &[u8],
) -> Result<(), AllocError>
    ensures places { KeepsPlaces files.old.items files.new.items }
    ensures ok { OnOk result (IsPut files.old.items name.now content.now files.new.items) }
    ensures err { OnErr result (files.new.items ≡ files.old.items) }
{
    let content = content.to_vec(alloc)?;
    match place_of(files, name) {
        Some(place) => {
            write_at(files, place, content);
            Ok(())
        }
        None => add_file(alloc, files, name, content),
    }
}
