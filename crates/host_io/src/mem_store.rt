//! A store of files in memory, whose calls can be made to fail.

ghost use Rattle.std.specs.Prelude.{◌≡◌, ◌≢◌, ◌↔◌, ℕ, ◌<◌, ◌≤◌, ◌⊎◌, length, slice_index_or, Some, None, List, IsTrue};
ghost use Rattle.std.specs.Prelude.{IfSome, IfNone, IsErr, IfOk, OnOk, OnErr, IsErrOf, IsOkUnless, string_bytes};
ghost use Rattle.std.specs.Option.{option_copied};
ghost use Rattle.std.specs.FinMap.{get, insert};
ghost use Rattle.host_io.specs.Calls.{no_calls, is_to_fail, one_call};
ghost use Rattle.host_io.specs.Faults.{Rose};
ghost use Rattle.host_io.specs.Files.{Lacks, IsPart, Reads};
ghost use Rattle.host_io.specs.Memory.{Fills};
ghost use Rattle.host_io.specs.FileList.{File, files_of, HaveDistinctNames, IsFirstOfName};

use crate::calls::Calls;
use crate::store::{Outage, ReadFiles, WriteFiles};
use std::alloc::AllocError;
use std::marker::Model;

/// A store of files in memory, which specifies their content. Contracts see its files and its calls.
#[derive(Debug, Drop)]
pub struct MemStore {
    files: Vec<(String, Vec<u8>)>,
    calls: Calls,
}

impl Model for MemStore {
    ghost use Rattle.host_io.specs.Memory.{StoreState, store_code};

    ghost Value = { StoreState };

    ghost coded = { store_code };

    ghost use Rattle.host_io.specs.FileList.{files_of};

    ghost view = { λ s. record { files = files_of s.files.items; calls = s.calls } };
}

impl MemStore {
    /// A store of these files, whose names differ. Its calls with the listed numbers fail, the first call being 0.
    pub fn new(files: Vec<(String, Vec<u8>)>, failing: Vec<u64>) -> MemStore
        requires { HaveDistinctNames files.items }
        ensures files { result.files ≡ files_of files.items }
        ensures calls { result.calls ≡ no_calls failing.items }
    {
        MemStore {
            files,
            calls: Calls::new(failing),
        }
    }

    /// Whether no two of these files have the same name, as `new` requires.
    pub fn names_differ(files: &[(String, Vec<u8>)]) -> bool
        ensures { IsTrue result ↔ HaveDistinctNames files.now }
    {
        for (place, (name, _)) in files.iter().enumerate() {
            if place_of(files, name.as_str()) != Some(place) {
                return false;
            }
        }
        true
    }

    /// The bytes of the file of this name, or None if the store has no such file.
    pub fn file(&self, name: &str) -> Option<&[u8]>
        ensures { option_copied result ≡ get self.now.files name.now }
    {
        find(&self.files, name)
    }
}

impl ReadFiles for MemStore {
    ghost faults = { λ s. s.calls.faults };

    ghost files = { λ s. Some s.files };

    /// Reads bytes of the file from the offset `place` on into the front of the buffer, as many as the file and the buffer have,
    /// and gives their number. It fails exactly at a listed call, and if the store has no such file.
    fn read_at(&mut self, name: &str, place: u64, buffer: &mut [u8]) -> Result<usize, Outage>
        requires { 0 < length buffer.old }
        ensures within { IfOk result (λ n. n ≤ length buffer.new) }
        ensures read { IfOk result (λ n. Reads (Some self.old.files) name.now place n buffer.new) }
        ensures files { self.new.files ≡ self.old.files }
        ensures failed { IsErrOf result Outage.Failed →
            Rose self.old.calls.faults self.new.calls.faults ⊎ Lacks (Some self.old.files) name.now }
        ensures count { self.old.calls.faults ≤ self.new.calls.faults }

        ensures listed { IsErr result ↔ (IsTrue (is_to_fail self.old.calls) ⊎ Lacks (Some self.old.files) name.now) }
        ensures only { IsOkUnless result Outage.Failed }
        ensures calls { self.new.calls ≡ one_call self.old.calls }
        ensures fills { IfOk result (λ n. (file : List ℕ) ×
            (get self.old.files name.now ≡ Some file) × Fills file place n buffer.old buffer.new) }
        ensures err { OnErr result (buffer.new ≡ buffer.old) }
    {
        if self.calls.next_fails() {
            return Err(Outage::Failed);
        }
        match find(&self.files, name) {
            Some(file) => Ok(fill(file, place, buffer)),
            None => Err(Outage::Failed),
        }
    }
}

impl WriteFiles for MemStore {
    /// Makes the file contain these bytes. It fails exactly at a listed call, and changes no file then, nor where memory is
    /// short.
    fn write(&mut self, name: &str, bytes: &[u8]) -> Result<(), Outage>
        ensures ok { OnOk result (self.new.files ≡ insert self.old.files name.now bytes.now) }
        ensures outage { OnErr result (self.new.files ≡ self.old.files) }
        ensures failed { IsErrOf result Outage.Failed → Rose self.old.calls.faults self.new.calls.faults }
        ensures count { self.old.calls.faults ≤ self.new.calls.faults }

        ensures listed { IsErrOf result Outage.Failed ↔ IsTrue (is_to_fail self.old.calls) }
        ensures calls { self.new.calls ≡ one_call self.old.calls }
    {
        if self.calls.next_fails() {
            return Err(Outage::Failed);
        }
        copy_to(&mut self.files, name, bytes).map_err(|_| Outage::NoMemory)
    }
}

/// Copies the bytes of the file from the offset `place` on into the front of the buffer, as far as both go, and gives their number.
fn fill(file: &[u8], place: u64, buffer: &mut [u8]) -> usize
    requires { 0 < length buffer.old }
    ensures part { IsPart file.now place result buffer.new }
    ensures fills { Fills file.now place result buffer.old buffer.new }
{
    let start = file.len().min(place as usize);
    let rest = &file[start..];
    let count = buffer.len().min(rest.len());
    buffer[..count].copy_from_slice(&rest[..count]);
    count
}

/// Makes the file of this name contain a copy of these bytes.
fn copy_to(files: &mut Vec<(String, Vec<u8>)>, name: &str, bytes: &[u8]) -> Result<(), AllocError>
    ensures ok { OnOk result (files_of files.new.items ≡ insert (files_of files.old.items) name.now bytes.now) }
    ensures err { OnErr result (files.new.items ≡ files.old.items) }
{
    let copy = Vec::from_slice(*files.allocator(), bytes)?;
    set(files, name, copy)
}

/// The index of the first file of this name.
fn place_of(files: &[(String, Vec<u8>)], name: &str) -> Option<usize>
    ensures found { IfSome result (IsFirstOfName files.now name.now) }
    ensures none { IfNone result ((k : ℕ) (d : File) →
        k < length files.now → string_bytes (slice_index_or files.now k d).0 ≢ name.now) }
{
    for (i, (held, _)) in files.iter().enumerate() {
        if held.as_str() == name {
            return Some(i);
        }
    }
    None
}

/// The bytes of the file of this name.
fn find<'a>(files: &'a [(String, Vec<u8>)], name: &str) -> Option<&'a [u8]>
    ensures { option_copied result ≡ get (files_of files.now) name.now }
{
    let place = place_of(files, name)?;
    Some(files[place].1.as_slice())
}

/// Makes the file of this name contain these bytes.
fn set(files: &mut Vec<(String, Vec<u8>)>, name: &str, bytes: Vec<u8>) -> Result<(), AllocError>
    ensures ok { OnOk result (files_of files.new.items ≡ insert (files_of files.old.items) name.now bytes.items) }
    ensures err { OnErr result (files.new.items ≡ files.old.items) }
{
    match place_of(files, name) {
        Some(place) => files[place].1 = bytes,
        None => {
            let name = String::from_str(*files.allocator(), name)?;
            files.push((name, bytes))?;
        }
    }
    Ok(())
}
