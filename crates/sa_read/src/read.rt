//! Files that are read to their end through a store.

ghost use Rattle.std.specs.Prelude.{◌≡◌, ◌+◌, ◌<◌, ◌≤◌, ◌⊎◌, ◌^◌, length, vec_len, IfOk, IsErrOf};
ghost use Rattle.host_io.specs.Faults.{Rose};
ghost use Rattle.host_io.specs.Files.{Lacks};
ghost use Rattle.sa_read.specs.FileContents.{IsReadOf, read_fault_of};

use host_io::{Outage, ReadFiles};
use std::alloc::{AllocError, Global};

/// How many bytes are asked of a store at once.
const PIECE: usize = 65_536;

/// The bytes that were read of a file.
#[derive(Debug, Drop)]
pub enum FileContents {
    /// All of its bytes.
    Whole(Vec<u8>),
    /// The bytes up to the limit, after which it has more.
    Cut(Vec<u8>),
}

/// Why a file couldn't be read.
#[derive(Clone, Copy, Debug, PartialEq, Eq)]
pub enum ReadFault {
    /// The store failed, or has no such file.
    Failed,
    NoMemory,
}

impl From<Outage> for ReadFault {
    ghost from_gives = { λ outage fault. fault ≡ read_fault_of outage };

    fn from(outage: Outage) -> ReadFault {
        match outage {
            Outage::Failed => ReadFault::Failed,
            Outage::NoMemory => ReadFault::NoMemory,
        }
    }
}

impl From<AllocError> for ReadFault {
    ghost use Rattle.sa_read.specs.declared.read.ReadFault.TheVariants.{NoMemory};

    ghost from_gives = { λ _ fault. fault ≡ NoMemory };

    fn from(_error: AllocError) -> ReadFault {
        ReadFault::NoMemory
    }
}

/// Reads a file to its end, or up to the limit where it is longer.
pub fn read_file<S: ReadFiles>(
    alloc: Global,
    store: &mut S,
    name: &str,
    limit: usize,
) -> Result<FileContents, ReadFault>
    ensures read { IfOk result (λ read. IsReadOf (S.files store.old) name.now limit read) }
    ensures failed { IsErrOf result ReadFault.Failed → Rose (S.faults store.old) (S.faults store.new) ⊎ Lacks (S.files store.old) name.now }
    ensures files { S.files store.new ≡ S.files store.old }
    ensures count { S.faults store.old ≤ S.faults store.new }
{
    let mut piece = zeros(alloc, PIECE)?;
    read_pieces(alloc, store, name, limit, piece.as_mut_slice())
}

/// Reads a file to its end or up to the limit, piece by piece.
fn read_pieces<S: ReadFiles>(
    alloc: Global,
    store: &mut S,
    name: &str,
    limit: usize,
    piece: &mut [u8],
) -> Result<FileContents, ReadFault>
    requires { 0 < length piece.old }
    ensures read { IfOk result (λ read. IsReadOf (S.files store.old) name.now limit read) }
    ensures failed { IsErrOf result ReadFault.Failed → Rose (S.faults store.old) (S.faults store.new) ⊎ Lacks (S.files store.old) name.now }
    ensures files { S.files store.new ≡ S.files store.old }
    ensures count { S.faults store.old ≤ S.faults store.new }
{
    let mut bytes = Vec::new(alloc);
    loop {
        let place = bytes.len() as u64;
        let read = store.read_at(name, place, piece)?;
        if read == 0 {
            return Ok(FileContents::Whole(bytes));
        }
        let taken = read.min(limit - bytes.len());
        bytes.extend_from_slice(&piece[..taken])?;
        if taken < read {
            return Ok(FileContents::Cut(bytes));
        }
    }
}

fn zeros(alloc: Global, len: usize) -> Result<Vec<u8>, AllocError>
    ensures { IfOk result (λ bytes. vec_len bytes ≡ len) }
{
    vec![in alloc; 0; len]
}
