//! The source texts of a program: the prelude's, and those of the command's files in order.

ghost use Rattle.std.specs.Prelude.{◌<◌, All, length, ◌≡◌, ◌≤◌, ◌⊎◌, ◌++◌, ◌∷◌, [], map, codes, IfOk, OnOk, IsErrOf};
ghost use Rattle.host_io.specs.Faults.{Rose};
ghost use Rattle.sa_prelude.specs.PreludeText.{prelude_text};
ghost use Rattle.sa_read.specs.SourceFiles.{IsReadFrom, LacksOneOf, no_files, too_large};

use crate::read::{FileContents, ReadFault, read_file};
use host_io::ReadFiles;
use sa_ast::{Name, Pos, Refusal, Rule, Sources};
use sa_prelude::text;
use sqlite_items::Items;
use std::alloc::{AllocError, Global};

/// The most bytes that the files of a command have together.
pub const MOST_BYTES: usize = 4_194_304;

/// The texts of a program's files, as far as they were read.
#[derive(Drop)]
pub struct SourceFiles {
    /// The texts that were read, after the prelude's.
    pub sources: Sources,
    /// The refusal of a file that is too large. Its text is then what comes before the refused byte.
    pub cut: Option<Refusal>,
}

/// Reads the files of a program, in order, each to its end. Where they have more than 4,194,304 bytes together, it stops
/// there.
///
/// # Errors
///
/// `Failed` where the store fails or has no such file; `NoMemory` also where the files can't be numbered.
pub fn read_program<S: ReadFiles>(
    alloc: Global,
    store: &mut S,
    names: &[&str],
) -> Result<SourceFiles, ReadFault>
    ensures read { IfOk result (IsReadFrom (S.files store.old) (map (λ name. name.now) names.now)) }
    ensures short { IfOk result (λ program. All (λ text. length text < 4294967295) program.sources.texts) }
    ensures few { IfOk result (λ program. length program.sources.texts ≤ 65536) }
    ensures failed { IsErrOf result ReadFault.Failed
        → Rose (S.faults store.old) (S.faults store.new) ⊎ LacksOneOf (S.files store.old) (map (λ name. name.now) names.now) }
    ensures files { S.files store.new ≡ S.files store.old }
    ensures count { S.faults store.old ≤ S.faults store.new }
{
    let mut sources = prelude(alloc)?;
    let mut room = MOST_BYTES;
    for place in 0..names.len() {
        let number = number(sources.texts.len())?;
        let name = names[place];
        match read_file(alloc, store, name, room)? {
            FileContents::Whole(text) => {
                room -= text.len();
                add(alloc, &mut sources, name, text)?;
            }
            FileContents::Cut(text) => {
                add(alloc, &mut sources, name, text)?;
                let cut = Some(too_large(number, room));
                return Ok(SourceFiles { sources, cut });
            }
        }
    }
    Ok(SourceFiles { sources, cut: None })
}

/// The texts of a program of no file: the prelude's alone.
pub fn prelude(alloc: Global) -> Result<Sources, AllocError>
    ensures value { IfOk result (λ sources. sources ≡ no_files) }
    ensures short { IfOk result (λ sources. All (λ text. length text < 4294967295) sources.texts) }
    ensures small { IfOk result (λ _. length prelude_text < 8192) }
{
    let mut names = Items::new(alloc);
    names.push(Name::from_slice(alloc, b"prelude")?)?;
    let mut texts = Items::new(alloc);
    texts.push(Items::from_slice(alloc, text())?)?;
    Ok(Sources { names, texts })
}

/// Adds a text after the others. Where memory runs out, the name alone may have been added.
fn add(alloc: Global, sources: &mut Sources, name: &str, text: Vec<u8>) -> Result<(), AllocError>
    ensures names { OnOk result (sources.new.names ≡ sources.old.names ++ name.now ∷ []) }
    ensures texts { OnOk result (sources.new.texts ≡ sources.old.texts ++ text.items ∷ []) }
{
    sources
        .names
        .push(Name::from_slice(alloc, name.as_bytes())?)?;
    sources.texts.push(Items::from_vec(text))?;
    Ok(())
}

/// The most files that a command has: it has at most 65,535 arguments.
const MOST_FILES: usize = 65_535;

/// The index of the text after so many.
fn number(texts: usize) -> Result<u32, ReadFault>
    ensures value { IfOk result (λ number. (number ≡ texts) × (texts ≤ MOST_FILES)) }
    ensures memory { IsErrOf result ReadFault.Failed → ⊥ }
{
    if texts > MOST_FILES {
        return Err(ReadFault::NoMemory);
    }
    Ok(texts as u32)
}

/// The refusal of the file with this index at the first byte past the room.
fn too_large(number: u32, room: usize) -> Refusal
    requires { room ≤ MOST_BYTES }
    ensures { result ≡ too_large number room }
{
    Rule::SourceTooLarge.at(Pos {
        file: number,
        at: room as u32,
    })
}
