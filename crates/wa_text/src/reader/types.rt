//! Types.

ghost use Rattle.std.specs.Prelude.{◌≡◌, [], ◌∷◌, codes, IfErr, IfOk};
ghost use Rattle.wa_text.specs.Forms.{◌then◌, each, exactly};
ghost use Rattle.wa_text.specs.Instructions.{block_result};
ghost use Rattle.wa_text.specs.Listing.{globaltype, limits};
ghost use Rattle.wa_text.specs.Reading.{Knows, Reads, begins_untyped, texts};
ghost use Rattle.wa_text.specs.declared.fault.LineFault.TheVariants.{NoMemory};
ghost use Rattle.wa_text.specs.Words.{mut, val, word};

use crate::fault::LineFault;
use crate::reader::line::LineForm;
use crate::reader::words::{following, index};
use sqlite_items::Items;
use std::alloc::Global;
use wa_syntax::{FuncTy, GlobalTy, Limits, ValTy};

/// The type of a value that a word denotes.
fn value_type(word: &[u8]) -> Option<ValTy>
    ensures { Knows val (word.now ∷ []) result }
{
    match word {
        b"i32" => Some(ValTy::I32),
        b"i64" => Some(ValTy::I64),
        _ => None,
    }
}

/// The types that the words begin with, and the words after them.
pub fn value_types<'a>(
    alloc: Global,
    words: &'a [&'a [u8]],
) -> Result<(Items<ValTy>, &'a [&'a [u8]]), LineFault>
    ensures found { IfOk result (λ read. (each val read.0 then exactly (texts read.1.now)) (texts words.now)) }
    ensures stops { IfOk result (λ read. begins_untyped (texts read.1.now)) }
    ensures memory { IfErr result (λ fault. fault ≡ NoMemory) }
{
    let mut types = Items::new(alloc);
    let mut rest = words;
    while let [word, following @ ..] = rest {
        let Some(ty) = value_type(*word) else {
            break;
        };
        types.push(ty)?;
        rest = following;
    }
    Ok((types, rest))
}

/// The type of a block's result, if there is one.
pub fn block_result(words: &[&[u8]]) -> Result<Option<ValTy>, LineFault>
    ensures { Reads block_result (texts words.now) result }
{
    match words {
        [] => Ok(None),
        [word] => match value_type(*word) {
            Some(ty) => Ok(Some(ty)),
            None => Err(LineFault::Wrong),
        },
        _ => Err(LineFault::Wrong),
    }
}

/// A function type.
pub struct TypeItem;

impl LineForm for TypeItem {
    type Value = FuncTy;

    ghost form = { λ t. each val t.params then word (codes "->") then each val t.results };

    fn read(alloc: Global, words: &[&[u8]]) -> Result<FuncTy, LineFault> {
        let (params, rest) = value_types(alloc, words)?;
        let (results, rest) = value_types(alloc, following(rest, b"->")?)?;
        if rest.is_empty() {
            Ok(FuncTy { params, results })
        } else {
            Err(LineFault::Wrong)
        }
    }
}

/// The minimum, or the minimum and the maximum.
pub fn limits(words: &[&[u8]]) -> Result<Limits, LineFault>
    ensures { Reads limits (texts words.now) result }
{
    match words {
        [min] => Ok(Limits {
            min: index(*min)?,
            max: None,
        }),
        [min, max] => Ok(Limits {
            min: index(*min)?,
            max: Some(index(*max)?),
        }),
        _ => Err(LineFault::Wrong),
    }
}

/// The type of a table or of a memory, which is its limits.
pub struct LimitsItem;

impl LineForm for LimitsItem {
    type Value = Limits;

    ghost form = { limits };

    fn read(_alloc: Global, words: &[&[u8]]) -> Result<Limits, LineFault> {
        limits(words)
    }
}

/// The type of a global, whose words these are.
pub fn only_global_type(words: &[&[u8]]) -> Result<GlobalTy, LineFault>
    ensures { Reads globaltype (texts words.now) result }
{
    match words {
        [val, mutability] => global_type(*val, *mutability),
        _ => Err(LineFault::Wrong),
    }
}

/// The type of a global, of two words.
pub fn global_type(val: &[u8], mutability: &[u8]) -> Result<GlobalTy, LineFault>
    ensures { Reads globaltype (val.now ∷ mutability.now ∷ []) result }
{
    match (value_type(val), mutable(mutability)) {
        (Some(val), Some(mutable)) => Ok(GlobalTy { val, mutable }),
        _ => Err(LineFault::Wrong),
    }
}

/// Whether a global may be changed.
fn mutable(word: &[u8]) -> Option<bool>
    ensures { Knows mut (word.now ∷ []) result }
{
    match word {
        b"const" => Some(false),
        b"var" => Some(true),
        _ => None,
    }
}
