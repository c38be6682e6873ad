//! What a module is linked to (section 4.5.4 of the WebAssembly Core Specification 1.0): the functions of the host, and its
//! `main`.

ghost use Rattle.std.specs.Prelude.{◌≡◌, ◌≤◌, ◌++◌, ◌||◌, [], ◌∷◌, if◌then◌else◌, bytes_eq, codes, count_by, slice_get};
ghost use Rattle.std.specs.Prelude.{IfOk, IfErr, IfSome, IsNone, Some, None, length, map, option_map};
ghost use Rattle.wa_flatten.specs.Codes.{are_same};
ghost use Rattle.wa_exec.specs.Halted.{begins_before};
ghost use Rattle.wa_exec.specs.Links.{Names, function_of, host_called};
ghost use Rattle.wa_syntax.specs.declared.module.ValTy.TheVariants.{I32};
ghost use Rattle.wa_syntax.specs.Hosts.{from_to, host_named, host_of, is_type, type_of};
ghost use Rattle.wa_syntax.specs.Runs.{is_main, main_of, or_main, unlinked};

use crate::halt::StartFault;
use std::alloc::Global;
use wa_flatten::{Code, FlatFunction};
use wa_syntax::{Export, ExportKind, FuncTy, Import, ImportKind, Module, NoMemory, ValTy};

/// A function of the host: `env.put`, `env.get` or `env.stop`.
#[derive(Clone, Copy, Debug, PartialEq, Eq)]
pub(crate) enum HostCall {
    Put,
    Get,
    Stop,
}

/// What is called.
#[derive(Clone, Copy)]
pub(crate) enum ActivationCallee {
    Host(HostCall),
    Own(FlatFunction),
}

/// A module's code, and what its functions are, by their indices.
#[derive(Drop)]
pub(crate) struct Linked {
    pub code: Code,
    pub callees: Vec<ActivationCallee>,
}

impl Linked {
    /// The code of a module whose imports are these functions of the host.
    pub(crate) fn new(code: Code, mut callees: Vec<ActivationCallee>) -> Result<Linked, NoMemory>
        ensures code { IfOk result (λ linked. linked.code ≡ code) }
        ensures callees { IfOk result (λ linked. linked.callees.items ≡ callees.items ++ map ActivationCallee.Own code.bodies.items) }
    {
        for body in code.bodies.as_slice() {
            callees.push(ActivationCallee::Own(*body))?;
        }
        Ok(Linked { code, callees })
    }

    /// How many functions begin before an index of the code, those of the host among them.
    pub(crate) fn begun_before(&self, at: usize) -> usize
        ensures { result ≡ count_by (begins_before at) self.now.callees.items }
    {
        self.callees
            .iter()
            .filter(|callee| begins_before(callee, at))
            .count()
    }

    /// Whether a function is of the type with this index, by content.
    pub(crate) fn is_of_type(&self, func: u32, ty: u32) -> bool
        ensures { result ≡ are_same (slice_get self.now.code.func_types.items func) (slice_get self.now.code.first_types.items ty) }
    {
        match (
            self.code.func_types.get(func as usize),
            self.code.first_types.get(ty as usize),
        ) {
            (Some(own), Some(wanted)) => own == wanted,
            _ => false,
        }
    }
}

/// Whether a function begins before an index of the code, as each one of the host does, which has no instructions there.
fn begins_before(callee: &ActivationCallee, at: usize) -> bool
    ensures { result ≡ begins_before at callee.now }
{
    match callee {
        ActivationCallee::Host(_) => true,
        ActivationCallee::Own(body) => (body.entry as usize) < at,
    }
}

/// The fault of the import of this number, or of a missing `main` where the number is that of all imports. A number that no
/// `u32` holds is taken as want of memory.
fn unlinked(at: usize) -> StartFault
    ensures { Names (Some at) result }
{
    if at <= u32::MAX as usize {
        StartFault::Unlinked(at as u32)
    } else {
        StartFault::NoMemory
    }
}

/// Whether a function has these arguments and these results.
fn is_type(ty: &FuncTy, params: &[ValTy], results: &[ValTy]) -> bool
    ensures { result ≡ is_type (from_to params.now results.now) (Some ty.now) }
{
    ty.params.as_slice() == params && ty.results.as_slice() == results
}

/// The function of the host with this name and this type.
fn named(name: &[u8], ty: &FuncTy) -> Option<HostCall>
    ensures { option_map function_of result ≡ host_named name.now (Some ty.now) }
{
    if name == b"put".as_slice() && is_type(ty, &[ValTy::I32], &[]) {
        return Some(HostCall::Put);
    }
    if name == b"get".as_slice() && is_type(ty, &[], &[ValTy::I32]) {
        return Some(HostCall::Get);
    }
    if name == b"stop".as_slice() && is_type(ty, &[ValTy::I32, ValTy::I32], &[]) {
        return Some(HostCall::Stop);
    }
    None
}

/// The function of the host that an import asks for, if it is one with its type.
fn host_call(m: &Module, import: &Import) -> Option<HostCall>
    ensures { option_map function_of result ≡ host_of m.now import.now }
{
    match import.kind {
        ImportKind::Func(at) => host_function(m, import, at),
        ImportKind::Table(_) => None,
        ImportKind::Memory(_) => None,
        ImportKind::Global(_) => None,
    }
}

/// The function of the host that an import of a function of this type asks for.
fn host_function(m: &Module, import: &Import, ty: u32) -> Option<HostCall>
    ensures { option_map function_of result
        ≡ (if bytes_eq import.now.module (codes "env") then host_named import.now.name (slice_get m.now.types ty) else None) }
{
    if import.module.as_slice() != b"env".as_slice() {
        return None;
    }
    match m.types.get(ty as usize) {
        Some(ty) => named(import.name.as_slice(), ty),
        None => None,
    }
}

/// The functions of the host that the imports ask for, in order.
///
/// # Errors
///
/// `Unlinked` with the number of the first import that is none of them, and `NoMemory`.
pub(crate) fn imported(alloc: Global, m: &Module) -> Result<Vec<ActivationCallee>, StartFault>
    ensures callees { IfOk result (λ callees. map host_called callees.items ≡ map (host_of m.now) m.now.imports) }
    ensures linked { IfOk result (λ callees. unlinked m.now ≡ or_main m.now None) }
    ensures unlinked { IfErr result (Names (unlinked m.now)) }
{
    let mut callees = Vec::new(alloc);
    for (at, import) in m.imports.as_slice().iter().enumerate() {
        let Some(call) = host_call(m, import) else {
            return Err(unlinked(at));
        };
        callees.push(ActivationCallee::Host(call))?;
    }
    Ok(callees)
}

/// The type of a function of the module's own, by the function's index.
fn own_type(m: &Module, func: u32) -> Option<&FuncTy>
    ensures own { IfSome result (λ ty. length m.now.imports ≤ func) }
    ensures ty { IfSome result (λ ty. type_of m.now func ≡ Some ty.now) }
    ensures none { IsNone result → length m.now.imports ≤ func → type_of m.now func ≡ None }
{
    let at = (func as usize).checked_sub(m.imports.len())?;
    let own = m.funcs.get(at)?;
    m.types.get(own.ty as usize)
}

/// Whether a function has no argument, and no result or one i32.
fn is_type_of_main(ty: &FuncTy) -> bool
    ensures { result ≡ is_type (from_to [] []) (Some ty.now) || is_type (from_to [] (I32 ∷ [])) (Some ty.now) }
{
    is_type(ty, &[], &[]) || is_type(ty, &[], &[ValTy::I32])
}

/// Whether the function of this index can be `main`: it is one of the module's own, without arguments and with no result or
/// one i32.
fn is_main(m: &Module, func: u32) -> bool
    ensures { result ≡ is_main m.now (Some func) }
{
    match own_type(m, func) {
        Some(ty) => is_type_of_main(ty),
        None => false,
    }
}

/// The function that is exported as `main`.
fn exported_main(exports: &[Export]) -> Option<u32>
    ensures { result ≡ main_of exports.now }
{
    for export in exports {
        if export.name.as_slice() == b"main".as_slice() {
            return match export.kind {
                ExportKind::Func(func) => Some(func),
                ExportKind::Table(_) => None,
                ExportKind::Memory(_) => None,
                ExportKind::Global(_) => None,
            };
        }
    }
    None
}

/// The index of `main`: a function of the module's own that is exported under this name, without arguments and with no
/// result or one i32.
///
/// # Errors
///
/// `Unlinked` with the number of all imports where there is none, and `NoMemory`.
pub(crate) fn main_of(m: &Module) -> Result<u32, StartFault>
    ensures main { IfOk result (λ func. main_of m.now.exports ≡ Some func) }
    ensures linked { IfOk result (λ func. or_main m.now None ≡ None) }
    ensures unlinked { IfErr result (Names (or_main m.now None)) }
{
    if let Some(func) = exported_main(m.exports.as_slice())
        && is_main(m, func)
    {
        return Ok(func);
    }
    Err(unlinked(m.imports.len()))
}
