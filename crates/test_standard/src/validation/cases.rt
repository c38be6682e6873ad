//! Small modules and bodies, each with what the standard says of it. V8 says the same of each that isn't marked.

use crate::validation::build::FlatInstr::{self, *};
use crate::validation::build::ModuleField::{self, *};
use wa_syntax::Init;
use wa_syntax::ValTy::{I32, I64};
use wa_syntax::opcode::*;

/// A label, the parts of a module, and for an invalid one the index of the ill-typed function, if that is why.
pub type ModuleCase = (
    &'static str,
    &'static [ModuleField<'static>],
    Result<(), Option<u32>>,
);

/// Modules that keep or break a rule outside bodies, and the indices of ill-typed functions.
pub const MODULES: &[ModuleCase] = &[
    ("an empty module", &[], Ok(())),
    // V8 takes types with several results.
    (
        "a type with two results",
        &[Type(&[], &[I32, I32])],
        Err(None),
    ),
    ("an import of an unknown type", &[ImportFunc(0)], Err(None)),
    (
        "a function of an unknown type",
        &[Type(&[], &[]), Func(1, &[])],
        Err(None),
    ),
    ("the greatest memory", &[Memory(65536, Some(65536))], Ok(())),
    (
        "a memory that is too great",
        &[Memory(65537, None)],
        Err(None),
    ),
    (
        "a memory that may grow too great",
        &[Memory(1, Some(65537))],
        Err(None),
    ),
    (
        "a memory greater than its maximum",
        &[Memory(2, Some(1))],
        Err(None),
    ),
    (
        "a table greater than its maximum",
        &[Table(2, Some(1))],
        Err(None),
    ),
    (
        "an imported table greater than its maximum",
        &[ImportTable(2, Some(1))],
        Err(None),
    ),
    (
        "a table with the greatest maximum",
        &[Table(0, Some(4294967295))],
        Ok(()),
    ),
    (
        "two memories",
        &[ImportMemory(1, None), Memory(1, None)],
        Err(None),
    ),
    // V8 takes several tables.
    (
        "two tables",
        &[ImportTable(1, None), Table(1, None)],
        Err(None),
    ),
    (
        "a global of another type than its value",
        &[OwnGlobal(I32, false, Init::Const64(0))],
        Err(None),
    ),
    (
        "a global that reads an imported one",
        &[
            ImportGlobal(I32, false),
            OwnGlobal(I32, true, Init::Global(0)),
        ],
        Ok(()),
    ),
    (
        "a global that reads a mutable one",
        &[
            ImportGlobal(I32, true),
            OwnGlobal(I32, true, Init::Global(0)),
        ],
        Err(None),
    ),
    (
        "a global that reads one of another type",
        &[
            ImportGlobal(I64, false),
            OwnGlobal(I32, true, Init::Global(0)),
        ],
        Err(None),
    ),
    (
        "a global that reads itself",
        &[OwnGlobal(I32, false, Init::Global(0))],
        Err(None),
    ),
    (
        "a global that reads an own one",
        &[
            OwnGlobal(I32, false, Init::Const32(0)),
            OwnGlobal(I32, false, Init::Global(0)),
        ],
        Err(None),
    ),
    // V8 refuses it.
    (
        "an offset that reads an own global",
        &[
            Memory(1, None),
            OwnGlobal(I32, false, Init::Const32(0)),
            Data(0, Init::Global(0)),
        ],
        Ok(()),
    ),
    (
        "an offset that reads an imported global",
        &[
            ImportGlobal(I32, false),
            Memory(1, None),
            Data(0, Init::Global(0)),
        ],
        Ok(()),
    ),
    (
        "an offset that reads a mutable global",
        &[
            ImportGlobal(I32, true),
            Memory(1, None),
            Data(0, Init::Global(0)),
        ],
        Err(None),
    ),
    (
        "an offset of 64 bits",
        &[Memory(1, None), Data(0, Init::Const64(0))],
        Err(None),
    ),
    (
        "a data segment without a memory",
        &[Data(0, Init::Const32(0))],
        Err(None),
    ),
    (
        "an element segment without a table",
        &[Elem(0, Init::Const32(0), &[])],
        Err(None),
    ),
    (
        "an element segment with an unknown function",
        &[Table(1, None), Elem(0, Init::Const32(0), &[0])],
        Err(None),
    ),
    (
        "an element segment with a function",
        &[
            Type(&[], &[]),
            ImportFunc(0),
            Table(1, None),
            Elem(0, Init::Const32(0), &[0]),
        ],
        Ok(()),
    ),
    (
        "an export of an unknown function",
        &[ExportFunc(b"f", 0)],
        Err(None),
    ),
    (
        "an export of an unknown memory",
        &[ExportMemory(b"f", 0)],
        Err(None),
    ),
    (
        "an export of an unknown global",
        &[ExportGlobal(b"f", 0)],
        Err(None),
    ),
    (
        "exports of different names",
        &[
            Memory(1, None),
            ExportMemory(b"a", 0),
            ExportMemory(b"b", 0),
            ExportMemory(b"aa", 0),
        ],
        Ok(()),
    ),
    (
        "exports of one name",
        &[
            Memory(1, None),
            ImportGlobal(I32, true),
            ExportMemory(b"a", 0),
            ExportMemory(b"b", 0),
            ExportGlobal(b"a", 0),
        ],
        Err(None),
    ),
    (
        "a start function",
        &[Type(&[], &[]), ImportFunc(0), Start(0)],
        Ok(()),
    ),
    (
        "an unknown start function",
        &[Type(&[], &[]), Start(0)],
        Err(None),
    ),
    (
        "a start function with a result",
        &[Type(&[], &[I32]), ImportFunc(0), Start(0)],
        Err(None),
    ),
    (
        "a start function with a parameter",
        &[Type(&[I32], &[]), ImportFunc(0), Start(0)],
        Err(None),
    ),
    (
        "the first of two ill-typed functions",
        &[
            Type(&[], &[]),
            ImportFunc(0),
            Func(0, &[]),
            Func(0, &[Op(DROP)]),
            Func(0, &[Op(SELECT)]),
        ],
        Err(Some(1)),
    ),
    (
        "an ill-typed function and an ill-typed global",
        &[
            Type(&[], &[]),
            Func(0, &[Op(DROP)]),
            OwnGlobal(I32, false, Init::Const64(0)),
        ],
        Err(None),
    ),
    (
        "an unknown memory",
        &[Type(&[], &[]), Func(0, &[Op(MEMORY_SIZE), Op(DROP)])],
        Err(Some(0)),
    ),
    (
        "an unknown table",
        &[Type(&[], &[]), Func(0, &[Const32, CallIndirect(0)])],
        Err(Some(0)),
    ),
];

/// A label, the index of the function's type, its body, and whether it is well typed.
pub type BodyCase = (&'static str, u32, &'static [FlatInstr<'static>], bool);

/// Bodies of a function in the module of `bodies`.
pub const BODIES: &[BodyCase] = &[
    ("nothing", 0, &[], true),
    ("an operand too few", 0, &[Op(DROP)], false),
    (
        "any operand in unreachable code",
        0,
        &[Op(UNREACHABLE), Op(DROP)],
        true,
    ),
    ("a result", 1, &[Const32], true),
    ("a result too few", 1, &[], false),
    ("a result of another type", 1, &[Const64], false),
    ("a result too many", 1, &[Const32, Const32], false),
    (
        "a result too many in unreachable code",
        0,
        &[Op(UNREACHABLE), Const32],
        false,
    ),
    (
        "any result of unreachable code",
        1,
        &[Op(UNREACHABLE)],
        true,
    ),
    (
        "another result in unreachable code",
        1,
        &[Op(UNREACHABLE), Const64],
        false,
    ),
    ("select", 1, &[Const32, Const32, Const32, Op(SELECT)], true),
    (
        "select of 64 bits",
        1,
        &[Const64, Const64, Const32, Op(SELECT), Op(I32_WRAP_I64)],
        true,
    ),
    (
        "select of two types",
        0,
        &[Const32, Const64, Const32, Op(SELECT), Op(DROP)],
        false,
    ),
    (
        "select of unknown operands",
        1,
        &[Op(UNREACHABLE), Op(SELECT)],
        true,
    ),
    (
        "select of an unknown operand",
        1,
        &[Op(UNREACHABLE), Const64, Const32, Op(SELECT)],
        false,
    ),
    ("an addition", 1, &[Const32, Const32, Op(I32_ADD)], true),
    (
        "an addition of two types",
        1,
        &[Const32, Const64, Op(I32_ADD)],
        false,
    ),
    ("a test of 64 bits", 1, &[Const64, Op(I64_EQZ)], true),
    (
        "a comparison of 64 bits",
        1,
        &[Const64, Const64, Op(I64_LT_U)],
        true,
    ),
    (
        "conversions",
        1,
        &[Const32, Op(I64_EXTEND_I32_S), Op(I64_CLZ), Op(I32_WRAP_I64)],
        true,
    ),
    (
        "an operand of 32 bits for 64",
        1,
        &[Const32, Op(I64_CLZ), Op(I32_WRAP_I64)],
        false,
    ),
    ("a local", 1, &[Get(1)], true),
    ("a local of another type", 1, &[Get(2)], false),
    ("an unknown local", 0, &[Get(3), Op(DROP)], false),
    (
        "a local after the parameters",
        2,
        &[Get(4), Op(I64_EQZ)],
        true,
    ),
    ("a parameter", 2, &[Get(1), Op(I64_EQZ)], true),
    ("a parameter of another type", 2, &[Get(1)], false),
    (
        "a local that is set to another type",
        0,
        &[Const64, Set(0)],
        false,
    ),
    ("a local that is set and read", 1, &[Const32, Tee(0)], true),
    ("a global", 1, &[GlobalGet(0)], true),
    (
        "a constant global that is set",
        0,
        &[Const32, GlobalSet(0)],
        false,
    ),
    ("a global that is set", 0, &[Const64, GlobalSet(1)], true),
    ("an unknown global", 0, &[GlobalGet(2), Op(DROP)], false),
    ("a load", 1, &[Const32, Access(I32_LOAD, 2)], true),
    (
        "a load aligned to more than its width",
        1,
        &[Const32, Access(I32_LOAD, 3)],
        false,
    ),
    (
        "a load aligned to 2 to the 32",
        1,
        &[Const32, Access(I32_LOAD8_U, 32)],
        false,
    ),
    (
        "a load aligned to the greatest power",
        1,
        &[Const32, Access(I32_LOAD, 4294967295)],
        false,
    ),
    (
        "a load of 64 bits by their width",
        1,
        &[Const32, Access(I64_LOAD, 3), Op(I32_WRAP_I64)],
        true,
    ),
    (
        "a store",
        0,
        &[Const32, Const64, Access(I64_STORE32, 2)],
        true,
    ),
    (
        "a store with its operands exchanged",
        0,
        &[Const64, Const32, Access(I64_STORE32, 2)],
        false,
    ),
    (
        "a memory that grows",
        1,
        &[Op(MEMORY_SIZE), Op(MEMORY_GROW)],
        true,
    ),
    (
        "a memory that grows by 64 bits",
        1,
        &[Const64, Op(MEMORY_GROW)],
        false,
    ),
    (
        "a block with a result",
        1,
        &[Block(Some(I32)), Const32, End],
        true,
    ),
    (
        "a block that takes an operand from outside",
        1,
        &[Const32, Block(None), Op(DROP), End],
        false,
    ),
    (
        "unreachable code inside a block alone",
        1,
        &[Block(None), Op(UNREACHABLE), End],
        false,
    ),
    (
        "a branch to a loop with a result",
        1,
        &[Loop(Some(I32)), Br(0), End],
        true,
    ),
    (
        "a branch to a block without its result",
        1,
        &[Block(Some(I32)), Br(0), End],
        false,
    ),
    (
        "two branches",
        1,
        &[Const32, If(Some(I32)), Const32, Else, Const32, End],
        true,
    ),
    (
        "a branch without a result",
        1,
        &[Const32, If(Some(I32)), Const32, Else, End],
        false,
    ),
    (
        "a condition of 64 bits",
        0,
        &[Const64, If(None), Else, End],
        false,
    ),
    (
        "a branch to the end",
        1,
        &[Const32, Br(0), Op(I32_ADD)],
        true,
    ),
    ("a branch to an unknown label", 0, &[Br(1)], false),
    (
        "a conditional branch",
        1,
        &[Const32, Const32, BrIf(0)],
        true,
    ),
    (
        "a conditional branch without a result",
        1,
        &[Const32, BrIf(0)],
        false,
    ),
    (
        "a table of branches",
        1,
        &[Const32, Const32, BrTable(&[0, 0], 0)],
        true,
    ),
    (
        "a table of branches to labels of two types",
        1,
        &[
            Block(None),
            Const32,
            Const32,
            BrTable(&[0], 1),
            End,
            Const32,
        ],
        false,
    ),
    (
        "a table of branches to an unknown label",
        1,
        &[Const32, Const32, BrTable(&[1], 0)],
        false,
    ),
    // V8 takes it.
    (
        "a table of branches to labels of two types in unreachable code",
        1,
        &[
            Block(Some(I64)),
            Op(UNREACHABLE),
            BrTable(&[0], 1),
            End,
            Op(DROP),
            Const32,
        ],
        false,
    ),
    (
        "a return above other operands",
        1,
        &[Const64, Const32, Op(RETURN)],
        true,
    ),
    ("a return without a result", 1, &[Op(RETURN)], false),
    ("a call", 1, &[Const32, Const64, Call(0)], true),
    (
        "a call with exchanged operands",
        1,
        &[Const64, Const32, Call(0)],
        false,
    ),
    (
        "a call with unknown operands",
        1,
        &[Op(UNREACHABLE), Const64, Call(0)],
        true,
    ),
    (
        "a call with a wrong operand in unreachable code",
        1,
        &[Op(UNREACHABLE), Const32, Call(0)],
        false,
    ),
    ("a call of an unknown function", 0, &[Call(2)], false),
    (
        "an indirect call",
        1,
        &[Const32, Const64, Const32, CallIndirect(2)],
        true,
    ),
    (
        "an indirect call without a place",
        1,
        &[Const32, Const64, CallIndirect(2)],
        false,
    ),
    (
        "an indirect call of an unknown type",
        0,
        &[Const32, CallIndirect(3)],
        false,
    ),
];
