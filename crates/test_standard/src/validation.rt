//! Which modules and bodies are valid (chapter 3).

mod build;
mod cases;

use build::ModuleField::{self, *};
use cases::{BODIES, MODULES};
use std::alloc::Global;
use std::test::Fail;
use wa_syntax::{Init, ValTy};
use wa_valid::{ValidFault, validate};

/// What validation says of the module of these parts.
fn verdict(alloc: Global, parts: &[ModuleField]) -> Result<Result<(), Option<u32>>, Fail> {
    match validate(alloc, build::module(alloc, parts)?) {
        Ok(_) => Ok(Ok(())),
        Err(ValidFault::Invalid { func }) => Ok(Err(func)),
        Err(ValidFault::NoMemory) => Err(Fail::from(std::alloc::AllocError)),
    }
}

#[test]
fn modules_are_valid_as_the_standard_says(rt: HostRuntime) -> Result<(), Fail> {
    for (shown, parts, wanted) in MODULES {
        assert_eq!(rt; verdict(rt.alloc(), parts)?, *wanted, "{shown}");
    }
    Ok(())
}

#[test]
fn bodies_are_well_typed_as_the_standard_says(rt: HostRuntime) -> Result<(), Fail> {
    for (shown, ty, steps, typed) in BODIES {
        let parts = [
            Type(&[], &[]),
            Type(&[], &[ValTy::I32]),
            Type(&[ValTy::I32, ValTy::I64], &[ValTy::I32]),
            ImportFunc(2),
            ImportGlobal(ValTy::I32, false),
            Table(1, None),
            Memory(1, None),
            OwnGlobal(ValTy::I64, true, Init::Const64(0)),
            Func(*ty, steps),
        ];
        let wanted = if *typed { Ok(()) } else { Err(Some(0)) };
        assert_eq!(rt; verdict(rt.alloc(), &parts)?, wanted, "{shown}");
    }
    Ok(())
}
