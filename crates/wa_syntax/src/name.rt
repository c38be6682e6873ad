//! Names of imports and exports: texts in UTF-8 (section 2.2.4), as bytes.

ghost use Rattle.std.specs.Prelude.{◌≡◌, IfOk};

use std::alloc::{AllocError, Global};
use std::marker::Model;

/// A name, as its bytes.
#[derive(Debug, Drop)]
pub struct WasmName {
    bytes: Vec<u8>,
}

impl Model for WasmName {
    ghost use Rattle.std.specs.Prelude.{List, ℕ};

    ghost Value = { List ℕ };

    ghost view = { λ n. n.bytes.items };
}

impl WasmName {
    /// A name of these bytes. Fails where memory runs out.
    pub fn from_slice(alloc: Global, bytes: &[u8]) -> Result<WasmName, AllocError>
        ensures { IfOk result (λ name. name ≡ bytes.now) }
    {
        let bytes = Vec::from_slice(alloc, bytes)?;
        Ok(WasmName { bytes })
    }

    /// The bytes of the name.
    pub fn as_slice(&self) -> &[u8]
        ensures { result.now ≡ self.now }
    {
        self.bytes.as_slice()
    }
}
