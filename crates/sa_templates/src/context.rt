//! The context of an operation: the program, the body, how deep the operation is nested in the body's code, and the locals of the body's
//! function.
//!
//! A body's function takes its first arguments, `self`, how much deeper activations may nest and its frame, and returns a status. Its other
//! locals are three of 32 bits, a word for values that nothing reads, the other variables of the body, and for each site of the body the
//! frame of its instance.

use crate::nesting::LabelDepth;
use crate::operand_source::OperandSource;
use crate::subtype_ranges::SubtypeRanges;
use failure::{Failure, Invariant, known};
use sa_cfg::{CfgBody, CfgProgram, FIRST_TEMPORARY};
use sa_dispatch::ImplementationTable;
use sa_runtime::layout::PARAMETERS;
use sa_runtime::template_ops::TemplateOp;
use sa_runtime::trace::Tracing;
use sa_stackify::{ResultPlace, SaveSet};
use std::alloc::Global;
use wa_syntax::{Locals, ValTy};

/// The locals of a body's function that are no variables, after the parameters that are: `self`, how much deeper activations may nest, the
/// frame, the number of the block in which the body continues, a status, an address or the number of a type, and a word that nothing reads.
const ME: u32 = 0;

const DEPTH: u32 = 1;

const FRAME: u32 = 2;

const BLOCK: u32 = 3;

const STATUS: u32 = 4;

const ADDRESS: u32 = 5;

const WORD: u32 = 6;

/// How many locals are between the variables that are parameters and the others.
const BETWEEN: u32 = 7;

/// How many of these are of 32 bits and no parameters.
const ADDRESSES: u32 = 3;

/// What a body is for.
#[derive(Clone, Copy)]
pub enum Role {
    /// A feature.
    Feature,
    /// An adapter, for an implementation of a signature. It forwards its faults to its caller.
    Adapter,
    /// The entry: the initialisers of the shareds and the call of `main`.
    Entry,
}

/// What is the same at each position of the program that is emitted: the CFG program, and what was found out about it before the first
/// instruction.
#[derive(Clone, Copy)]
pub struct EmitProgram<'a> {
    pub flat: &'a CfgProgram,
    /// The implementations of its signatures.
    pub rows: &'a ImplementationTable,
    /// The address of each text.
    pub texts: &'a [u32],
    /// For each type the concrete types among it and its subtypes.
    pub below: &'a SubtypeRanges,
    /// The address of each bind's entry.
    pub entries: &'a [u32],
    /// For each body its index in the table after those of the implementation table, if it has one.
    pub places: &'a [Option<u32>],
    /// For each function of the runtime its number in the module, if the program can reach it.
    pub runtime: &'a [Option<u32>],
    /// For each body the number of its function in the module, if the program can reach it.
    pub functions: &'a [Option<u32>],
    /// Whether the module reports the events of the instances of iters.
    pub tracing: Tracing,
}

impl<'a> EmitProgram<'a> {
    /// A body by its number. The answer is `Broken` where there is none.
    pub fn body(&self, number: u32) -> Result<&'a CfgBody, Failure> {
        known(self.flat.bodies.get(number as usize), Invariant::CfgNumber)
    }

    /// The function of a body, by the body's number. The answer is `Broken` where the module has none.
    pub fn function_of(&self, body: u32) -> Result<u32, Failure> {
        let number = known(
            self.functions.get(body as usize).copied(),
            Invariant::CfgNumber,
        )?;
        known(number, Invariant::CfgNumber)
    }

    /// The number of the body that does the implementation in this row. The answer is `Broken` where there is no such row.
    pub fn body_of_implementation(&self, row: u32) -> Result<u32, Failure> {
        known(
            self.flat.targets.get(row as usize).copied(),
            Invariant::CfgNumber,
        )
    }
}

/// The context of an operation.
#[derive(Clone, Copy)]
pub struct EmitContext<'a> {
    pub program: EmitProgram<'a>,
    /// The body of the operation.
    pub body: &'a CfgBody,
    /// What this body is for.
    pub role: Role,
    /// For each block of the body whose label is in scope the nesting around what the label is of.
    pub labels: &'a [Option<u32>],
    /// For each block of the body its number, if jumps to it go by way of the dispatch.
    pub again: &'a [Option<u32>],
    /// For each block of the body the number by which the body continues in it, if it does.
    pub numbers: &'a [Option<u32>],
    /// How deep the operation is nested in the code of the body.
    pub nesting: LabelDepth,
    /// How each temporary is read.
    pub readings: &'a [OperandSource],
    /// What becomes of the operation's value.
    pub given: ResultPlace,
    /// The block in which the operation continues if its instance has ended and it decides the branch after it at once.
    pub left: Option<u32>,
    /// What the body saves while it is suspended.
    pub keeping: &'a SaveSet,
    /// The index of the body's first site among all sites of the program.
    pub first_site: u32,
}

impl<'a> EmitContext<'a> {
    /// The context of a position in a block of code that is opened here.
    pub fn further_in(&self) -> Result<EmitContext<'a>, Failure> {
        let nesting = self.nesting.further_in(1)?;
        Ok(EmitContext { nesting, ..*self })
    }

    /// The local with a variable of the body.
    pub fn local(&self, var: u32) -> u32 {
        local_of(self.body, var)
    }

    /// The local with the frame of a site's instance.
    pub fn site(&self, site: u32) -> u32 {
        site_local(self.body, site)
    }

    /// The place of a site among all sites of the program. The answer is `Broken` where 32 bits don't hold it.
    pub fn place_of_site(&self, site: u32) -> Result<u32, Failure> {
        known(self.first_site.checked_add(site), Invariant::CfgNumber)
    }

    /// The local with the body's `self`.
    pub fn me(&self) -> u32 {
        self_local(self.body)
    }

    /// The local with how much deeper activations may nest.
    pub fn depth(&self) -> u32 {
        depth_local(self.body)
    }

    /// The local with the address of the instance's frame, which is 0 where it has none.
    pub fn frame(&self) -> u32 {
        frame_local(self.body)
    }

    /// The local with the number of the block in which the body continues.
    pub fn block(&self) -> u32 {
        block_local(self.body)
    }

    /// The local with the status that a call returned.
    pub fn status(&self) -> u32 {
        behind_parameters(self.body, STATUS)
    }

    /// The local for an address or the number of a type.
    pub fn address(&self) -> u32 {
        address_local(self.body)
    }

    /// How a variable is read.
    pub fn reading(&self, var: u32) -> OperandSource {
        let Some(place) = var.checked_sub(FIRST_TEMPORARY) else {
            return OperandSource::Local;
        };
        let reading = self.readings.get(place as usize).copied();
        reading.unwrap_or(OperandSource::Local)
    }

    /// Whether the value of a variable is an operand already.
    pub fn is_operand(&self, var: u32) -> bool {
        matches!(
            self.reading(var),
            OperandSource::Operand | OperandSource::Truth
        )
    }

    /// Reads a variable.
    pub fn operand(&self, var: u32) -> TemplateOp {
        match self.reading(var) {
            OperandSource::Local => TemplateOp::Get(self.local(var)),
            OperandSource::Word(word) => TemplateOp::I64(word),
            OperandSource::SelfRef => TemplateOp::Get(self.me()),
            OperandSource::Operand => TemplateOp::Here,
            OperandSource::Truth => TemplateOp::Here,
        }
    }

    /// Reads a variable that is read again.
    pub fn first_operand(&self, var: u32) -> TemplateOp {
        match self.reading(var) {
            OperandSource::Operand => TemplateOp::Tee(self.local(var)),
            _ => self.operand(var),
        }
    }

    /// Reads a variable again.
    pub fn same_operand(&self, var: u32) -> TemplateOp {
        match self.reading(var) {
            OperandSource::Operand => TemplateOp::Get(self.local(var)),
            _ => self.operand(var),
        }
    }

    /// The local that gets a value: that of the variable, or of the one that it is moved to, or one that nothing reads.
    pub fn receiving(&self, var: Option<u32>) -> u32 {
        match (self.given, var) {
            (ResultPlace::Coalesced(var), _) => local_of(self.body, var),
            (_, Some(var)) => local_of(self.body, var),
            (_, None) => behind_parameters(self.body, WORD),
        }
    }

    /// Takes the operand for the operation's value.
    pub fn put(&self, var: Option<u32>) -> TemplateOp {
        match self.given {
            ResultPlace::Stack => TemplateOp::Here,
            _ => TemplateOp::Set(self.receiving(var)),
        }
    }

    /// Calls a function of the runtime. The answer is `Broken` where the module has none.
    pub fn runtime(&self, function: u32) -> Result<TemplateOp, Failure> {
        let number = known(
            self.program.runtime.get(function as usize).copied(),
            Invariant::CfgNumber,
        )?;
        Ok(TemplateOp::Call(known(number, Invariant::CfgNumber)?))
    }

    /// The number of attributes of a type.
    pub fn attributes(&self, ty: u32) -> Result<u32, Failure> {
        known(
            self.program.flat.types.get(ty as usize).copied(),
            Invariant::CfgNumber,
        )
    }
}

/// How many arguments of a body are parameters of its function: its first variables.
pub fn parameters_of(body: &CfgBody) -> u32 {
    body.formals.len().min(PARAMETERS) as u32
}

/// A local after the variables that are parameters.
fn behind_parameters(body: &CfgBody, place: u32) -> u32 {
    parameters_of(body).saturating_add(place)
}

/// The local with the body's `self`.
pub fn self_local(body: &CfgBody) -> u32 {
    behind_parameters(body, ME)
}

/// The local with how much deeper activations may nest.
fn depth_local(body: &CfgBody) -> u32 {
    behind_parameters(body, DEPTH)
}

/// The local with the frame.
pub fn frame_local(body: &CfgBody) -> u32 {
    behind_parameters(body, FRAME)
}

/// The local with the number of the block in which the body continues.
pub fn block_local(body: &CfgBody) -> u32 {
    behind_parameters(body, BLOCK)
}

/// The local for an address or the number of a type.
pub fn address_local(body: &CfgBody) -> u32 {
    behind_parameters(body, ADDRESS)
}

/// The local with a variable of the body.
pub fn local_of(body: &CfgBody, var: u32) -> u32 {
    if var < parameters_of(body) {
        return var;
    }
    if var < FIRST_TEMPORARY {
        return var + BETWEEN;
    }
    (var - FIRST_TEMPORARY)
        .saturating_add(body.variable_count)
        .saturating_add(BETWEEN)
}

/// The local with the frame of a site's instance, which is 0 where the site has none. They come after the words.
pub fn site_local(body: &CfgBody, site: u32) -> u32 {
    let following = body.temporaries.max(FIRST_TEMPORARY);
    local_of(body, following).saturating_add(site)
}

/// The locals of the function of the body.
///
/// # Errors
///
/// A `Failure`: `Broken` where 32 bits don't hold their number.
pub fn locals_of(alloc: Global, body: &CfgBody) -> Result<Locals, Failure> {
    let temporaries = body.temporaries.saturating_sub(FIRST_TEMPORARY);
    let others = body.variable_count.saturating_sub(parameters_of(body));
    let words = known(others.checked_add(temporaries), Invariant::CfgNumber)?;
    let words = known(words.checked_add(1), Invariant::CfgNumber)?;
    let mut locals = Locals::new(alloc);
    locals.push(ADDRESSES, ValTy::I32)?;
    locals.push(words, ValTy::I64)?;
    if body.sites > 0 {
        locals.push(body.sites, ValTy::I32)?;
    }
    Ok(locals)
}
