//! Expressions, calls and types as JSON: each a list of the name of its form and of its fields, in their order.

use crate::writer::Writer;
use sa_ast::{Mode, ModeTy, Pos, Ty};
use sa_typed::{Target, TypedArg, TypedCallee, TypedExpr};
use sqlite_items::Boxed;
use std::alloc::AllocError;

impl Writer {
    /// The number of a text, and the byte in it.
    pub fn pos(&mut self, pos: Pos) -> Result<(), AllocError> {
        self.open_list()?;
        self.number(pos.file)?;
        self.number(pos.at)?;
        self.close_list()
    }

    pub fn mode(&mut self, mode: Mode) -> Result<(), AllocError> {
        self.word(match mode {
            Mode::In => "In",
            Mode::Out => "Out",
            Mode::Inout => "Inout",
            Mode::Once => "Once",
        })
    }

    /// A type, without positions.
    #[cycle(write_type)]
    pub fn ty(&mut self, ty: &Ty) -> Result<(), AllocError> {
        match ty {
            Ty::Named(name, given, _) => {
                self.open("Named")?;
                self.bytes(name.as_slice())?;
                self.types(given.as_slice())?;
                self.close_list()
            }
            Ty::Same(_) => {
                self.open("Same")?;
                self.close_list()
            }
            Ty::Rout(args, gives, _) => {
                self.open("Rout")?;
                self.bound_args(args.as_slice())?;
                self.bound_result(gives)?;
                self.close_list()
            }
            Ty::Iter(args, gives, _) => {
                self.open("Iter")?;
                self.bound_args(args.as_slice())?;
                self.bound_result(gives)?;
                self.close_list()
            }
        }
    }

    #[cycle(write_type)]
    fn types(&mut self, types: &[Ty]) -> Result<(), AllocError> {
        self.open_list()?;
        for ty in types {
            self.ty(ty)?;
        }
        self.close_list()
    }

    #[cycle(write_type)]
    fn bound_args(&mut self, args: &[ModeTy]) -> Result<(), AllocError> {
        self.open_list()?;
        for arg in args {
            self.open_list()?;
            self.mode(arg.mode)?;
            self.ty(&arg.ty)?;
            self.close_list()?;
        }
        self.close_list()
    }

    #[cycle(write_type)]
    fn bound_result(&mut self, gives: &Option<Boxed<Ty>>) -> Result<(), AllocError> {
        match gives {
            Some(ty) => self.ty(ty.get()),
            None => self.nothing(),
        }
    }

    /// A form with one number.
    fn form_of(&mut self, form: &str, number: u32) -> Result<(), AllocError> {
        self.open(form)?;
        self.number(number)?;
        self.close_list()
    }

    pub fn target(&mut self, target: Target) -> Result<(), AllocError> {
        match target {
            Target::Feature(number) => self.form_of("Feature", number),
            Target::Builtin(feature) => self.form_of("Builtin", u32::from(feature.number())),
            Target::Get(place) => self.form_of("Get", place),
            Target::Set(place) => self.form_of("Set", place),
            Target::GetShared(number) => self.form_of("GetShared", number),
            Target::SetShared(number) => self.form_of("SetShared", number),
        }
    }

    pub fn called(&mut self, called: TypedCallee) -> Result<(), AllocError> {
        match called {
            TypedCallee::Static(target, class) => {
                self.open("Static")?;
                self.target(target)?;
                self.number(class)?;
                self.close_list()
            }
            TypedCallee::Dispatch(signature) => self.form_of("Dispatch", signature),
            TypedCallee::Bound => {
                self.open("Bound")?;
                self.close_list()
            }
        }
    }

    /// An expression.
    #[cycle(write_expr)]
    pub fn expr(&mut self, e: &TypedExpr) -> Result<(), AllocError> {
        match e {
            TypedExpr::Int(value) => {
                self.open("Int")?;
                self.integer(*value)?;
            }
            TypedExpr::Bool(value) => {
                self.open("Bool")?;
                self.truth(*value)?;
            }
            TypedExpr::Char(byte) => {
                self.open("Char")?;
                self.number(u32::from(*byte))?;
            }
            TypedExpr::Text(text) => {
                self.open("Text")?;
                self.bytes(text.as_slice())?;
            }
            TypedExpr::VoidValue(ty) => {
                self.open("VoidOf")?;
                self.number(*ty)?;
            }
            TypedExpr::SelfRef => self.open("Me")?,
            TypedExpr::Var(var) => {
                self.open("Var")?;
                self.number(*var)?;
            }
            TypedExpr::Exception => self.open("Exception")?,
            TypedExpr::IsVoid(of) => {
                self.open("IsVoid")?;
                self.expr(of.get())?;
            }
            TypedExpr::New(ty, pos) => {
                self.open("New")?;
                self.number(*ty)?;
                self.pos(*pos)?;
            }
            TypedExpr::NewArray(ty, count, pos) => {
                self.open("NewArray")?;
                self.number(*ty)?;
                self.expr(count.get())?;
                self.pos(*pos)?;
            }
            TypedExpr::Array(ty, elements, pos) => {
                self.open("Items")?;
                self.number(*ty)?;
                self.exprs(elements.as_slice())?;
                self.pos(*pos)?;
            }
            TypedExpr::Call(called, on, args, pos) => {
                self.open("Call")?;
                self.called(*called)?;
                self.expr(on.get())?;
                self.args(args.as_slice())?;
                self.pos(*pos)?;
            }
            TypedExpr::IterCall(site, on, args, pos) => {
                self.open("IterCall")?;
                self.number(*site)?;
                self.expr(on.get())?;
                self.args(args.as_slice())?;
                self.pos(*pos)?;
            }
            TypedExpr::Bind(called, on, args, ty, pos) => {
                self.open("Bind")?;
                self.called(*called)?;
                self.expr(on.get())?;
                self.args(args.as_slice())?;
                self.number(*ty)?;
                self.pos(*pos)?;
            }
            TypedExpr::Reversed(target, first, second, pos) => {
                self.open("Swapped")?;
                self.target(*target)?;
                self.expr(first.get())?;
                self.expr(second.get())?;
                self.pos(*pos)?;
            }
            TypedExpr::And(first, second) => {
                self.open("And")?;
                self.expr(first.get())?;
                self.expr(second.get())?;
            }
            TypedExpr::Or(first, second) => {
                self.open("Or")?;
                self.expr(first.get())?;
                self.expr(second.get())?;
            }
            TypedExpr::Box(ty, of, pos) => {
                self.open("Widen")?;
                self.number(*ty)?;
                self.expr(of.get())?;
                self.pos(*pos)?;
            }
        }
        self.close_list()
    }

    #[cycle(write_expr)]
    pub fn exprs(&mut self, exprs: &[TypedExpr]) -> Result<(), AllocError> {
        self.open_list()?;
        for e in exprs {
            self.expr(e)?;
        }
        self.close_list()
    }

    #[cycle(write_expr)]
    fn args(&mut self, args: &[TypedArg]) -> Result<(), AllocError> {
        self.open_list()?;
        for arg in args {
            self.arg(arg)?;
        }
        self.close_list()
    }

    #[cycle(write_expr)]
    fn arg(&mut self, arg: &TypedArg) -> Result<(), AllocError> {
        match arg {
            TypedArg::Value(mode, value) => {
                self.open("Value")?;
                self.mode(*mode)?;
                self.expr(value)?;
            }
            TypedArg::Variable(mode, var) => {
                self.open("Variable")?;
                self.mode(*mode)?;
                self.number(*var)?;
            }
            TypedArg::Open => self.open("Left")?,
        }
        self.close_list()
    }
}
