//! Expressions as text: each form in parentheses, with the byte at which it is.

use sa_ast::{Expr, ExprArg, ExprReceiver, Mode, ModeTy, Name, Pos, Ty};
use sqlite_items::Boxed;
use std::alloc::AllocError;
use std::fmt::Write;

/// Writes ASTs, each with the byte at which it is.
#[derive(Drop)]
pub struct Printer {
    pub text: String,
}

impl Printer {
    fn name(&mut self, name: &Name, pos: Pos) -> Result<(), AllocError> {
        for byte in name.as_slice() {
            self.text.push(char::from(*byte))?;
        }
        self.at(pos)
    }

    fn at(&mut self, pos: Pos) -> Result<(), AllocError> {
        let at = pos.at;
        write!(self.text, "@{at}")
    }

    fn word(&mut self, word: &str, pos: Pos) -> Result<(), AllocError> {
        self.text.push_str(word)?;
        self.at(pos)
    }

    fn close(&mut self) -> Result<(), AllocError> {
        self.text.push(')')
    }

    #[cycle(show_type)]
    fn ty(&mut self, ty: &Ty) -> Result<(), AllocError> {
        match ty {
            Ty::Named(name, given, pos) => {
                self.text.push('(')?;
                self.name(name, *pos)?;
                for one in given.as_slice() {
                    self.text.push(' ')?;
                    self.ty(one)?;
                }
                self.close()
            }
            Ty::Same(pos) => self.word("SAME", *pos),
            Ty::Rout(args, gives, pos) => {
                self.word("(ROUT", *pos)?;
                self.bound_args(args.as_slice())?;
                self.bound_result(gives)
            }
            Ty::Iter(args, gives, pos) => {
                self.word("(ITER", *pos)?;
                self.bound_args(args.as_slice())?;
                self.bound_result(gives)
            }
        }
    }

    #[cycle(show_type)]
    fn bound_args(&mut self, args: &[ModeTy]) -> Result<(), AllocError> {
        for arg in args {
            self.mode(arg.mode)?;
            self.ty(&arg.ty)?;
        }
        Ok(())
    }

    #[cycle(show_type)]
    fn bound_result(&mut self, gives: &Option<Boxed<Ty>>) -> Result<(), AllocError> {
        if let Some(ty) = gives {
            self.text.push_str(" : ")?;
            self.ty(ty.get())?;
        }
        self.close()
    }

    fn mode(&mut self, mode: Mode) -> Result<(), AllocError> {
        self.text.push_str(match mode {
            Mode::In => " in ",
            Mode::Out => " out ",
            Mode::Inout => " inout ",
            Mode::Once => " once ",
        })
    }

    fn type_or_none(&mut self, ty: &Option<Ty>) -> Result<(), AllocError> {
        match ty {
            Some(ty) => {
                self.text.push(' ')?;
                self.ty(ty)
            }
            None => self.text.push_str(" -"),
        }
    }

    /// Writes an expression.
    #[cycle(show_expr)]
    pub fn expr(&mut self, e: &Expr) -> Result<(), AllocError> {
        match e {
            Expr::Int(value, pos) => {
                write!(self.text, "{value}")?;
                self.at(*pos)
            }
            Expr::Bool(value, pos) => {
                write!(self.text, "{value}")?;
                self.at(*pos)
            }
            Expr::Char(byte, pos) => {
                write!(self.text, "'{byte}")?;
                self.at(*pos)
            }
            Expr::Text(text, pos) => {
                self.text.push('"')?;
                self.name(text, *pos)
            }
            Expr::SelfRef(pos) => self.word("self", *pos),
            Expr::Void(pos) => self.word("void", *pos),
            Expr::IsVoid(of, pos) => self.form("(void", *pos, of),
            Expr::Exception(pos) => self.word("exception", *pos),
            Expr::New(None, pos) => self.word("new", *pos),
            Expr::New(Some(count), pos) => self.form("(new", *pos, count),
            Expr::Create(of, given, pos) => {
                self.word("(#", *pos)?;
                self.type_or_none(of)?;
                self.args(given.as_slice())
            }
            Expr::Items(items, pos) => {
                self.word("(items", *pos)?;
                self.exprs(items.as_slice())
            }
            Expr::Call(on, name, given, pos) => {
                self.text.push('(')?;
                self.name(name, *pos)?;
                self.on(on)?;
                self.args(given.as_slice())
            }
            Expr::Binary(op, left, right, pos) => {
                write!(self.text, "({op:?}")?;
                self.at(*pos)?;
                self.operand(left)?;
                self.operand(right)?;
                self.close()
            }
            Expr::Unary(op, of, pos) => {
                write!(self.text, "({op:?}")?;
                self.at(*pos)?;
                self.operand(of)?;
                self.close()
            }
            Expr::Index(of, places, pos) => {
                self.word("(index", *pos)?;
                match of {
                    Some(of) => self.operand(of)?,
                    None => self.text.push_str(" -")?,
                }
                self.exprs(places.as_slice())
            }
            Expr::Bind(of, pos) => self.form("(bind", *pos, of),
        }
    }

    #[cycle(show_expr)]
    fn operand(&mut self, of: &Boxed<Expr>) -> Result<(), AllocError> {
        self.text.push(' ')?;
        self.expr(of.get())
    }

    #[cycle(show_expr)]
    fn form(&mut self, word: &str, pos: Pos, of: &Boxed<Expr>) -> Result<(), AllocError> {
        self.word(word, pos)?;
        self.operand(of)?;
        self.close()
    }

    #[cycle(show_expr)]
    fn exprs(&mut self, all: &[Expr]) -> Result<(), AllocError> {
        for e in all {
            self.text.push(' ')?;
            self.expr(e)?;
        }
        self.close()
    }

    #[cycle(show_expr)]
    fn on(&mut self, on: &ExprReceiver) -> Result<(), AllocError> {
        match on {
            ExprReceiver::Implied => Ok(()),
            ExprReceiver::Of(of) => {
                self.text.push_str(" .")?;
                self.operand(of)
            }
            ExprReceiver::OfClass(ty) => {
                self.text.push_str(" :: ")?;
                self.ty(ty)
            }
        }
    }

    #[cycle(show_expr)]
    fn args(&mut self, all: &[ExprArg]) -> Result<(), AllocError> {
        for arg in all {
            match arg {
                ExprArg::Value(mode, e) => {
                    self.mode(*mode)?;
                    self.expr(e)?;
                }
                ExprArg::Unbound(ty, pos) => {
                    self.word(" (_", *pos)?;
                    self.type_or_none(ty)?;
                    self.close()?;
                }
            }
        }
        self.close()
    }
}
