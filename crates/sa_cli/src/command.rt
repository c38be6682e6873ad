//! What a command line asks for.

/// What a command line asks for.
#[derive(Debug, Drop)]
pub enum Command<'a> {
    Run(Run<'a>),
    Build(Build<'a>),
    Check(Check<'a>),
    Exec(Exec<'a>),
    /// Prints the text of the generated program with so many classes, from 1 to 500.
    Gen(u32),
    /// Compiles and runs the generated program with so many classes, from 1 to 500.
    Selftest(u32),
    Listing(Listing<'a>),
    Assemble(Assemble<'a>),
    /// A form of the program in the files is to be printed.
    Dump(Dump<'a>),
    /// Prints the help on this topic.
    Help(Topic),
    /// Prints the version.
    Version,
    /// Prints the page that explains this word.
    Explain(&'a str),
    /// Prints the file of the library with this name, or without a name the list of its files.
    Library(Option<&'a str>),
}

/// The topic of help: all commands, or the one with this name.
#[derive(Clone, Copy, Debug, PartialEq, Eq, Hash)]
pub enum Topic {
    All,
    Run,
    Build,
    Check,
    Exec,
    Gen,
    Selftest,
    Listing,
    Assemble,
    Dump,
    Help,
    Version,
    Explain,
    Library,
}

/// Whether the contracts of a program are checked.
#[derive(Clone, Copy, Debug, PartialEq, Eq, Hash)]
pub enum Contracts {
    /// They are parsed, and have no effect.
    Dropped,
    /// They are checked when the program runs.
    Checked,
}

/// What is reported about the iters of a program that runs.
#[derive(Clone, Copy, Debug, PartialEq, Eq, Hash)]
pub enum Trace {
    /// Nothing.
    Silent,
    /// The events of each of their instances.
    Reported,
}

/// How much is reported about the cause of an end.
#[derive(Clone, Copy, Debug, PartialEq, Eq, Hash)]
pub enum Detail {
    /// One line.
    Brief,
    /// What it means in terms of the source, too.
    Explained,
}

/// How much of a program is checked.
#[derive(Clone, Copy, Debug, PartialEq, Eq, Hash)]
pub enum Extent {
    /// What MAIN needs, up to the first refusal.
    Needed,
    /// All classes of the files, and each feature.
    All,
}

/// Compiles and runs the program in the files.
#[derive(Debug, Drop)]
pub struct Run<'a> {
    /// The greatest number of steps.
    pub fuel: u64,
    /// The bytes that the program may charge, in KiB.
    pub room: u32,
    /// Whether the steps and the module's length are reported at the end.
    pub stats: bool,
    pub contracts: Contracts,
    pub trace: Trace,
    pub detail: Detail,
    /// The names of the files: one or more.
    pub files: Vec<&'a str>,
}

/// Compiles the program in the files and writes its module. No file that is written is one of those that are read.
#[derive(Debug, Drop)]
pub struct Build<'a> {
    /// The bytes that the program may charge, in KiB.
    pub room: u32,
    pub contracts: Contracts,
    pub detail: Detail,
    /// The name of the module's file.
    pub out: &'a str,
    /// The name of the file for the positions of faults, if they are to be written too.
    pub sites: Option<&'a str>,
    /// The names of the files: one or more.
    pub files: Vec<&'a str>,
}

/// Reports whether the program in the files is accepted.
#[derive(Debug, Drop)]
pub struct Check<'a> {
    pub contracts: Contracts,
    pub extent: Extent,
    pub detail: Detail,
    /// The names of the files: one or more.
    pub files: Vec<&'a str>,
}

/// Runs the module in the file.
#[derive(Clone, Copy, Debug)]
pub struct Exec<'a> {
    /// The greatest number of steps.
    pub fuel: u64,
    /// How many pages of 65,536 bytes its memory has at most, from 0 to 65,536, if there is a bound.
    pub pages: Option<u32>,
    /// Whether the steps and the module's length are reported at the end.
    pub stats: bool,
    pub detail: Detail,
    /// The name of the module's file.
    pub module: &'a str,
}

/// Prints the listing of the module in the file.
#[derive(Clone, Copy, Debug)]
pub struct Listing<'a> {
    /// The name of the module's file.
    pub module: &'a str,
}

/// Writes the module of the listing in the file.
#[derive(Clone, Copy, Debug)]
pub struct Assemble<'a> {
    /// The name of the module's file.
    pub out: &'a str,
    /// The name of the listing's file.
    pub file: &'a str,
}

/// A form that a program has on its way through the compiler.
#[derive(Clone, Copy, Debug, PartialEq, Eq, Hash)]
pub enum DumpForm {
    /// The AST of its source.
    Ast,
    /// The typed AST.
    Typed,
    /// The control-flow graphs of its bodies.
    Cfg,
    /// The structured regions of its bodies.
    Regions,
}

/// A form of the program in the files is to be printed.
#[derive(Debug, Drop)]
pub struct Dump<'a> {
    pub form: DumpForm,
    pub contracts: Contracts,
    /// Whether what no file of the program writes is printed too: the prelude, and what the compiler adds.
    pub all: bool,
    pub detail: Detail,
    /// The files' names: one or more.
    pub files: Vec<&'a str>,
}
