//! What is wrong with bytes that are no module, and where.

/// An error in bytes that are no module.
#[derive(Clone, Copy, Debug, PartialEq, Eq)]
pub struct FormatError {
    /// The offset of the byte, from 0.
    pub at: usize,
    pub place: ModulePart,
    pub lack: FormatErrorKind,
}

/// The part of a module that a byte is in.
#[derive(Clone, Copy, Debug, PartialEq, Eq)]
pub enum ModulePart {
    /// The preamble, or the id of a section.
    File,
    /// The section with this id.
    Section(u8),
    /// The code of one of the module's own functions, by its index among these, from 0.
    Body(u32),
}

/// What is wrong: mostly what a module would have there and the bytes don't.
#[derive(Clone, Copy, Debug, PartialEq, Eq)]
pub enum FormatErrorKind {
    Magic,
    Version,
    SectionNumber,
    SectionOrder,
    SectionEnd,
    Code,
    CodeCount,
    BodyEnd,
    PartEnd,
    UnexpectedEnd,
    TrailingBytes,
    Number,
    Utf8,
    FunctionType,
    ValueType,
    BlockType,
    ElementType,
    Flag,
    Kind,
    Initial,
    InitialEnd,
    Locals,
    Nesting,
    If,
    ReservedByte,
    FloatingPoint,
    Instruction,
}

impl FormatErrorKind {
    /// The sentence that says what is wrong.
    pub fn text(self) -> &'static str {
        match self {
            FormatErrorKind::Magic => "a module begins with 00 61 73 6d.",
            FormatErrorKind::Version => "the version of the format is wanted, 01 00 00 00.",
            FormatErrorKind::SectionNumber => "no section has this number: they go from 0 to 11.",
            FormatErrorKind::SectionOrder => {
                "this section stands here for a second time, or behind one with a greater number."
            }
            FormatErrorKind::SectionEnd => "the section goes on past the end of the file.",
            FormatErrorKind::Code =>
                "the functions of section 3 have no code: section 10 isn't there.",
            FormatErrorKind::CodeCount =>
                "section 3 has another number of functions than there are bodies here.",
            FormatErrorKind::BodyEnd => "the body goes on past the end of its section.",
            FormatErrorKind::PartEnd => "the bytes that are counted here go on past the end.",
            FormatErrorKind::UnexpectedEnd => "more is wanted, and there are no more bytes.",
            FormatErrorKind::TrailingBytes => "all has been read, and there are more bytes.",
            FormatErrorKind::Number => "this is no number: it doesn't end, or is too large.",
            FormatErrorKind::Utf8 => "a name is in UTF-8, and this isn't.",
            FormatErrorKind::FunctionType => "the type of a function begins with 60.",
            FormatErrorKind::ValueType =>
                "the type of a value is wanted: 7f, an i32, or 7e, an i64.",
            FormatErrorKind::BlockType => "the type of a block is wanted: 40, 7f or 7e.",
            FormatErrorKind::ElementType =>
                "the elements of a table are functions, which is written 70.",
            FormatErrorKind::Flag => "00 or 01 is wanted.",
            FormatErrorKind::Kind => "the kind of an import or an export is wanted, 00 to 03.",
            FormatErrorKind::Initial => "an initial value is i32.const, i64.const or global.get.",
            FormatErrorKind::InitialEnd => "an initial value is one instruction and 0b.",
            FormatErrorKind::Locals => "a function has at most 1000000 locals.",
            FormatErrorKind::Nesting => "at most 1000 blocks are open at a place.",
            FormatErrorKind::If => "an `else` stands in an `if`, once.",
            FormatErrorKind::ReservedByte => "00 is wanted.",
            FormatErrorKind::FloatingPoint => "this is floating point, which isn't taken.",
            FormatErrorKind::Instruction =>
                "no instruction of WebAssembly 1.0 begins with this byte.",
        }
    }
}
