//! Where the words of a running program are: the globals of its module by number, the functions of the runtime by the numbers by which they
//! call one another, and the addresses and words of its linear memory. A module has those functions that its program can reach, by numbers
//! of its own.
//!
//! A value is a word of 64 bits: 0 where it is void, the sign-extended number of an `INT`, 1 for `true`, the byte of a `CHAR`, and the
//! address of an object for each other value. The first word of an object is its header. The 16 bytes at address 0 stay 0, so a void value
//! that is read as an object has the length 0.

ghost use Rattle.std.specs.Prelude.{◌≡◌, ◌+◌, ◌*◌, ◌%◌, ◌^◌, min};

/// The global with the value of the last call, an `i64`.
pub const RESULT: u32 = 0;

/// The global with the value that was raised, an `i64`.
pub const EXCEPTION: u32 = 1;

/// The global with the number of the fault that was raised, an `i32`.
pub const EXCEPTION_KIND: u32 = 2;

/// The global with the position of the raise, an `i32`.
pub const EXCEPTION_PLACE: u32 = 3;

/// The global with the number of a fault that is forwarded, an `i32`.
pub const FAULT_KIND: u32 = 4;

/// The global with the address of the next object, an `i32`.
pub(crate) const NEXT_OBJECT: u32 = 5;

/// The global with the frame that an entered iter has allocated, an `i32`.
pub const FRAME_OUT: u32 = 6;

/// The global with the index, among all sites of the program, of the site that starts an instance next, an `i32`. A module that isn't
/// traced has none.
pub(crate) const STARTING_SITE: u32 = 7;

/// The global with the number of instances that were started, an `i64`. A module that isn't traced has none.
pub(crate) const STARTED: u32 = 8;

/// The imported function that writes the low byte of its argument.
pub const PUT: u32 = 0;

/// The imported function that returns the next byte of the input, or -1 at its end.
pub const GET: u32 = 1;

/// The imported function that halts the machine with the number of a fault and a position.
pub const STOP: u32 = 2;

/// The function of the built-in feature with the number 0; those of the others follow it in the order of their numbers.
pub const FIRST_BUILTIN: u32 = 3;

/// The function that allocates the memory of an object.
pub const ALLOCATE: u32 = 36;

/// The function that raises the exception of a fault.
pub const FAULT: u32 = 37;

/// The function that makes a changed copy of an immutable value.
pub const CHANGED: u32 = 38;

/// The function that boxes a value of an immutable class that a program declares.
pub const BOX_IMMUTABLE: u32 = 39;

/// The function that boxes an `INT`, a `BOOL` or a `CHAR`.
pub const BOX_WORD: u32 = 40;

/// The function that unboxes an immutable value.
pub const UNBOX: u32 = 41;

/// The function that allocates a frame and returns its address, or 0 where none is free.
pub const NEW_FRAME: u32 = 42;

/// The function that frees a frame.
pub const END_FRAME: u32 = 43;

/// The function that frees a frame and those of the instances inside it, inner ones first.
pub const RELEASE: u32 = 44;

/// The function that calls a bound value on the arguments in the area.
pub const BOUND_CALL: u32 = 45;

/// The first of the functions that write trace records, which follow one another.
pub const FIRST_TRACE_FUNCTION: u32 = 46;

/// How many functions there are, the imported ones with them.
pub const FUNCTIONS: u32 = 50;

/// How many of the arguments of a body are parameters of its function, at most. The others are in memory.
pub const PARAMETERS: usize = 4;

/// The number of the type that the function of a body without arguments has, after those of the three imported functions; those of bodies
/// with arguments follow, up to `PARAMETERS` of them. A function takes its arguments, `self`, how much deeper activations may nest, and its
/// frame, or 0, and returns a status.
pub const BODY_TYPE: u32 = 3;

/// The status of a body that has returned.
pub const RETURNED: u32 = 0;

/// The status of a body that a raise has left.
pub const RAISED: u32 = 1;

/// The status of a body that is suspended.
pub const SUSPENDED: u32 = 2;

/// The status of a body whose instance has ended.
pub const ENDED: u32 = 3;

/// The status of a body that forwards a fault, whose number is in `FAULT_KIND`.
pub const FORWARDED: u32 = 4;

/// How deep activations may nest.
pub const GREATEST_DEPTH: u32 = 10_000;

/// The offset of the word of a frame, of 32 bits, with the next instance of the same activation. While a frame is released it is the one of
/// the instance around it.
pub const SIBLING_AT: u32 = 0;

/// The offset of the word of a frame, of 32 bits, with the number of the site in the activation that the instance belongs to.
pub const SITE_AT: u32 = 4;

/// The offset of the word of a frame, of 32 bits, with the number of the dispatch target at which a resumption continues. It is 0 at a
/// start.
pub const BLOCK_AT: u32 = 8;

/// The offset of the word of a frame, of 32 bits, with the first of the instances that the suspended body has, or 0.
pub const INSIDE_AT: u32 = 12;

/// The offset of the word of a frame with the instance's `self`.
pub const FRAME_SELF_AT: u32 = 16;

/// The offset of the word of a frame, of 32 bits, with the class of the receiver of a dispatched start, or the bound value that was
/// started.
pub const CALLED_AT: u32 = 24;

/// In a traced module, the offset of the word of a frame, of 32 bits, with the index of its site among all sites of the program. After the
/// saved variables, such a frame has another word with the number of its instance.
pub(crate) const TRACED_SITE_AT: u32 = 28;

/// The offset of the word of a frame with the first of the saved variables.
pub const FIRST_SAVED_AT: u32 = 32;

/// How many words a frame has besides the saved variables.
pub const FRAME_WORDS: u32 = 4;

/// How many more words a frame has in a traced module.
pub(crate) const TRACED_WORDS: u32 = 1;

/// The offset of the word of a bind, of 32 bits, with what its values call: the number of a form, below.
pub(crate) const KIND_AT: u32 = 0;

/// The offset of the word of a bind, of 32 bits, with the index in the table, the offset of an attribute in an object, or the address of a
/// shared.
pub(crate) const NUMBER_AT: u32 = 4;

/// The offset of the word of a bind, of 32 bits, with the number of the class whose built-in feature or immutable attribute is called.
pub(crate) const TYPE_AT: u32 = 8;

/// The offset of the word of a bind, of 32 bits, with the offset of the first element in an array of that class, or with the number of its
/// attributes.
pub(crate) const FIRST_AT: u32 = 12;

/// The offset of the word of a bind, of 32 bits, with the number of arguments of what is called.
pub(crate) const COUNT_AT: u32 = 16;

/// The offset of the word of a bind, of 32 bits, with how many of the arguments a value captures.
pub(crate) const GIVEN_AT: u32 = 20;

/// The offset of the first byte of a bind that says of an argument whether it is open (1) or captured (0).
pub const OPEN_AT: u32 = 24;

/// A routine that the receiver's class chose; the next two forms are an iter and an adapter. The index in the table is in the half word
/// above the receiver's address.
pub const CHOSEN_ROUTINE: u32 = 0;

pub const CHOSEN_ITER: u32 = 1;

pub const CHOSEN_ADAPTER: u32 = 2;

/// A routine by its index in the table; the next two forms are an iter and an adapter.
pub const ROUTINE: u32 = 3;

pub const ITER: u32 = 4;

pub(crate) const MADE: u32 = 5;

/// Reads an attribute of an object, or of an immutable value.
pub const GET_OF_OBJECT: u32 = 6;

pub const GET_OF_VALUE: u32 = 7;

/// Writes an attribute of an object, or gives a changed copy of an immutable value.
pub const SET_OF_OBJECT: u32 = 8;

pub const SET_OF_VALUE: u32 = 9;

/// Reads a shared.
pub const GET_SHARED: u32 = 10;

/// Writes a shared.
pub const SET_SHARED: u32 = 11;

/// The built-in feature with the number 0; the others follow it in the order of their numbers.
pub const FIRST_BOUND_BUILTIN: u32 = 12;

/// The address of the word of a body's first argument, for arguments that are passed or copied out in memory. There is room for 200.
pub const FIRST_ARGUMENT_AT: u32 = 16;

/// The address of the first shared, after the arguments.
pub const SHAREDS_AT: u32 = 1616;

/// The tag of an object of a reference class, and of an immutable value at its own type.
pub const OBJECT: u8 = 0;

/// The tag of a text, whose length is the number of its bytes. Zeros fill it up to whole words.
pub const TEXT: u8 = 1;

/// The tag of an immutable value at an abstract type.
pub(crate) const BOXED_VALUE: u8 = 2;

/// The tag of a bound value.
pub const BOUND: u8 = 3;

/// How many bits the low half of a word has. Where a bound value's receiver chose what is called, its index in the table is above them.
pub const HALF_BITS: u64 = 32;

/// The bits of the low half of a word.
pub const LOW_HALF: u64 = 0xffff_ffff;

/// The high half of a value that a bind has boxed for an implementation, where the type in the signature is immutable. No value of such a
/// type has this high half.
pub const BOXED_HALF: u64 = 1;

/// What marks such a value: this high half above the low one.
pub const BOXED_MARK: u64 = 0x1_0000_0000 * BOXED_HALF;

/// The number of the type `BOOL`.
pub const BOOL: u32 = 3;

/// The number of the type `INT`.
pub const INT: u32 = 4;

/// The number of the type `CHAR`.
pub const CHAR: u32 = 5;

/// The number of the type `STR`.
pub const STR: u32 = 6;

/// The number of the type `FAULT`.
pub(crate) const FAULT_TYPE: u32 = 7;

/// The header of an object: the number of its type in the low 24 bits, then its tag, and in the high 32 bits the number of the
/// elements of its array part, of the bytes of a text, or of a bind.
pub fn header(ty: u32, tag: u8, length: u32) -> u64
    ensures { result ≡ ty % 2 ^ 24 + 2 ^ 24 * tag + 2 ^ 32 * length }
{
    u64::from(ty % 0x0100_0000) + 0x0100_0000 * u64::from(tag) + 0x1_0000_0000 * u64::from(length)
}

/// The offset of the attribute of this index from the object's address, in bytes, or the greatest `u32` where it is more.
pub fn attribute_at(place: u32) -> u32
    ensures { result ≡ min (8 * (place + 1)) u32.MAX }
{
    place.saturating_add(1).saturating_mul(8)
}

/// The offset of the first element of the array part from the address of an object with so many attributes, in bytes, or the greatest `u32`
/// where it is more.
pub fn first_element_at(attributes: u32) -> u32
    ensures { result ≡ min (8 * (attributes + 1)) u32.MAX }
{
    attribute_at(attributes)
}
