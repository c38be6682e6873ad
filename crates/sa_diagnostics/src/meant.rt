//! What is meant by a name that nothing has: what this language has for a name of another one, and which class of lib/ has a routine or
//! an iter that a class of the prelude lacks.

/// What to write for a name of another language.
pub(crate) fn known_elsewhere(name: &[u8]) -> Option<&'static str> {
    Some(match name {
        b"print" | b"println" | b"printf" | b"puts" | b"write" | b"writeln" | b"echo" => {
            "To print a value write `#OUT + x`."
        }
        b"null" | b"nil" | b"none" => "No object is `void` here, and `void(x)` asks for it.",
        b"this" => "The object itself is `self` here.",
        b"not" => "\"Not\" is `~` here.",
        b"length" | b"len" | b"count" => "How many there are is `size` here.",
        b"is_empty" => "Whether it is empty is asked by `x.size = 0`.",
        b"flt" | b"fltd" =>
            "There are whole numbers alone; FIXED of the library is made of one by `#FIXED(i)`.",
        b"upper" | b"lower" =>
            "The library has it in CHARS for a CHAR and in TEXT for a STR, as `TEXT::upper(s)`: `sather lib text` prints the file.",
        b"square" => "A square is `x * x`.",
        b"push" => "To grow by `push` take an FLIST, as `FLIST{INT}`.",
        b"append" | b"add" => "To put something at the end of an FLIST is `push` here.",
        b"break" => "To leave a loop is `break!` here.",
        b"continue" => "There is no `continue`: put the rest of the loop into an `if`.",
        b"while" => "To go on while something holds is `while!(..)`, inside a loop.",
        b"until" => "To go on until something holds is `until!(..)`, inside a loop.",
        b"super" | b"base" =>
            "An included feature gets another name, as `include C f->old_f`, and is called by that.",
        b"to_string" | b"toString" => "The text of a value is `str` here.",
        _ => return None,
    })
}

/// A class of lib/ whose routines and iters take a value of a class of the prelude as their first argument.
#[derive(Clone, Copy)]
pub(crate) struct Helper {
    /// The type whose routines and iters these are, as it is written before `::`.
    pub ty: &'static str,
    /// Its file, without the `.sa`.
    pub file: &'static str,
    /// The class of the first argument.
    pub of: &'static str,
}

/// The class of lib/ that has a routine or an iter of this name for the values of a class of the prelude, which lacks it.
pub(crate) fn library_helper(feature: &[u8]) -> Option<Helper> {
    match feature {
        b"is_alpha"
        | b"is_digit"
        | b"is_alphanum"
        | b"is_space"
        | b"is_upper"
        | b"is_lower"
        | b"digit_value" => Some(beside("CHARS", "text", "CHAR")),
        b"reverse" | b"repeat" | b"trim" | b"search" | b"replace" | b"split!" | b"words!" => Some(
            beside("TEXT", "text", "STR"),
        ),
        b"is_even" | b"is_odd" | b"is_prime" | b"sqrt" | b"gcd" | b"lcm" | b"step!" | b"stepto!" =>
            Some(beside("INTS", "ints", "INT")),
        b"lshift" | b"rshift" => Some(beside("BITS", "ints", "INT")),
        b"sort" => Some(beside("SORT{T}", "sort", "ARRAY")),
        _ => None,
    }
}

fn beside(ty: &'static str, file: &'static str, of: &'static str) -> Helper {
    Helper { ty, file, of }
}
