//! The features that the implementation defines, which the prelude declares by the word `builtin`.

ghost use Rattle.std.specs.Prelude.{◌≡◌, ◌&&◌, ◌==◌, ◌<◌, length, position, bytes_eq, option_map, IfSome};
ghost use Rattle.sa_prelude.specs.BuiltinTable.{features, is_row};

use crate::feature::Builtin;

/// The class, the name and the number of arguments of each feature, at the index that is its number.
const ROWS: [(&str, &str, u32); 33] = [
    ("BOOL", "is_eq", 1),
    ("BOOL", "not", 0),
    ("INT", "plus", 1),
    ("INT", "minus", 1),
    ("INT", "times", 1),
    ("INT", "negate", 0),
    ("INT", "div", 1),
    ("INT", "mod", 1),
    ("INT", "is_eq", 1),
    ("INT", "is_lt", 1),
    ("INT", "band", 1),
    ("INT", "bor", 1),
    ("INT", "bxor", 1),
    ("INT", "str", 0),
    ("INT", "char", 0),
    ("CHAR", "is_eq", 1),
    ("CHAR", "is_lt", 1),
    ("CHAR", "int", 0),
    ("CHAR", "str", 0),
    ("STR", "size", 0),
    ("STR", "aget", 1),
    ("STR", "cat", 1),
    ("STR", "substring", 2),
    ("STR", "of", 2),
    ("OUT", "put", 1),
    ("OUT", "put_int", 1),
    ("OUT", "put_char", 1),
    ("IN", "get_byte", 0),
    ("SYS", "ob_eq", 2),
    ("AREF", "asize", 0),
    ("AREF", "aget", 1),
    ("AREF", "aset", 2),
    ("ARRAY", "create", 1),
];

/// The built-in feature of this name in this class of the prelude, with so many arguments, or None where there is none.
pub fn builtin(class: &[u8], name: &[u8], args: u32) -> Option<Builtin>
    ensures { result ≡ option_map (λ number. record { number = number })
        (position (is_row class.now name.now args) features) }
{
    let place = place_in(&ROWS, class, name, args)?;
    Some(Builtin {
        number: place as u8,
    })
}

/// The index of the first such row in a table.
fn place_in(table: &[(&str, &str, u32)], class: &[u8], name: &[u8], args: u32) -> Option<usize>
    ensures place { result ≡ position
        (λ row. bytes_eq class.now row.0.now && bytes_eq name.now row.1.now && row.2 == args) table.now }
    ensures within { IfSome result (λ place. place < length table.now) }
{
    table.iter().position(|row| {
        class == row.0.as_bytes() && name == row.1.as_bytes() && args == row.2
    })
}
