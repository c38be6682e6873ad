//! Which file of lib/ has a class that the program lacks.

/// The file of lib/ that has a class of this name, without its `.sa`.
pub(crate) fn library_file(class: &[u8]) -> Option<&'static str> {
    Some(match class {
        b"ARRAY2" => "array2",
        b"FIXED" => "fixed",
        b"FMAP" | b"FSET" | b"HASHES" | b"$HASH" => "fmap",
        b"FSTR" => "fstr",
        b"IN_LINES" => "in_lines",
        b"INTI" => "inti",
        b"INTS" | b"BITS" => "ints",
        b"LIST" | b"EQUAL" => "list",
        b"STACK" | b"QUEUE" | b"PRIORITY_QUEUE" => "queue",
        b"RND" => "rnd",
        b"SORT" | b"SORT_BY" | b"$IS_LT" => "sort",
        b"CHARS" | b"TEXT" => "text",
        b"TUP" | b"TUP3" => "tup",
        _ => return None,
    })
}
