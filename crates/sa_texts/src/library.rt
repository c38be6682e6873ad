//! The files of lib/, in parts. conformance/texts.py writes these files.

pub(crate) mod part_0;
pub(crate) mod part_1;
pub(crate) mod part_10;
pub(crate) mod part_11;
pub(crate) mod part_2;
pub(crate) mod part_3;
pub(crate) mod part_4;
pub(crate) mod part_5;
pub(crate) mod part_6;
pub(crate) mod part_7;
pub(crate) mod part_8;
pub(crate) mod part_9;

/// The files, each with what it has.
pub(crate) const LISTED: &str =
    r#"array2     ARRAY2: an array of rows and columns, both counted from 0
fixed      FIXED: numbers with four digits behind the point, from -214748.3647
           to 214748.3647, in place of FLT
flt        FLT: numbers with a point, of about seven digits, from 1.4e-45 to
           3.4028235e38
flt_text   FLT_TEXT and FLT_DECIMAL: the texts of FLT, of flt.sa
fmap       FMAP and FSET: a map and a set, found by hash, in the order in which
           the keys were put in
fmt        FMT: a text with fields, and values that are put into them
fstr       FSTR: a buffer of text that grows at its end
in_lines   IN_LINES: the lines of the input, up to its end
inti       INTI: whole numbers of any size
ints       INTS and BITS: what INT lacks
list       LIST: a list that grows, with what FLIST of the prelude lacks
map        MAP and SET: a map and a set by the names that Sather 1.1 has for
           what they do
queue      STACK, QUEUE and PRIORITY_QUEUE: what is put in comes out last in,
           first out; first in, first out; or the least first, by `<`
rnd        RND: numbers that look as if they were drawn by lot
sort       SORT and SORT_BY: sorting and binary search, over arrays, lists, and
           the first n elements of an array
str_cursor STR_CURSOR: a place in a text, which goes forward as bytes, words
           and numbers are taken from the text
text       CHARS and TEXT: what CHAR and STR of the prelude lack, as routines
           and iters of classes of their own
tup        TUP, TUP3 and TUP4: two, three or four values as one, for routines
           that give several and for lists of pairs
"#;
