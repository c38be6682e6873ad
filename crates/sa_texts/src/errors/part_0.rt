//! Part 1 of the sections of docs/ERRORS.md.

/// The texts of this part, each behind the words that ask for it.
pub(crate) const ERRORS_0: [(&str, &str, &str, &str); 6] = [
    ("E01", "bad byte", "E01: bad byte", E01),
    ("E02", "literal not ended", "E02: literal not ended", E02),
    ("E03", "number too large", "E03: number too large", E03),
    (
        "E04",
        "number form not taken",
        "E04: number form not taken",
        E04,
    ),
    ("E05", "unknown escape", "E05: unknown escape", E05),
    ("E06", "unexpected token", "E06: unexpected token", E06),
];

const E01: &str = r#"E01: bad byte

`FILE:LINE: E01: bad byte`, status 120, at the byte.

No token begins with this byte. Most come from another language (`&&`, `!=`,
`?`), or from a word processor (“curly” quotes). Letters beyond ASCII are taken
in texts and comments alone, and a byte order mark at the beginning of a file
alone.

    class MAIN is
       main is
          n ::= 12;
          if n > 9 && n < 100 then #OUT + "two digits\n"; end;
       end;
    end;

gives `f.sa:4: E01: bad byte`. "And" is a word here, "or" too, and "not equal"
is `/=`:

    class MAIN is
       main is
          n ::= 12;
          if n > 9 and n < 100 then #OUT + "two digits\n"; end;
       end;
    end;

prints `two digits`.
"#;

const E02: &str = r#"E02: literal not ended

`FILE:LINE: E02: literal not ended`, status 120, at the literal's first byte.

A text stands between double quotes and ends on its line; a character is one
byte between single quotes. So a forgotten quote is told in its own line, and
doesn't swallow the rest of the file.

    class MAIN is
       main is #OUT + 'Hello\n'; end;
    end;

gives `f.sa:2: E02: literal not ended`. Several characters are a text:

    class MAIN is
       main is #OUT + "Hello\n"; end;
    end;

prints `Hello`.
"#;

const E03: &str = r#"E03: number too large

`FILE:LINE: E03: number too large`, status 120, at the number.

An INT has 32 bits and goes up to 2147483647. The least one, -2147483648, is no
literal either, since the sign isn't a part of the number: write
`-2147483647 - 1`.

    class MAIN is
       main is
          people ::= 8000000000;
          #OUT + people + " people\n";
       end;
    end;

gives `f.sa:3: E03: number too large`. Count in a larger unit:

    class MAIN is
       main is
          millions ::= 8000;
          #OUT + millions + " million people\n";
       end;
    end;

prints `8000 million people`.
"#;

const E04: &str = r#"E04: number form not taken

`FILE:LINE: E04: number form not taken`, status 120, at the number.

A number is digits, or `0x`, `0o` or `0b` and digits; no letter stands directly
behind it, and no point and a digit. There are whole numbers alone, since the
modules that are made use integers alone.

    class MAIN is
       main is
          weight ::= 0.5;
          #OUT + weight * 3 + "\n";
       end;
    end;

gives `f.sa:3: E04: number form not taken`. FIXED of the library has four
digits behind the point, and FLT about seven in all: `FLT::of("0.5")`. Or count
the parts, and put the point in when it is printed:

    class MAIN is
       main is
          tenths ::= 5 * 3;
          #OUT + tenths / 10 + "." + tenths % 10 + "\n";
       end;
    end;

prints `1.5`.
"#;

const E05: &str = r#"E05: unknown escape

`FILE:LINE: E05: unknown escape`, status 120, at the backslash.

In texts and characters a backslash begins an escape:
`\a \b \f \n \r \t \v \\ \' \"`, or one to three octal digits. Others are
refused rather than guessed.

    class MAIN is
       main is #OUT + "C:\games\n"; end;
    end;

gives `f.sa:2: E05: unknown escape`. A backslash itself is written twice:

    class MAIN is
       main is #OUT + "C:\\games\n"; end;
    end;

prints `C:\games`.
"#;

const E06: &str = r#"E06: unexpected token

`FILE:LINE: E06: unexpected token`, status 120, at the token, or at the end of
the file.

Up to this token the file could still have become a program; with it no longer.
The mistake is at the token or before it. Most often a `;` is missing between
two statements:

    class MAIN is
       main is
          x ::= 3
          #OUT + x + "\n";
       end;
    end;

gives `f.sa:4: E06: unexpected token`, since the statement of line 3 may go on
in line 4.

    class MAIN is
       main is
          x ::= 3;
          #OUT + x + "\n";
       end;
    end;

prints `3`. A list of arguments isn't empty, so a call without arguments has no
parentheses:

    class MAIN is
       hello is #OUT + "Hello\n"; end;
       main is hello(); end;
    end;

gives `f.sa:3: E06: unexpected token`.

    class MAIN is
       hello is #OUT + "Hello\n"; end;
       main is hello; end;
    end;

prints `Hello`. `else if` begins an `if` of its own, which wants an `end` of
its own. It is missed much later, where a feature begins and the body still
goes on:

    class MAIN is
       sign(n:INT):INT is
          if n < 0 then return -1;
          else if n > 0 then return 1;
          else return 0;
          end;
       end;
       main is #OUT + sign(5) + "\n"; end;
    end;

gives `f.sa:8: E06: unexpected token`. The word is `elsif`:

    class MAIN is
       sign(n:INT):INT is
          if n < 0 then return -1;
          elsif n > 0 then return 1;
          else return 0;
          end;
       end;
       main is #OUT + sign(5) + "\n"; end;
    end;

prints `1`. A missing `end` is noticed at the end of the file:

    class MAIN is
       main is
          loop #OUT + 1.upto!(3) + " ";
       end;
    end;

gives `f.sa:6: E06: unexpected token`, which is the line behind the last one.

    class MAIN is
       main is
          loop #OUT + 1.upto!(3) + " "; end;
       end;
    end;

prints `1 2 3 `. Names of classes are in capitals, and all other names have a
small letter:

    class MAIN is
       main is
          age:int := 36;
          #OUT + age + "\n";
       end;
    end;

gives `f.sa:3: E06: unexpected token`.

    class MAIN is
       main is
          age:INT := 36;
          #OUT + age + "\n";
       end;
    end;

prints `36`.
"#;
