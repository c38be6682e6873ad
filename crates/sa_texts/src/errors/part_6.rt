//! Part 7 of the sections of docs/ERRORS.md.

/// The texts of this part, each behind the words that ask for it.
pub(crate) const ERRORS_6: [(&str, &str, &str, &str); 5] = [
    ("E37", "out of place", "E37: out of place", E37),
    (
        "E38",
        "not allowed in protect",
        "E38: not allowed in protect",
        E38,
    ),
    ("E23", "not a constant", "E23: not a constant", E23),
    (
        "E44",
        "exception outside a branch",
        "E44: exception outside a branch",
        E44,
    ),
    ("E45", "bad bind", "E45: bad bind", E45),
];

const E37: &str = r#"E37: out of place

`FILE:LINE: E37: out of place`, status 120, at the word.

`yield` and `quit` belong to iters, whose names end in `!`, and `return`
belongs to routines.

    class MAIN is
       squares(n:INT):INT is
          loop i ::= 1.upto!(n); yield i * i; end;
       end;
       main is #OUT + squares(3) + "\n"; end;
    end;

gives `f.sa:3: E37: out of place`. An iter is named as one, and called in a
loop:

    class MAIN is
       squares!(once n:INT):INT is
          loop i ::= 1.upto!(n); yield i * i; end;
       end;
       main is loop #OUT + squares!(3) + " "; end; end;
    end;

prints `1 4 9 `. And an iter doesn't return:

    class MAIN is
       halves!(once n:INT):INT is
          loop
             if n = 0 then return; end;
             yield n;
             n := n / 2;
          end;
       end;
       main is loop #OUT + halves!(20) + " "; end; end;
    end;

gives `f.sa:4: E37: out of place`. It ends by `quit`, or at its end:

    class MAIN is
       halves!(once n:INT):INT is
          loop
             if n = 0 then quit; end;
             yield n;
             n := n / 2;
          end;
       end;
       main is loop #OUT + halves!(20) + " "; end; end;
    end;

prints `20 10 5 2 1 `.
"#;

const E38: &str = r#"E38: not allowed in protect

`FILE:LINE: E38: not allowed in protect`, status 120, at the word, or at the
iter's name.

No iter call stands in a `protect` that is inside its loop, and no `yield` or
`quit` in a `protect` at all. What is suspended there would go on when the
`protect` around it is long gone.

    class MAIN is
       main is
          loop
             protect #OUT + 12 / 2.downto!(0) + "\n";
             when FAULT then #OUT + exception + "\n";
             end;
          end;
       end;
    end;

gives `f.sa:4: E38: not allowed in protect`. Take the value first, and protect
what is done with it; or put the `protect` around the whole loop, which then
ends at the first raise.

    class MAIN is
       main is
          loop
             d ::= 2.downto!(0);
             protect #OUT + 12 / d + "\n";
             when FAULT then #OUT + exception + "\n";
             end;
          end;
       end;
    end;

prints

    6
    12
    division by zero
"#;

const E23: &str = r#"E23: not a constant

`FILE:LINE: E23: not a constant`, status 120, at the constant's name.

A constant is computed when the program is checked. Its value is made of
literals, other constants, the operators of INT but `^`, comparisons, `~`,
`and` and `or`; a STR constant is one text. What a program has to run for is no
constant.

    class MAIN is
       const primes:ARRAY{INT} := |2, 3, 5|;
       main is loop #OUT + primes.elt! + " "; end; end;
    end;

gives `f.sa:2: E23: not a constant`. A `shared` is computed when the program
starts:

    class MAIN is
       shared primes:ARRAY{INT} := |2, 3, 5|;
       main is loop #OUT + primes.elt! + " "; end; end;
    end;

prints `2 3 5 `.
"#;

const E44: &str = r#"E44: exception outside a branch

`FILE:LINE: E44: exception outside a branch`, status 120, at the word.

`exception` is what was raised, and that is there in the branches of a
`protect` alone.

    class MAIN is
       main is
          protect #OUT + 12 / 0 + "\n";
          else
          end;
          #OUT + exception.str + "\n";
       end;
    end;

gives `f.sa:6: E44: exception outside a branch`. In a branch it has the type of
its `when`:

    class MAIN is
       main is
          protect #OUT + 12 / 0 + "\n";
          when FAULT then #OUT + exception.str + "\n";
          end;
       end;
    end;

prints `division by zero`.
"#;

const E45: &str = r#"E45: bad bind

`FILE:LINE: E45: bad bind`, status 120, at the word `bind`, or at the `_`.

A bound routine or iter is made by `bind`, and `_` leaves an argument open
there and nowhere else. Bound is a call by name that has no `out` or `inout`
arguments and is of no constant. Older Sather wrote `#ROUT(..)`:

    class MAIN is
       square(n:INT):INT is return n * n; end;
       main is
          f ::= #ROUT(square(_));
          #OUT + f.call(7) + "\n";
       end;
    end;

gives `f.sa:4: E45: bad bind`.

    class MAIN is
       square(n:INT):INT is return n * n; end;
       main is
          f ::= bind(square(_));
          #OUT + f.call(7) + "\n";
       end;
    end;

prints `49`.
"#;
