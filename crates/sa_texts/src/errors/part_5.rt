//! Part 6 of the sections of docs/ERRORS.md.

/// The texts of this part, each behind the words that ask for it.
pub(crate) const ERRORS_5: [(&str, &str, &str, &str); 6] = [
    ("E43", "declared twice", "E43: declared twice", E43),
    ("E33", "wrong type", "E33: wrong type", E33),
    ("E39", "not assignable", "E39: not assignable", E39),
    ("E42", "typecase variable", "E42: typecase variable", E42),
    (
        "E35",
        "iter call outside a loop",
        "E35: iter call outside a loop",
        E35,
    ),
    (
        "E36",
        "iter call in self or once",
        "E36: iter call in self or once",
        E36,
    ),
];

const E43: &str = r#"E43: declared twice

`FILE:LINE: E43: declared twice`, status 120, at the later name.

`::=` and `x:T` declare a new variable, and `:=` gives a value to one that is
there. Where a variable is known no other one of its name is declared, also not
inside a loop or a branch, so that a name means one thing wherever one reads
it.

    class MAIN is
       main is
          total ::= 0;
          loop total ::= total + 1.upto!(4); end;
          #OUT + total + "\n";
       end;
    end;

gives `f.sa:4: E43: declared twice`.

    class MAIN is
       main is
          total ::= 0;
          loop total := total + 1.upto!(4); end;
          #OUT + total + "\n";
       end;
    end;

prints `10`.
"#;

const E33: &str = r#"E33: wrong type

`FILE:LINE: E33: wrong type`, status 120, at the form that wants another type:
a statement's word, its `:=` or its first name, an operator.

A variable takes values of its own type or of one below it, a condition is a
BOOL, and what a routine returns is of its result. Nothing is turned into
another type by itself.

    class MAIN is
       main is
          age:INT := "36";
          #OUT + age + "\n";
       end;
    end;

gives `f.sa:3: E33: wrong type`.

    class MAIN is
       main is
          age:INT := 36;
          #OUT + age + "\n";
       end;
    end;

prints `36`. So a number is no condition either:

    class MAIN is
       main is
          n ::= 7;
          if n % 2 then #OUT + "odd\n"; end;
       end;
    end;

gives `f.sa:4: E33: wrong type`.

    class MAIN is
       main is
          n ::= 7;
          if n % 2 = 1 then #OUT + "odd\n"; end;
       end;
    end;

prints `odd`.
"#;

const E39: &str = r#"E39: not assignable

`FILE:LINE: E39: not assignable`, status 120, at the `:=`, or at the argument.

On the left of `:=` stands a variable, an attribute, a shared or an index.
`out` and `inout` arguments are copied back at the return, and that takes a
variable of the caller: an attribute or an element isn't one.

    class MAIN is
       swap(inout a, b:INT) is t ::= a; a := b; b := t; end;
       main is
          pair:ARRAY{INT} := |1, 2|;
          swap(inout pair[0], inout pair[1]);
          #OUT + pair[0] + pair[1] + "\n";
       end;
    end;

gives `f.sa:5: E39: not assignable`. Hand the array over, or go by way of
variables:

    class MAIN is
       swap(a:ARRAY{INT}, i, j:INT) is t ::= a[i]; a[i] := a[j]; a[j] := t; end;
       main is
          pair:ARRAY{INT} := |1, 2|;
          swap(pair, 0, 1);
          #OUT + pair[0] + pair[1] + "\n";
       end;
    end;

prints `21`.
"#;

const E42: &str = r#"E42: typecase variable

`FILE:LINE: E42: typecase variable`, status 120, at the `:=`, the argument, or
the word `typecase`.

In a branch of a typecase the tested variable has the type of the branch. It
isn't written there, since afterwards it might hold something else than the
branch was chosen for. For the same reason it is a variable of the feature
itself: an attribute or a shared could be written by anything that the branch
calls.

    class MAIN is
       twice(x:$OB):INT is
          typecase x
          when INT then x := x + x; return x;
          else return 0;
          end;
       end;
       main is #OUT + twice(4) + "\n"; end;
    end;

gives `f.sa:4: E42: typecase variable`.

    class MAIN is
       twice(x:$OB):INT is
          typecase x
          when INT then y ::= x + x; return y;
          else return 0;
          end;
       end;
       main is #OUT + twice(4) + "\n"; end;
    end;

prints `8`. An attribute or a shared is put into a variable first:

    class MAIN is
       shared pet:$OB := "cat";
       main is
          typecase pet
          when STR then #OUT + pet + "\n";
          else #OUT + "none\n";
          end;
       end;
    end;

gives `f.sa:4: E42: typecase variable`.

    class MAIN is
       shared pet:$OB := "cat";
       main is
          x ::= pet;
          typecase x
          when STR then #OUT + x + "\n";
          else #OUT + "none\n";
          end;
       end;
    end;

prints `cat`.
"#;

const E35: &str = r#"E35: iter call outside a loop

`FILE:LINE: E35: iter call outside a loop`, status 120, at the iter's name.

A call of an iter is resumed in each round of its loop, and ends the loop when
it has no more to give. Without a loop there is nothing to come back for;
`while!`, `until!` and `break!` too end the loop in which they stand.

    class MAIN is
       main is
          i ::= 1.upto!(3);
          loop #OUT + i + " "; end;
       end;
    end;

gives `f.sa:3: E35: iter call outside a loop`.

    class MAIN is
       main is
          loop
             i ::= 1.upto!(3);
             #OUT + i + " ";
          end;
       end;
    end;

prints `1 2 3 `.
"#;

const E36: &str = r#"E36: iter call in self or once

`FILE:LINE: E36: iter call in self or once`, status 120, at the iter's name.

What an iter is called on, and its arguments that are marked `once`, are
evaluated when it is started and never again. An iter call there would be asked
for its first value alone.

    class MAIN is
       main is
          loop #OUT + 1.upto!(1.upto!(3)) + " "; end;
       end;
    end;

gives `f.sa:3: E36: iter call in self or once`. An iter that runs anew for each
value of another one is a loop in a loop:

    class MAIN is
       main is
          loop
             most ::= 1.upto!(3);
             loop #OUT + 1.upto!(most) + " "; end;
          end;
       end;
    end;

prints `1 1 2 1 2 3 `.
"#;
