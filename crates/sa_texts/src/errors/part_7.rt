//! Part 8 of the sections of docs/ERRORS.md.

/// The texts of this part, each behind the words that ask for it.
pub(crate) const ERRORS_7: [(&str, &str, &str, &str); 8] = [
    (
        "E46",
        "condition not quiet",
        "E46: condition not quiet",
        E46,
    ),
    ("E50", "source too large", "E50: source too large", E50),
    ("E51", "too many instances", "E51: too many instances", E51),
    ("E52", "type too deep", "E52: type too deep", E52),
    ("E53", "too many variables", "E53: too many variables", E53),
    (
        "E54",
        "too many out arguments",
        "E54: too many out arguments",
        E54,
    ),
    ("E55", "program too large", "E55: program too large", E55),
    (
        "E56",
        "too many dispatch pairs",
        "E56: too many dispatch pairs",
        E56,
    ),
];

const E46: &str = r#"E46: condition not quiet

`FILE:LINE: E46: condition not quiet`, status 120, at the first token of the
condition, or at the word `initial`.

With `--contracts` the conditions of `pre`, `post` and `invariant` are checked
while the program runs. They only read, so that a program does the same with
the checks and without: a call of a routine, which could do anything, isn't
taken.

    class MAIN is
       is_even(n:INT):BOOL is return n % 2 = 0; end;
       half(n:INT):INT
          pre is_even(n)
       is
          return n / 2;
       end;
       main is #OUT + half(10) + "\n"; end;
    end;

gives with `--contracts` `f.sa:4: E46: condition not quiet`.

    class MAIN is
       half(n:INT):INT
          pre n % 2 = 0
       is
          return n / 2;
       end;
       main is #OUT + half(10) + "\n"; end;
    end;

prints with `--contracts` `5`.
"#;

const E50: &str = r#"E50: source too large

`FILE:LINE: E50: source too large`, status 120, at the first byte past
4,194,304 of all files.

The files of a program have at most 4,194,304 bytes together.

    echo 'class MAIN is main is end; end;' > f.sa
    yes -- '-- data, data, data' | head -n 220000 >> f.sa
    sather check f.sa

gives `f.sa:209715: E50: source too large`. Data comes from the input, as much
as one likes:

    echo 'class MAIN is main is n ::= 0; loop while!(#IN.get_byte >= 0); n := n + 1; end; #OUT + n; end; end;' > f.sa
    yes 3 | head -n 500 | sather run f.sa

prints `1000`.
"#;

const E51: &str = r#"E51: too many instances

`FILE:LINE: E51: too many instances`, status 120, at the type.

A program needs at most 2,000 types: each class counts once, and each class
with parameters once for each list of types that it is given.

    {
       seq 2000 | sed 's/.*/class C& is end;/'
       echo 'class MAIN is'
       seq 2000 | sed 's/.*/attr x&:C&;/'
       echo 'main is end; end;'
    } > f.sa
    sather check f.sa

gives `f.sa:3992: E51: too many instances`. What differs by its values alone is
one class:

    {
       echo 'class C is readonly attr number:INT; end;'
       echo 'class MAIN is'
       seq 2000 | sed 's/.*/attr x&:C;/'
       echo 'main is end; end;'
    } > f.sa
    sather check f.sa

prints `accepted`.
"#;

const E52: &str = r#"E52: type too deep

`FILE:LINE: E52: type too deep`, status 120, at the type.

A type is at most 8 deep: INT is 1 deep, `FLIST{INT}` 2, and
`FLIST{FLIST{INT}}` 3. Who reaches that has a class with parameters that needs
itself with a larger type, which needs itself with a still larger one, without
an end.

    class TREE{T} is
       attr value:T;
       attr children:TREE{FLIST{T}};
    end;
    class MAIN is main is t:TREE{INT}; #OUT + void(t) + "\n"; end; end;

gives `f.sa:3: E52: type too deep`. The children are a list of trees, and not a
tree of lists:

    class TREE{T} is
       attr value:T;
       attr children:FLIST{TREE{T}};
    end;
    class MAIN is main is t:TREE{INT}; #OUT + void(t) + "\n"; end; end;

prints `true`.
"#;

const E53: &str = r#"E53: too many variables

`FILE:LINE: E53: too many variables`, status 120, at the feature's name.

A routine or an iter has at most 200 variables, its arguments and those that
`case` and `typecase` take among them.

    { echo 'class MAIN is main is'; seq 201 | sed 's/.*/x&:INT;/'; echo '#OUT + x201; end; end;'; } > f.sa
    sather run f.sa

gives `f.sa:1: E53: too many variables`. Many variables of one type are an
array:

    echo 'class MAIN is main is x ::= #ARRAY{INT}(202); #OUT + x[201]; end; end;' > f.sa
    sather run f.sa

prints `0`.
"#;

const E54: &str = r#"E54: too many out arguments

`FILE:LINE: E54: too many out arguments`, status 120, at the feature's name.

A feature has at most 16 `out` and `inout` arguments.

    class MAIN is
       first(out a, b, c, d, e, f, g, h, i, j, k, l, m, n, o, p, q:INT) is a := 2; b := 3; c := 5; end;
       main is end;
    end;

gives `f.sa:2: E54: too many out arguments`. What gives back so many values
gives back an object that holds them:

    class MAIN is
       first:ARRAY{INT} is a ::= #ARRAY{INT}(17); a[0] := 2; a[1] := 3; a[2] := 5; return a; end;
       main is #OUT + first[2] + "\n"; end;
    end;

prints `5`.
"#;

const E55: &str = r#"E55: program too large

`FILE:LINE: E55: program too large`, status 120, at the feature's name.

The statements and expressions of all needed classes, with their features and
shareds, are at most 200,000. A class with parameters counts once for each list
of types that it is given.

    { echo 'class MAIN is main is x ::= 0;'; yes 'x := x + 1;' | head -n 60000; echo '#OUT + x; end; end;'; } > f.sa
    sather run f.sa

gives `f.sa:1: E55: program too large`. What is done many times is a loop:

    echo 'class MAIN is main is x ::= 0; loop 60000.times!; x := x + 1; end; #OUT + x; end; end;' > f.sa
    sather run f.sa

prints `60000`.
"#;

const E56: &str = r#"E56: too many dispatch pairs

`FILE:LINE: E56: too many dispatch pairs`, status 120, at the signature's name.

For each signature of an abstract class and each class below it the compiler
keeps which feature is called. These are at most 100,000 pairs, as of 100
signatures and 1,000 classes.

    {
       echo 'abstract class $SHAPE is'; seq 100 | sed 's/.*/f&;/'; echo 'end;'
       echo 'partial class SHAPE is'; seq 100 | sed 's/.*/f& is end;/'; echo 'end;'
       seq 1001 | sed 's/.*/class C& < $SHAPE is include SHAPE; end;/'
       echo 'class MAIN is attr s:$SHAPE;'; seq 1001 | sed 's/.*/attr x&:C&;/'; echo 'main is end; end;'
    } > f.sa
    sather check f.sa

gives `f.sa:101: E56: too many dispatch pairs`. A signature that isn't called
on the abstract class needn't be there:

    {
       echo 'abstract class $SHAPE is'; seq 10 | sed 's/.*/f&;/'; echo 'end;'
       echo 'partial class SHAPE is'; seq 100 | sed 's/.*/f& is end;/'; echo 'end;'
       seq 1001 | sed 's/.*/class C& < $SHAPE is include SHAPE; end;/'
       echo 'class MAIN is attr s:$SHAPE;'; seq 1001 | sed 's/.*/attr x&:C&;/'; echo 'main is end; end;'
    } > f.sa
    sather check f.sa

prints `accepted`.
"#;
