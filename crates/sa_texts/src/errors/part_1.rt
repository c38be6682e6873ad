//! Part 2 of the sections of docs/ERRORS.md.

/// The texts of this part, each behind the words that ask for it.
pub(crate) const ERRORS_1: [(&str, &str, &str, &str); 6] = [
    ("E07", "nested too deep", "E07: nested too deep", E07),
    ("E08", "word not taken", "E08: word not taken", E08),
    (
        "E10",
        "class defined twice",
        "E10: class defined twice",
        E10,
    ),
    (
        "E12",
        "class unknown or not usable",
        "E12: class unknown or not usable",
        E12,
    ),
    (
        "E13",
        "wrong number of parameters",
        "E13: wrong number of parameters",
        E13,
    ),
    ("E14", "bound not met", "E14: bound not met", E14),
];

const E07: &str = r#"E07: nested too deep

`FILE:LINE: E07: nested too deep`, status 120, at the token that makes the
level 201.

A source may be nested 200 deep, so that the compiler needs a bounded stack for
every source. Blocks and parentheses open levels, and each operator counts as
one until its statement ends: it is long sums that reach the bound.

    { echo 'class MAIN is main is #OUT + (0'; yes '+ 1' | head -n 200; echo '); end; end;'; } > f.sa
    sather run f.sa

gives `f.sa:197: E07: nested too deep`. In several statements, or in a loop,
there can be as many as one likes:

    { echo 'class MAIN is main is x ::= 0;'; yes 'x := x + 1;' | head -n 200; echo '#OUT + x; end; end;'; } > f.sa
    sather run f.sa

prints `200`.
"#;

const E08: &str = r#"E08: word not taken

`FILE:LINE: E08: word not taken`, status 120, at the word.

`external spread fork par parloop lock unlock guard cohort sync near far` are
words of parallel Sather, which this compiler doesn't take. They stay words of
the language all the same, so they are no names either.

    class MAIN is
       main is
          near ::= 3;
          #OUT + near + "\n";
       end;
    end;

gives `f.sa:3: E08: word not taken`. Choose another name:

    class MAIN is
       main is
          nearest ::= 3;
          #OUT + nearest + "\n";
       end;
    end;

prints `3`.
"#;

const E10: &str = r#"E10: class defined twice

`FILE:LINE: E10: class defined twice`, status 120, at the later name.

A name means one class in the whole program, in all of its files. The classes
that every program has are among them:
`$OB $STR $IS_EQ BOOL INT CHAR STR OUT IN SYS AREF ARRAY FLIST FAULT`.

    class FLIST is
       readonly attr size:INT;
       create:SAME is return new; end;
    end;
    class MAIN is main is #OUT + #FLIST.size + "\n"; end; end;

gives `f.sa:1: E10: class defined twice`.

    class CHAIN is
       readonly attr size:INT;
       create:SAME is return new; end;
    end;
    class MAIN is main is #OUT + #CHAIN.size + "\n"; end; end;

prints `0`.
"#;

const E12: &str = r#"E12: class unknown or not usable

`FILE:LINE: E12: class unknown or not usable`, status 120, at the type, and for
`C::f` and `#C` at the call.

No class has this name, or it is one that can't stand there: a partial class is
no type, and some classes aren't included. Names from other languages are the
usual cause; a text is a STR. A class of the library, as FMAP, TEXT or FLT, is
in a file that stands beside the program: `sather lib fmap > fmap.sa`, and
`sather run mine.sa fmap.sa`.

    class MAIN is
       main is
          name:STRING := "Ada";
          #OUT + name + "\n";
       end;
    end;

gives `f.sa:3: E12: class unknown or not usable`.

    class MAIN is
       main is
          name:STR := "Ada";
          #OUT + name + "\n";
       end;
    end;

prints `Ada`.
"#;

const E13: &str = r#"E13: wrong number of parameters

`FILE:LINE: E13: wrong number of parameters`, status 120, at the type.

A class with parameters becomes a type by a type for each of them. An array or
a list doesn't find out by itself what it holds.

    class MAIN is
       main is
          l ::= #FLIST;
          l.push(3);
          #OUT + l.size + "\n";
       end;
    end;

gives `f.sa:3: E13: wrong number of parameters`.

    class MAIN is
       main is
          l ::= #FLIST{INT};
          l.push(3);
          #OUT + l.size + "\n";
       end;
    end;

prints `1`.
"#;

const E14: &str = r#"E14: bound not met

`FILE:LINE: E14: bound not met`, status 120, at the type.

A parameter with a bound, as `T < $STR`, takes only types that are below it,
since the class uses what the bound promises of them. To have the routine isn't
enough: the class says itself what it stands below.

    class POINT is
       readonly attr x, y:INT;
       create(x, y:INT):SAME is p ::= new; p.x := x; p.y := y; return p; end;
       str:STR is return x.str + "/" + y; end;
    end;
    class PRINTER{T < $STR} is
       show(x:T) is #OUT + x.str + "\n"; end;
    end;
    class MAIN is
       main is p:PRINTER{POINT}; p.show(#POINT(1, 2)); end;
    end;

gives `f.sa:10: E14: bound not met`.

    class POINT < $STR is
       readonly attr x, y:INT;
       create(x, y:INT):SAME is p ::= new; p.x := x; p.y := y; return p; end;
       str:STR is return x.str + "/" + y; end;
    end;
    class PRINTER{T < $STR} is
       show(x:T) is #OUT + x.str + "\n"; end;
    end;
    class MAIN is
       main is p:PRINTER{POINT}; p.show(#POINT(1, 2)); end;
    end;

prints `1/2`.
"#;
