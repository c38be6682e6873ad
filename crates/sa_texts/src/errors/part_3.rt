//! Part 4 of the sections of docs/ERRORS.md.

/// The texts of this part, each behind the words that ask for it.
pub(crate) const ERRORS_3: [(&str, &str, &str, &str); 5] = [
    ("E11", "features conflict", "E11: features conflict", E11),
    (
        "E16",
        "no such included feature",
        "E16: no such included feature",
        E16,
    ),
    (
        "E17",
        "included features conflict",
        "E17: included features conflict",
        E17,
    ),
    ("E22", "stub left", "E22: stub left", E22),
    ("E30", "unknown name", "E30: unknown name", E30),
];

const E11: &str = r#"E11: features conflict

`FILE:LINE: E11: features conflict`, status 120, at the later name.

Two features that a class writes have one name, and no call could tell them
apart: the arguments are as many, of the same types, and both have a result, or
none has. An attribute is a routine that reads it, so it needs no other one of
its name.

    class DOG is
       attr name:STR;
       create:SAME is return new; end;
       name:STR is return "Rex"; end;
    end;
    class MAIN is main is #OUT + #DOG.name + "\n"; end; end;

gives `f.sa:4: E11: features conflict`. `readonly` is how others may read what
the class alone writes:

    class DOG is
       readonly attr name:STR;
       create:SAME is d ::= new; d.name := "Rex"; return d; end;
    end;
    class MAIN is main is #OUT + #DOG.name + "\n"; end; end;

prints `Rex`.
"#;

const E16: &str = r#"E16: no such included feature

`FILE:LINE: E16: no such included feature`, status 120, at the left name of the
change.

The left name of a change is the one that the included class has, and the right
one is the one that it gets here. It is refused where the included class has no
such feature, so that a mistyped change doesn't just do nothing.

    class GREETER is
       hello is #OUT + "Hello\n"; end;
    end;
    class MAIN is
       include GREETER greet->hello;
       main is greet; end;
    end;

gives `f.sa:5: E16: no such included feature`.

    class GREETER is
       hello is #OUT + "Hello\n"; end;
    end;
    class MAIN is
       include GREETER hello->greet;
       main is greet; end;
    end;

prints `Hello`.
"#;

const E17: &str = r#"E17: included features conflict

`FILE:LINE: E17: included features conflict`, status 120, at the type of the
later include.

Two includes bring features that no call could tell apart, and the order of the
includes doesn't decide. So it is too where two includes bring an array part,
or one brings it to an immutable class.

    class DOG is sound:STR is return "woof"; end; end;
    class DUCK is sound:STR is return "quack"; end; end;
    class TOY is
       include DOG;
       include DUCK;
       create:SAME is return new; end;
    end;
    class MAIN is main is #OUT + #TOY.sound + "\n"; end; end;

gives `f.sa:5: E17: included features conflict`. Leave one out, give it another
name, or write the feature yourself:

    class DOG is sound:STR is return "woof"; end; end;
    class DUCK is sound:STR is return "quack"; end; end;
    class TOY is
       include DOG sound->;
       include DUCK;
       create:SAME is return new; end;
    end;
    class MAIN is main is #OUT + #TOY.sound + "\n"; end; end;

prints `quack`.
"#;

const E22: &str = r#"E22: stub left

`FILE:LINE: E22: stub left`, status 120, at the stub's name.

A stub is what a partial class wants of the class that includes it. A class
that isn't partial has objects, so nothing may be left to be given.

    partial class GREETER is
       stub name:STR;
       greet is #OUT + "Hello " + name + "\n"; end;
    end;
    class MAIN is
       include GREETER;
       main is greet; end;
    end;

gives `f.sa:2: E22: stub left`.

    partial class GREETER is
       stub name:STR;
       greet is #OUT + "Hello " + name + "\n"; end;
    end;
    class MAIN is
       include GREETER;
       name:STR is return "Ada"; end;
       main is greet; end;
    end;

prints `Hello Ada`.
"#;

const E30: &str = r#"E30: unknown name

`FILE:LINE: E30: unknown name`, status 120, at the name, the operator or the
`:=`; of an index at its first token.

Nothing has this name: no variable that is declared further up in this list of
statements or around it, and no feature of the class on which it is called.
What CHAR, STR, INT and ARRAY lack is in classes of the library, as
`TEXT::upper(s)`; `sather lib` lists them. Often it is mistyped:

    class MAIN is
       main is
          total ::= 0;
          loop total := totel + 1.upto!(4); end;
          #OUT + total + "\n";
       end;
    end;

gives `f.sa:4: E30: unknown name`.

    class MAIN is
       main is
          total ::= 0;
          loop total := total + 1.upto!(4); end;
          #OUT + total + "\n";
       end;
    end;

prints `10`. An iter has its `!` in the call too:

    class MAIN is
       main is loop #OUT + 1.upto(3) + " "; end; end;
    end;

gives `f.sa:2: E30: unknown name`.

    class MAIN is
       main is loop #OUT + 1.upto!(3) + " "; end; end;
    end;

prints `1 2 3 `. `#DOG` calls the routine `create` of DOG, and no class has one
by itself:

    class DOG is
       readonly attr age:INT;
    end;
    class MAIN is main is #OUT + #DOG.age + "\n"; end; end;

gives `f.sa:4: E30: unknown name`.

    class DOG is
       readonly attr age:INT;
       create:SAME is return new; end;
    end;
    class MAIN is main is #OUT + #DOG.age + "\n"; end; end;

prints `0`. In the same way `=` calls `is_eq`, and `<` calls `is_lt`:

    class POINT is
       readonly attr x:INT;
       create(x:INT):SAME is p ::= new; p.x := x; return p; end;
    end;
    class MAIN is
       main is #OUT + (#POINT(1) = #POINT(1)) + "\n"; end;
    end;

gives `f.sa:6: E30: unknown name`. Say when two are equal, or ask by
`SYS::ob_eq(a, b)` whether they are one object:

    class POINT is
       readonly attr x:INT;
       create(x:INT):SAME is p ::= new; p.x := x; return p; end;
       is_eq(o:POINT):BOOL is return x = o.x; end;
    end;
    class MAIN is
       main is #OUT + (#POINT(1) = #POINT(1)) + "\n"; end;
    end;

prints `true`.
"#;
