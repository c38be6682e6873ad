//! Part 3 of the sections of docs/ERRORS.md.

/// The texts of this part, each behind the words that ask for it.
pub(crate) const ERRORS_2: [(&str, &str, &str, &str); 6] = [
    ("E15", "cycle", "E15: cycle", E15),
    ("E24", "no MAIN::main", "E24: no MAIN::main", E24),
    ("E18", "subtype cycle", "E18: subtype cycle", E18),
    (
        "E19",
        "supertype not abstract",
        "E19: supertype not abstract",
        E19,
    ),
    (
        "E20",
        "no conforming feature",
        "E20: no conforming feature",
        E20,
    ),
    (
        "E21",
        "several conforming features",
        "E21: several conforming features",
        E21,
    ),
];

const E15: &str = r#"E15: cycle

`FILE:LINE: E15: cycle`, status 120, at the name of the first class on it.

A class that includes itself, by itself or by others, has no end, and neither
has an immutable class that holds itself: each value would have another one
inside. A reference class may hold itself, since its variable is void or holds
an object that is shared.

    immutable class LINK is
       attr value:INT;
       attr next:LINK;
    end;
    class MAIN is main is l:LINK; #OUT + void(l) + "\n"; end; end;

gives `f.sa:1: E15: cycle`.

    class LINK is
       attr value:INT;
       attr next:LINK;
    end;
    class MAIN is main is l:LINK; #OUT + void(l) + "\n"; end; end;

prints `true`.
"#;

const E24: &str = r#"E24: no MAIN::main

`FILE:LINE: E24: no MAIN::main`, status 120, at MAIN's name, or at the start of
the first file.

A program begins at the routine `main` of the class MAIN. It takes no
arguments, and gives nothing, or an INT that becomes the status; there is one
of it, and MAIN is neither immutable nor partial and has no parameters. The
words of a command don't reach a program.

    class MAIN is
       main(words:ARRAY{STR}) is #OUT + "Hello " + words[1] + "\n"; end;
    end;

gives `f.sa:1: E24: no MAIN::main`. What a program has to know it reads from
its input:

    class MAIN is
       main is #OUT + "Hello " + #IN.get_str + "\n"; end;
    end;

prints `Hello ` where the input is empty.
"#;

const E18: &str = r#"E18: subtype cycle

`FILE:LINE: E18: subtype cycle`, status 120, at the name of the first class on
it.

`<` says what a class stands below, and `>` what stands below it. Where each of
two types stands below the other they would be one type with two names.

    abstract class $SHAPE > $ROUND is area:INT; end;
    abstract class $ROUND > $SHAPE is radius:INT; end;
    class MAIN is main is s:$SHAPE; #OUT + void(s) + "\n"; end; end;

gives `f.sa:1: E18: subtype cycle`. Every round thing is a shape, so `$ROUND`
stands below:

    abstract class $SHAPE is area:INT; end;
    abstract class $ROUND < $SHAPE is radius:INT; end;
    class MAIN is main is s:$SHAPE; #OUT + void(s) + "\n"; end; end;

prints `true`.
"#;

const E19: &str = r#"E19: supertype not abstract

`FILE:LINE: E19: supertype not abstract`, status 120, at the type.

Only abstract classes have types below them. What other languages do by one
word is done by two here: `<` makes a class usable in place of an abstract one,
and `include` takes over the code of another class.

    class ANIMAL is
       legs:INT is return 4; end;
    end;
    class DOG < ANIMAL is
       create:SAME is return new; end;
    end;
    class MAIN is main is #OUT + #DOG.legs + "\n"; end; end;

gives `f.sa:4: E19: supertype not abstract`.

    class ANIMAL is
       legs:INT is return 4; end;
    end;
    class DOG is
       include ANIMAL;
       create:SAME is return new; end;
    end;
    class MAIN is main is #OUT + #DOG.legs + "\n"; end; end;

prints `4`.
"#;

const E20: &str = r#"E20: no conforming feature

`FILE:LINE: E20: no conforming feature`, status 120, at the class's name.

A class below an abstract one has a public feature for each of its signatures,
with the same name, the same number and modes of arguments, and a result
exactly where the signature has one. Otherwise a call on the abstract class
could find nothing to run.

    abstract class $SHAPE is area:INT; end;
    class SQUARE < $SHAPE is
       create:SAME is return new; end;
       area(side:INT):INT is return side * side; end;
    end;
    class MAIN is main is s:$SHAPE := #SQUARE; #OUT + s.area + "\n"; end; end;

gives `f.sa:2: E20: no conforming feature`.

    abstract class $SHAPE is area:INT; end;
    class SQUARE < $SHAPE is
       readonly attr side:INT;
       create(side:INT):SAME is s ::= new; s.side := side; return s; end;
       area:INT is return side * side; end;
    end;
    class MAIN is main is s:$SHAPE := #SQUARE(3); #OUT + s.area + "\n"; end; end;

prints `9`.
"#;

const E21: &str = r#"E21: several conforming features

`FILE:LINE: E21: several conforming features`, status 120, at the class's name.

Two features of the class could stand for one signature of an abstract class
above it, so that a call wouldn't say which one is meant. A feature that takes
`$STR` takes every INT too.

    abstract class $LOG is note(n:INT); end;
    class SCREEN < $LOG is
       create:SAME is return new; end;
       note(n:INT) is #OUT + n + "\n"; end;
       note(x:$STR) is #OUT + x + "\n"; end;
    end;
    class MAIN is main is l:$LOG := #SCREEN; l.note(7); end; end;

gives `f.sa:2: E21: several conforming features`. One of them is enough, or the
other one gets another name:

    abstract class $LOG is note(n:INT); end;
    class SCREEN < $LOG is
       create:SAME is return new; end;
       note(x:$STR) is #OUT + x + "\n"; end;
    end;
    class MAIN is main is l:$LOG := #SCREEN; l.note(7); end; end;

prints `7`.
"#;
