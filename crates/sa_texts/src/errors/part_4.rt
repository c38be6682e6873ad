//! Part 5 of the sections of docs/ERRORS.md.

/// The texts of this part, each behind the words that ask for it.
pub(crate) const ERRORS_4: [(&str, &str, &str, &str); 4] = [
    ("E31", "no feature fits", "E31: no feature fits", E31),
    (
        "E32",
        "several features fit",
        "E32: several features fit",
        E32,
    ),
    ("E34", "private feature", "E34: private feature", E34),
    (
        "E41",
        "no type from context",
        "E41: no type from context",
        E41,
    ),
];

const E31: &str = r#"E31: no feature fits

`FILE:LINE: E31: no feature fits`, status 120, at the name, the operator or the
`:=`; of an index at its first token.

There are features of this name, but none that fits the call: it has other
arguments, or gives a result where a statement wants none, or gives none where
one is wanted. So `=`, which compares, is no statement:

    class MAIN is
       main is
          x ::= 1;
          x = 3;
          #OUT + x + "\n";
       end;
    end;

gives `f.sa:4: E31: no feature fits`. To assign is `:=`:

    class MAIN is
       main is
          x ::= 1;
          x := 3;
          #OUT + x + "\n";
       end;
    end;

prints `3`. `push` changes its list and gives no new one:

    class MAIN is
       main is
          l ::= #FLIST{INT};
          l := l.push(4);
          #OUT + l.size + "\n";
       end;
    end;

gives `f.sa:4: E31: no feature fits`.

    class MAIN is
       main is
          l ::= #FLIST{INT};
          l.push(4);
          #OUT + l.size + "\n";
       end;
    end;

prints `1`. What an iter yields has to be used, where it yields something:

    class MAIN is
       main is
          n ::= 1;
          loop 1.upto!(10); n := n * 2; end;
          #OUT + n + "\n";
       end;
    end;

gives `f.sa:4: E31: no feature fits`. `times!` yields so often, and no value:

    class MAIN is
       main is
          n ::= 1;
          loop 10.times!; n := n * 2; end;
          #OUT + n + "\n";
       end;
    end;

prints `1024`. An assignment to an attribute calls its writer, which of a
`readonly` one the class alone can do:

    class DOG is
       readonly attr age:INT;
       create:SAME is return new; end;
    end;
    class MAIN is main is d ::= #DOG; d.age := d.age + 1; #OUT + d.age + "\n"; end; end;

gives `f.sa:5: E31: no feature fits`.

    class DOG is
       readonly attr age:INT;
       create:SAME is return new; end;
       birthday is age := age + 1; end;
    end;
    class MAIN is main is d ::= #DOG; d.birthday; #OUT + d.age + "\n"; end; end;

prints `1`.
"#;

const E32: &str = r#"E32: several features fit

`FILE:LINE: E32: several features fit`, status 120, at the name, the operator
or the `:=`; of an index at its first token.

Several features fit the call, and none of them is the most specific one, whose
arguments are all below those of the others. The compiler doesn't guess which
one is meant.

    class MAIN is
       show(a:INT, b:$STR) is #OUT + "first\n"; end;
       show(a:$STR, b:INT) is #OUT + "second\n"; end;
       main is show(1, 2); end;
    end;

gives `f.sa:4: E32: several features fit`. A feature for just these arguments
is more specific than both:

    class MAIN is
       show(a:INT, b:$STR) is #OUT + "first\n"; end;
       show(a:$STR, b:INT) is #OUT + "second\n"; end;
       show(a, b:INT) is #OUT + "both\n"; end;
       main is show(1, 2); end;
    end;

prints `both`.
"#;

const E34: &str = r#"E34: private feature

`FILE:LINE: E34: private feature`, status 120, at the name, the operator or the
`:=`; of an index at its first token.

What is private is seen by the code of its own class alone, so that the class
can change it without asking anybody.

    class ACCOUNT is
       private attr balance:INT;
       create:SAME is return new; end;
       deposit(amount:INT) is balance := balance + amount; end;
    end;
    class MAIN is main is a ::= #ACCOUNT; a.deposit(5); #OUT + a.balance + "\n"; end; end;

gives `f.sa:6: E34: private feature`. `readonly` lets others read it, and still
the class alone writes it:

    class ACCOUNT is
       readonly attr balance:INT;
       create:SAME is return new; end;
       deposit(amount:INT) is balance := balance + amount; end;
    end;
    class MAIN is main is a ::= #ACCOUNT; a.deposit(5); #OUT + a.balance + "\n"; end; end;

prints `5`.
"#;

const E41: &str = r#"E41: no type from context

`FILE:LINE: E41: no type from context`, status 120, at the form that wants a
type.

`void`, `|..|` and `#(..)` without a class take their type from the place where
they stand. `::=` takes its type from the value, so neither of the two has one
to give.

    class MAIN is
       main is
          a ::= |3, 1, 2|;
          #OUT + a.size + "\n";
       end;
    end;

gives `f.sa:3: E41: no type from context`. Write the type of the variable:

    class MAIN is
       main is
          a:ARRAY{INT} := |3, 1, 2|;
          #OUT + a.size + "\n";
       end;
    end;

prints `3`.
"#;
