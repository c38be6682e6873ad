//! Part 9 of the sections of docs/ERRORS.md.

/// The texts of this part, each behind the words that ask for it.
pub(crate) const ERRORS_8: [(&str, &str, &str, &str); 5] = [
    ("overflow", "fault: overflow", "fault: overflow", OVERFLOW),
    (
        "division by zero",
        "fault: division by zero",
        "fault: division by zero",
        DIVISION_BY_ZERO,
    ),
    ("void", "fault: void", "fault: void", VOID),
    ("index", "fault: index", "fault: index", INDEX),
    (
        "no branch",
        "fault: no branch",
        "fault: no branch",
        NO_BRANCH,
    ),
];

const OVERFLOW: &str = r#"fault: overflow

`FILE:LINE: fault: overflow`, status 121. Its `kind` is 1.

A number outside of -2147483648 to 2147483647, or a byte outside of 0 to 255.
Numbers don't wrap around, since a wrong number that goes on is worse than a
program that stops.

    class MAIN is
       main is
          product ::= 1;
          loop product := product * 1.upto!(20); end;
          #OUT + product + "\n";
       end;
    end;

gives `f.sa:4: fault: overflow`. Ask before, by a division, or go only as far
as the numbers do:

    class MAIN is
       main is
          product ::= 1;
          loop
             i ::= 1.upto!(20);
             until!(product > 2147483647 / i);
             product := product * i;
          end;
          #OUT + product + "\n";
       end;
    end;

prints `479001600`. A power is a routine of the prelude:

    class MAIN is
       main is #OUT + 2^31 + "\n"; end;
    end;

gives `prelude:17: fault: overflow`.

    class MAIN is
       main is #OUT + 2^30 + "\n"; end;
    end;

prints `1073741824`.
"#;

const DIVISION_BY_ZERO: &str = r#"fault: division by zero

`FILE:LINE: fault: division by zero`, status 121. Its `kind` is 2.

The divisor of `/` or `%` is 0. Such a quotient has no value; it is most often
an average of nothing.

    class MAIN is
       average(l:FLIST{INT}):INT is
          sum ::= 0;
          loop sum := sum + l.elt!; end;
          return sum / l.size;
       end;
       main is #OUT + average(#FLIST{INT}) + "\n"; end;
    end;

gives `f.sa:5: fault: division by zero`. Say what it is of nothing:

    class MAIN is
       average(l:FLIST{INT}):INT is
          if l.size = 0 then return 0; end;
          sum ::= 0;
          loop sum := sum + l.elt!; end;
          return sum / l.size;
       end;
       main is #OUT + average(#FLIST{INT}) + "\n"; end;
    end;

prints `0`.
"#;

const VOID: &str = r#"fault: void

`FILE:LINE: fault: void`, status 121. Its `kind` is 3.

A variable of a reference class begins as void, which is no object: it has no
attributes and no elements, and no class that a dispatched call could go by. A
declaration alone makes no object.

    class DOG is
       attr age:INT;
       create:SAME is return new; end;
    end;
    class MAIN is
       main is
          d:DOG;
          d.age := 3;
          #OUT + d.age + "\n";
       end;
    end;

gives `f.sa:8: fault: void`.

    class DOG is
       attr age:INT;
       create:SAME is return new; end;
    end;
    class MAIN is
       main is
          d ::= #DOG;
          d.age := 3;
          #OUT + d.age + "\n";
       end;
    end;

prints `3`. A list is an object too:

    class MAIN is
       main is
          l:FLIST{INT};
          l.push(3);
          #OUT + l.size + "\n";
       end;
    end;

gives `prelude:79: fault: void`.

    class MAIN is
       main is
          l ::= #FLIST{INT};
          l.push(3);
          #OUT + l.size + "\n";
       end;
    end;

prints `1`.
"#;

const INDEX: &str = r#"fault: index

`FILE:LINE: fault: index`, status 121. Its `kind` is 4.

The places of an array, a list or a text go from 0 to one less than its size.
Another place, and a negative size, is never taken for a neighbouring one.

    class MAIN is
       main is
          a:ARRAY{INT} := |3, 1, 2|;
          sum ::= 0;
          loop sum := sum + a[1.upto!(a.size)]; end;
          #OUT + sum + "\n";
       end;
    end;

gives `f.sa:5: fault: index`. `elt!` yields the elements, and `ind!` the
places:

    class MAIN is
       main is
          a:ARRAY{INT} := |3, 1, 2|;
          sum ::= 0;
          loop sum := sum + a.elt!; end;
          #OUT + sum + "\n";
       end;
    end;

prints `6`. A list looks into itself in the prelude:

    class MAIN is
       main is
          l ::= #FLIST{INT};
          l.push(3);
          #OUT + l[1] + "\n";
       end;
    end;

gives `prelude:84: fault: index`.

    class MAIN is
       main is
          l ::= #FLIST{INT};
          l.push(3);
          #OUT + l[0] + "\n";
       end;
    end;

prints `3`.
"#;

const NO_BRANCH: &str = r#"fault: no branch

`FILE:LINE: fault: no branch`, status 121. Its `kind` is 5.

No `when` of a `case` or a `typecase` fits, and there is no `else`. So a value
that was forgotten isn't passed over in silence.

    class MAIN is
       hours(day:STR):INT is
          case day
          when "Saturday", "Sunday" then return 0;
          end;
          return 8;
       end;
       main is #OUT + hours("Monday") + "\n"; end;
    end;

gives `f.sa:3: fault: no branch`.

    class MAIN is
       hours(day:STR):INT is
          case day
          when "Saturday", "Sunday" then return 0;
          else return 8;
          end;
       end;
       main is #OUT + hours("Monday") + "\n"; end;
    end;

prints `8`.
"#;
