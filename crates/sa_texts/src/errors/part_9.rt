//! Part 10 of the sections of docs/ERRORS.md.

/// The texts of this part, each behind the words that ask for it.
pub(crate) const ERRORS_9: [(&str, &str, &str, &str); 5] = [
    (
        "no return",
        "fault: no return",
        "fault: no return",
        NO_RETURN,
    ),
    ("assert", "fault: assert", "fault: assert", ASSERT),
    ("uncaught", "fault: uncaught", "fault: uncaught", UNCAUGHT),
    ("no room", "fault: no room", "fault: no room", NO_ROOM),
    ("too deep", "fault: too deep", "fault: too deep", TOO_DEEP),
];

const NO_RETURN: &str = r#"fault: no return

`FILE:LINE: fault: no return`, status 121, at the routine's name. Its `kind` is
6.

A routine with a result came to its end without a `return`. Which way a routine
goes is known only when it runs, so the check is made there.

    class MAIN is
       sign(n:INT):INT is
          if n < 0 then return -1; end;
          if n > 0 then return 1; end;
       end;
       main is #OUT + sign(0) + "\n"; end;
    end;

gives `f.sa:2: fault: no return`.

    class MAIN is
       sign(n:INT):INT is
          if n < 0 then return -1; end;
          if n > 0 then return 1; end;
          return 0;
       end;
       main is #OUT + sign(0) + "\n"; end;
    end;

prints `0`.
"#;

const ASSERT: &str = r#"fault: assert

`FILE:LINE: fault: assert`, status 121. Its `kind` is 7.

What an `assert` claims is false, or with `--contracts` a `pre`, a `post` or an
invariant. The mistake is where the claim was broken, which is often in the
caller.

    class MAIN is
       share(sum, people:INT):INT is
          assert people > 0;
          return sum / people;
       end;
       main is #OUT + share(12, 0) + "\n"; end;
    end;

gives `f.sa:3: fault: assert`.

    class MAIN is
       share(sum, people:INT):INT is
          assert people > 0;
          return sum / people;
       end;
       main is #OUT + share(12, 4) + "\n"; end;
    end;

prints `3`.
"#;

const UNCAUGHT: &str = r#"fault: uncaught

`FILE:LINE: fault: uncaught`, status 121, at the `raise`.

What a `raise` has raised left `main` without being caught. The line doesn't
tell what it was: an object of any class can be raised, and only a `when` of
its class knows what to do with it.

    class MAIN is
       half(n:INT):INT is
          if n % 2 = 1 then raise "odd"; end;
          return n / 2;
       end;
       main is #OUT + half(7) + "\n"; end;
    end;

gives `f.sa:3: fault: uncaught`.

    class MAIN is
       half(n:INT):INT is
          if n % 2 = 1 then raise "odd"; end;
          return n / 2;
       end;
       main is
          protect #OUT + half(7) + "\n";
          when STR then #OUT + exception + "\n";
          end;
       end;
    end;

prints `odd`.
"#;

const NO_ROOM: &str = r#"fault: no room

`FILE:LINE: fault: no room`, status 121.

Each object, array and text takes room, of which nothing is given back, and the
program's room is used up. `--room KIB` gives more. Often less will do: a text
that grows byte by byte is made anew each time, and a thousand bytes take half
a million.

    class MAIN is
       main is
          s ::= "";
          loop 1000.times!; s := s + "x"; end;
          #OUT + s.size + "\n";
       end;
    end;

gives with `--room 64` `prelude:36: fault: no room`. Gather the bytes in an
array, and make one text of them:

    class MAIN is
       main is
          a ::= #ARRAY{CHAR}(1000);
          loop a.set!('x'); end;
          s ::= STR::of(a, a.size);
          #OUT + s.size + "\n";
       end;
    end;

prints with `--room 64` `1000`.
"#;

const TOO_DEEP: &str = r#"fault: too deep

`FILE:LINE: fault: too deep`, status 121, at the call.

10,000 calls are running, and one more begins. Mostly a routine calls itself
and nothing ends that.

    class MAIN is
       sum(n:INT):INT is
          return n + sum(n - 1);
       end;
       main is #OUT + sum(10) + "\n"; end;
    end;

gives `f.sa:3: fault: too deep`.

    class MAIN is
       sum(n:INT):INT is
          if n = 0 then return 0; end;
          return n + sum(n - 1);
       end;
       main is #OUT + sum(10) + "\n"; end;
    end;

prints `55`.

too deep

`FILE: too deep`, status 126.

40,000 functions of the module are running, and one more begins. Engines have a
stack of their own, and many end such a module earlier. `exec --explain` tells
in which function that one is called.

    cat > m.txt << 'END'
    type ->
    func 0
    call 0
    end
    export 6d61696e func 0
    END
    sather assemble -o m.wasm m.txt
    sather exec m.wasm

gives `m.wasm: too deep`. What goes on for long is a loop, here of 100,000
rounds:

    cat > m.txt << 'END'
    type ->
    func 0 i32
    loop
    local.get 0
    i32.const 1
    i32.add
    local.tee 0
    i32.const 100000
    i32.lt_u
    br_if 0
    end
    end
    export 6d61696e func 0
    END
    sather assemble -o m.wasm m.txt
    sather exec m.wasm

ends well.
"#;
