//! Part 12 of the sections of docs/ERRORS.md.

/// The texts of this part, each behind the words that ask for it.
pub(crate) const ERRORS_11: [(&str, &str, &str, &str); 7] = [
    ("stop", "stop", "stop", STOP),
    ("malformed", "malformed", "malformed", MALFORMED),
    ("invalid", "invalid", "invalid", INVALID),
    ("unlinked", "unlinked", "unlinked", UNLINKED),
    ("segment", "segment", "segment", SEGMENT),
    ("trap", "trap", "trap", TRAP),
    ("no listing", "no listing", "no listing", NO_LISTING),
];

const STOP: &str = r#"stop

`FILE: stop CODE at SITE`, status 121.

The module ended itself by a call of `env.stop`. That is how a program that was
built tells a fault: CODE is the place of the fault in the table, from 1, and
SITE the number of its position. To see the line, run the source.

    echo 'class MAIN is main is #OUT + 12 / 0; end; end;' > f.sa
    sather build -o f.wasm f.sa
    sather exec f.wasm

gives `f.wasm: stop 2 at 83`: 2 is the division by zero.

    echo 'class MAIN is main is #OUT + 12 / 3; end; end;' > f.sa
    sather build -o f.wasm f.sa
    sather exec f.wasm

prints `4`.
"#;

const MALFORMED: &str = r#"malformed

`FILE: malformed`, status 126.

The bytes of the file are no module of the integer part of WebAssembly 1.0. It
is another file, it was cut, or it was made with features that came later, or
with floating point. `exec --explain` tells at which byte it is wrong, what
stands there, and what is wanted.

    echo 'class MAIN is main is #OUT + "Hello\n"; end; end;' > f.sa
    sather exec f.sa

gives `f.sa: malformed`. A source is run by `run`, and `exec` takes what
`build` has made:

    echo 'class MAIN is main is #OUT + 5; end; end;' > f.sa
    sather build -o f.wasm f.sa
    sather exec f.wasm

prints `5`.
"#;

const INVALID: &str = r#"invalid

`FILE: invalid`, status 126.

The module breaks a rule of validity of the standard: most often the operands
of an instruction aren't there, or are of another type, or something is left
when a function ends. Such a module is run by no engine.

    cat > m.txt << 'END'
    type ->
    func 0
    i32.const 7
    end
    export 6d61696e func 0
    END
    sather assemble -o m.wasm m.txt
    sather exec m.wasm

gives `m.wasm: invalid`, since `main` has no result, and the 7 is left.

    cat > m.txt << 'END'
    type ->
    func 0
    i32.const 7
    drop
    end
    export 6d61696e func 0
    END
    sather assemble -o m.wasm m.txt
    sather exec m.wasm

ends well.
"#;

const UNLINKED: &str = r#"unlinked

`FILE: unlinked IMPORT`, status 126.

The import of this number, from 0, can't be given: `exec` has `env.put`,
`env.get` and `env.stop`, each with its type. Where the number is that of all
imports, it is the export `main` that isn't there, or isn't a function of the
module's own without arguments and with no result or an i32. So a module has no
ways to the outside but these.

    cat > m.txt << 'END'
    type ->
    func 0
    end
    export 5f7374617274 func 0
    END
    sather assemble -o m.wasm m.txt
    sather exec m.wasm

gives `m.wasm: unlinked 0`: there are 0 imports, and the function has the name
`_start`.

    cat > m.txt << 'END'
    type ->
    func 0
    end
    export 6d61696e func 0
    END
    sather assemble -o m.wasm m.txt
    sather exec m.wasm

ends well.
"#;

const SEGMENT: &str = r#"segment

`FILE: segment`, status 126.

A data segment doesn't fit into the memory, or an element segment into the
table. It is found before anything runs.

    cat > m.txt << 'END'
    type ->
    func 0
    end
    memory 1
    export 6d61696e func 0
    data 0 i32 65535 4142
    END
    sather assemble -o m.wasm m.txt
    sather exec m.wasm

gives `m.wasm: segment`: a page has 65,536 bytes, and of the two bytes the
second would be past it.

    cat > m.txt << 'END'
    type ->
    func 0
    end
    memory 1
    export 6d61696e func 0
    data 0 i32 65534 4142
    END
    sather assemble -o m.wasm m.txt
    sather exec m.wasm

ends well.
"#;

const TRAP: &str = r#"trap

`FILE: trap`, status 126.

An instruction has no result for its operands, as a quotient by zero or a load
past the memory, or it is `unreachable`. The list has them all. A module that
this compiler has built ends by `stop` instead. `exec --explain` tells which of
these it was and in which function, by its number and the name that it is
exported under.

    cat > m.txt << 'END'
    type ->
    func 0
    i32.const 12
    i32.const 0
    i32.div_s
    drop
    end
    export 6d61696e func 0
    END
    sather assemble -o m.wasm m.txt
    sather exec m.wasm

gives `m.wasm: trap`.

    cat > m.txt << 'END'
    type ->
    func 0
    i32.const 12
    i32.const 3
    i32.div_s
    drop
    end
    export 6d61696e func 0
    END
    sather assemble -o m.wasm m.txt
    sather exec m.wasm

ends well.
"#;

const NO_LISTING: &str = r#"no listing

`FILE:LINE: no listing`, status 126.

The text is no listing: no module has one that begins with the lines up to this
one. A listing isn't the text format of the standard, with its parentheses:
each module has one listing, with an item or an instruction on each line.

    echo '(module (func (export "main")))' > m.txt
    sather assemble -o m.wasm m.txt

gives `m.txt:1: no listing`.

    cat > m.txt << 'END'
    type ->
    func 0
    end
    export 6d61696e func 0
    END
    sather assemble -o m.wasm m.txt
    sather listing m.wasm

prints

    type ->
    func 0
    end
    export 6d61696e func 0
"#;
