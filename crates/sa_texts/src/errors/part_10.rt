//! Part 11 of the sections of docs/ERRORS.md.

/// The texts of this part, each behind the words that ask for it.
pub(crate) const ERRORS_10: [(&str, &str, &str, &str); 10] = [
    ("frames", "fault: frames", "fault: frames", FRAMES),
    ("fuel spent", "fuel spent", "fuel spent", FUEL_SPENT),
    ("store fault", "store fault", "store fault", STORE_FAULT),
    ("input fault", "input fault", "input fault", INPUT_FAULT),
    ("output fault", "output fault", "output fault", OUTPUT_FAULT),
    ("usage", "usage", "usage", USAGE),
    ("no page", "no page", "no page", NO_PAGE),
    ("no file", "no file", "no file", NO_FILE),
    (
        "out of memory",
        "out of memory",
        "out of memory",
        OUT_OF_MEMORY,
    ),
    (
        "internal error",
        "internal error",
        "internal error",
        INTERNAL_ERROR,
    ),
];

const FRAMES: &str = r#"fault: frames

`FILE:LINE: fault: frames`, status 121, at the call.

10,000 instances of iters are live in the loops that are running, and one more
begins. An iter that calls itself twice in one loop has two instances of itself
at each level, each of which has two.

    class MAIN is
       width!(once n:INT):INT is
          if n = 0 then yield 1;
          else loop yield width!(n - 1) + width!(n - 1); end;
          end;
       end;
       main is loop #OUT + width!(20) + "\n"; end; end;
    end;

gives `f.sa:4: fault: frames`. What one instance yields can be used twice:

    class MAIN is
       width!(once n:INT):INT is
          if n = 0 then yield 1;
          else loop w ::= width!(n - 1); yield w + w; end;
          end;
       end;
       main is loop #OUT + width!(20) + "\n"; end; end;
    end;

prints `1048576`.
"#;

const FUEL_SPENT: &str = r#"fuel spent

`fuel spent`, status 122.

The program, or the module, hadn't ended within the steps that `--fuel N`
gives. Either it needs more, or it doesn't end at all.

    class MAIN is
       main is
          i ::= 0;
          loop while!(i < 3); #OUT + i + " "; end;
       end;
    end;

gives with `--fuel 100000` `fuel spent`. The loop waits for an `i` that nothing
changes:

    class MAIN is
       main is
          i ::= 0;
          loop while!(i < 3); #OUT + i + " "; i := i + 1; end;
       end;
    end;

prints with `--fuel 100000` `0 1 2 `.
"#;

const STORE_FAULT: &str = r#"store fault

`store fault`, status 123.

A file can't be read, or the one after `-o` can't be written: its name is
mistyped, it is a folder or a pipe, it may not be read, or the disk is full.
With several files try them one by one.

    class MAIN is
       main is #OUT + "Hello\n"; end;
    end;

prints `Hello`. Under another name

    sather run hello.sa

gives `store fault`.

    sather run f.sa

prints `Hello`.
"#;

const INPUT_FAULT: &str = r#"input fault

`input fault`, status 123.

The program wants to read, and its input can't be read: it was closed, or is a
folder. The end of the input is no fault: `get_byte` gives -1 there.

    class MAIN is
       main is #OUT + "Hello " + #IN.get_str + "\n"; end;
    end;

prints `Hello ` where the input is empty. With a folder in place of a file

    sather run f.sa < .

gives `input fault`.

    echo Ada | sather run f.sa

prints `Hello Ada`.
"#;

const OUTPUT_FAULT: &str = r#"output fault

`output fault`, status 123.

What the program prints can't be written: the disk is full, out is closed, or
nobody reads the pipe any more, as behind `head`.

    class MAIN is
       main is #OUT + "Hello\n"; end;
    end;

prints `Hello`. To a device that is always full

    sather run f.sa > /dev/full

gives `output fault`.

    sather run f.sa > out.txt
    cat out.txt

prints `Hello`.
"#;

const USAGE: &str = r#"usage

`usage: sather run, build, check, exec, gen, selftest, listing or assemble`,
status 124.

The words are no command: the first one is none of these and none of `help`,
`version`, `explain` and `lib`, an option isn't one of the command's or has no
number that it takes, a file is missing, the file behind `-o` is one of those
that are read, or `-`, which is the input, stands where a program or a module
is run or a file is written. `sather help` has a line for each command, and
`sather help run` the options of `run`. Where the first word is a command and
`--explain` is among the others, which of these it is stands behind the line:
of `sather run --explain --stat f.sa` that `run` has no option `--stat`, that
`--stats` is nearly that, and what to type.

    class MAIN is
       main is #OUT + "Hello\n"; end;
    end;

prints `Hello`. Without a command

    sather f.sa

gives
`usage: sather run, build, check, exec, gen, selftest, listing or assemble`. An
option stands before the files:

    sather run --room 1024 f.sa

prints `Hello`.
"#;

const NO_PAGE: &str = r#"no page

`no page: explain takes a code, as E33, or the text of a line, as index or store fault`,
status 124.

This page has no section for the word behind `explain`. It has one for each
code, and for the text that stands behind a code, behind `fault:`, or alone in
its line. A text of several words is quoted.

    sather explain E99

gives
`no page: explain takes a code, as E33, or the text of a line, as index or store fault`.

    sather explain "wrong type" | head -n 1

prints `E33: wrong type`.
"#;

const NO_FILE: &str = r#"no file

`no file: lib takes a name that sather lib lists`, status 124.

The library has no file of this name. A class has often another name than its
file: STACK is in `queue.sa`.

    sather lib stack

gives `no file: lib takes a name that sather lib lists`.

    sather lib queue > queue.sa
    echo 'class MAIN is main is s ::= #STACK{INT}; s.push(3); #OUT + s.pop; end; end;' > f.sa
    sather run f.sa queue.sa

prints `3`.
"#;

const OUT_OF_MEMORY: &str = r#"out of memory

`out of memory`, status 125.

The system gave no more memory. A program that runs takes its whole room at its
start, 65 MiB where `--room` gives no other one.

    class MAIN is
       main is #OUT + "Hello\n"; end;
    end;

prints `Hello`. Where a process may have 50,000 KiB

    ulimit -v 50000
    sather run f.sa

gives `out of memory`. With a smaller room it fits:

    ulimit -v 50000
    sather run --room 1024 f.sa

prints `Hello`.
"#;

const INTERNAL_ERROR: &str = r#"internal error

`internal error: NAME; please report this program`, status 70.

The compiler is wrong, and not what it was given: something that it relies on
isn't so, and NAME says what. No program is known that ends like this. Please
report one that does, with its files and the command.
"#;
