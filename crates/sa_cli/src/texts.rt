//! The texts of `help` and `version`. man/sather.1 has the same commands and options, which `./test` compares.

/// All commands.
pub(crate) const ALL: &str =
    r#"sather compiles Sather, the language of iters, to WebAssembly, and runs it.

  sather run FILE..              compile the program in the files, and run it
  sather build -o OUT FILE..     compile it, and write its module to OUT
  sather check FILE..            tell whether it is accepted
  sather exec MODULE             run a module
  sather gen N                   print a program of N classes
  sather selftest N              compile and run that program
  sather listing MODULE          print a module as a text
  sather assemble -o OUT FILE    write the module of such a text to OUT
  sather dump --FORM FILE..      print its AST, typed AST, CFG or regions
  sather help [COMMAND]          print this page, or that of a command
  sather version                 print the version
  sather explain WORD            explain a line on err, as E33 or index
  sather lib [NAME]              list the classes of the library, or print them

sather help run, or sather run --help, has the options of run and an example.
Write a program into hello.sa

  class MAIN is
     main is #OUT + "Hello\n"; end;
  end;

and try: sather run hello.sa
"#;

/// `run`
pub(crate) const RUN: &str = r#"sather run [OPTION].. FILE..

Compiles the program in the files, and runs it. One of the classes is MAIN,
with a routine main. The status is what main gives, from 0 to 255, or 0. The
input is the program's, so that no FILE is -.

  --fuel N      let it make at most N steps, from 0 to 18446744073709551615;
                without the option the greatest number
  --room KIB    give it so many KiB for objects and texts, from 64 to 1048576;
                without the option 65536
  --stats       at the end tell on err the steps and the bytes of the module
  --contracts   check pre, post and invariant while it runs
  --trace       tell on err what becomes of each instance of an iter
  --explain     at the end tell on err what a refusal or a fault means, and
                what to do

  sather run --contracts stack.sa

Classes of the library stand beside the program:

  sather lib fmap.sa > fmap.sa
  sather run words.sa fmap.sa
"#;

/// `build`
pub(crate) const BUILD: &str = r#"sather build [OPTION].. -o OUT FILE..

Compiles the program in the files, and writes its module to OUT, which is none
of these files. A program that is refused leaves OUT as it is. The FILE - is
the input.

  -o OUT        the file to which the module is written
  --sites SITES write the file and the line of each site of a fault to SITES, as
                JSON; it is another file than OUT and these
  --room KIB    give it so many KiB for objects and texts, from 64 to 1048576;
                without the option 65536
  --contracts   check pre, post and invariant while it runs
  --explain     at the end tell on err what a refusal or a fault means, and
                what to do

  sather build -o hello.wasm hello.sa
  sather exec hello.wasm
"#;

/// `check`
pub(crate) const CHECK: &str = r#"sather check [OPTION].. FILE..

Tells whether the program in the files is accepted. One of the classes is MAIN,
with a routine main. The FILE - is the input, of which a refusal says -:3, as
of another file hello.sa:3.

  --contracts   check it with the checks of pre, post and invariant in it
  --all         tell the first refusal of each feature, and check classes that
                nothing needs too; then the files need no MAIN
  --explain     at the end tell on err what a refusal or a fault means, and
                what to do

  sather check hello.sa
  sather check - < hello.sa
"#;

/// `exec`
pub(crate) const EXEC: &str = r#"sather exec [OPTION].. MODULE

Decodes, validates, links and runs a module of WebAssembly Core 1.0, by this
compiler or another one. The status is what main gives, from 0 to 255, or 0.
The input is the module's, so that MODULE isn't -.

  --fuel N      let it make at most N steps, from 0 to 18446744073709551615;
                without the option the greatest number
  --pages N     let its memory have at most N pages of 64 KiB, from 0 to 65536;
                one that begins with more is out of memory, and a further page
                is refused to the module, which goes on without it
  --stats       at the end tell on err the steps and the bytes of the module
  --explain     at the end tell on err what its line means, and
                what to do

  sather exec --fuel 1000000 --pages 1100 hello.wasm
"#;

/// `gen`
pub(crate) const GEN: &str = r#"sather gen N

Prints the source of a program of N classes, from 1 to 500, each with an iter
that calls that of the class before.

  sather gen 3 > chain.sa
"#;

/// `selftest`
pub(crate) const SELFTEST: &str = r#"sather selftest N

Compiles and runs the program that sather gen N prints, N from 1 to 500, with
an empty input, and tells how many bytes it has put out, and its status.

  sather selftest 500
"#;

/// `listing`
pub(crate) const LISTING: &str = r#"sather listing MODULE

Prints the listing of a module: a text with an item or an instruction on each
line, of which sather assemble makes the module again. The MODULE - is the
input.

  sather listing hello.wasm > hello.txt
"#;

/// `assemble`
pub(crate) const ASSEMBLE: &str = r#"sather assemble -o OUT FILE

Writes the module of the listing in the file to OUT, which is another file.
The FILE - is the input.

  -o OUT        the file to which the module is written

  sather assemble -o hello.wasm hello.txt
"#;

/// `dump`
pub(crate) const DUMP: &str = r#"sather dump --ast|--typed|--cfg|--regions [OPTION].. FILE..

Prints a form that the program in the files has on its way to a module, one
of these. A program that check refuses is refused. The FILE - is the input.

  --ast         the AST of the source
  --typed       the typed AST: types, choices and sites in place of names
  --cfg         the control-flow graph of each body: blocks of operations
  --regions     the structured regions that these blocks stand in
  --contracts   with the checks of pre, post and invariant in it
  --all         print what no file writes too: the prelude, and what the
                compiler adds
  --explain     at the end tell on err what a refusal means, and what to do

  sather dump --cfg hello.sa
"#;

/// `help`
pub(crate) const HELP: &str = r#"sather help [COMMAND]

Prints what a command does, with its options and an example, or a line for
each command. With --help or -h a command prints its help too.

  sather help run
"#;

/// `version`
pub(crate) const VERSION_HELP: &str = r#"sather version

Prints the version, as sather --version and sather -V do.

  sather version
"#;

/// `explain`
pub(crate) const EXPLAIN: &str = r#"sather explain WORD

Prints what a line on err says: what is wrong, a program that gets the line,
and the same mended. WORD is the code of a refusal, or the text of a refusal,
a fault or another line as it stands there; one of several words is quoted.

  sather explain E33
  sather explain index
  sather explain "store fault"
"#;

/// `lib`
pub(crate) const LIBRARY: &str = r#"sather lib [NAME]

Lists the files of the library, each with what its classes are for, or prints
the one of this name, to be put beside a program.

  sather lib fmap.sa > fmap.sa
  sather run words.sa fmap.sa
"#;

/// The version.
pub(crate) const VERSION: &str =
    "sather 1.0: a profile of Sather 1.1, to modules of WebAssembly Core 1.0\n";
