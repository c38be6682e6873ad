//! Classes and their headers: E08, E10, E12, E13, E19, E24; and their features: E11, E16, E20, E22.

use crate::library::library_file;
use failure::Failure;
use sa_ast::{Class, ClassKind, Feature, FeatureBody as FeaturePart, Rule, Ty};
use sa_diagnostics::{
    Message, MessagePart, Quality, SourceContext, class_near, count_in, feature_in, feature_near,
    plain_name,
};
use sa_lexer::{Sign, TokenKind};
use std::alloc::AllocError;

/// Says what is wrong with the class at the position.
pub(crate) fn about_class(
    scene: SourceContext<'_>,
    rule: Rule,
    said: &mut Message,
) -> Result<(), Failure> {
    match rule {
        Rule::WordNotTaken => refused_word(scene, said)?,
        Rule::ClassDefinedTwice => defined_twice(scene, said)?,
        Rule::ClassNotUsable => not_usable(scene, said)?,
        Rule::ParameterCount => parameter_count(scene, said)?,
        Rule::SupertypeNotAbstract => not_abstract(scene, said)?,
        _ => no_main(scene, said)?,
    }
    Ok(())
}

/// Says what is wrong with the feature at the position.
pub(crate) fn about_features(
    scene: SourceContext<'_>,
    rule: Rule,
    said: &mut Message,
) -> Result<(), Failure> {
    match rule {
        Rule::FeaturesConflict => conflict(scene, said)?,
        Rule::NoSuchIncludedFeature => no_such_change(scene, said)?,
        Rule::StubLeft => stub_left(scene, said)?,
        _ => lacking_feature(scene, said)?,
    }
    Ok(())
}

fn refused_word(scene: SourceContext<'_>, said: &mut Message) -> Result<(), AllocError> {
    said.say(&[
        MessagePart::Code(scene.name()),
        MessagePart::Words(
            " is a word of parallel Sather, which this compiler doesn't take, so it is no name either.",
        ),
    ])?;
    said.say_words("Choose another name.")
}

/// A class that has the name of another one.
fn defined_twice(scene: SourceContext<'_>, said: &mut Message) -> Result<(), AllocError> {
    let name = scene.name();
    let Some(first) = scene.table.class(name) else {
        return Ok(());
    };
    let pos = first.name.pos;
    if pos.file == 0 {
        said.say(&[
            MessagePart::Code(name),
            MessagePart::Words(" is a class of the prelude, which every program has."),
        ])?;
    } else {
        said.say(&[
            MessagePart::Code(name),
            MessagePart::Words(" is defined in "),
            MessagePart::File(scene.table.file(pos)),
            MessagePart::Words(":"),
            MessagePart::Number(scene.table.line(pos)),
            MessagePart::Words(" too."),
        ])?;
    }
    said.say_words("Give this class another name.")
}

/// The class that is meant at the position: after `#`, before `::`, or at the position itself.
fn class_token(scene: SourceContext<'_>) -> usize {
    if scene.tokens.is_sign(scene.at, Sign::Hash) {
        return scene.at.saturating_add(1);
    }
    if scene.tokens.is_sign_back(scene.at, 1, Sign::DoubleColon) {
        return scene.at.saturating_sub(2);
    }
    scene.at
}

/// A type whose class doesn't exist, or isn't allowed there.
fn not_usable(scene: SourceContext<'_>, said: &mut Message) -> Result<(), AllocError> {
    let at = class_token(scene);
    let name = scene.tokens.bytes(at);
    if !matches!(
        scene.tokens.kind(at),
        Some(TokenKind::ClassName | TokenKind::AbstractName)
    ) {
        return Ok(());
    }
    said.mark = scene.span(at);
    match scene.table.class(name) {
        Some(class) => kept_out(scene, class, said),
        None => unknown_class(scene, name, said),
    }
}

/// A class that exists, and isn't allowed at the position.
fn kept_out(scene: SourceContext<'_>, class: &Class, said: &mut Message) -> Result<(), AllocError> {
    let name = class.name.name.as_slice();
    match class.kind {
        ClassKind::Partial => {
            said.say(&[
                MessagePart::Code(name),
                MessagePart::Words(" is partial: it is there to be included, and is no type."),
            ])?;
            said.say_words("Write a class that includes it, and use that.")
        }
        ClassKind::Abstract => {
            said.say(&[
                MessagePart::Code(name),
                MessagePart::Words(
                    " is abstract: it has no objects and no code, and isn't included.",
                ),
            ])?;
            said.say_words("Write a class that stands below it.")
        }
        _ => {
            said.say(&[
                MessagePart::Code(name),
                MessagePart::Words(" is a class, but it can't stand here."),
            ])?;
            said.say_words(
                "The classes BOOL, INT, CHAR, STR, OUT, IN and SYS aren't included, and a parameter hides a class of its name.",
            )
        }
    }
}

/// A name that no class has.
fn unknown_class<'a>(
    scene: SourceContext<'a>,
    name: &'a [u8],
    said: &mut Message,
) -> Result<(), AllocError> {
    said.say(&[
        MessagePart::Words("There is no class "),
        MessagePart::Code(name),
        MessagePart::Words("."),
    ])?;
    if let Some(remedy) = known_elsewhere(name) {
        return said.say_words(remedy);
    }
    if let Some(file) = library_file(name) {
        return said.say(&[
            MessagePart::Words("The library has it: write `sather lib "),
            MessagePart::Words(file),
            MessagePart::Words(" > "),
            MessagePart::Words(file),
            MessagePart::Words(".sa`, and name this file in the command too."),
        ]);
    }
    match class_near(scene, name)? {
        Some(near) => said.say(&[
            MessagePart::Words("Did you mean "),
            MessagePart::Code(near),
            MessagePart::Words("?"),
        ]),
        None => said.say_words("Write it, or name its file in the command beside this one."),
    }
}

/// The class of this language that corresponds to a class of another one.
fn known_elsewhere(name: &[u8]) -> Option<&'static str> {
    Some(match name {
        b"STRING" => "A text is a STR.",
        b"FLT" | b"FLTD" | b"FLTX" | b"FLOAT" | b"DOUBLE" | b"REAL" => {
            "There are whole numbers alone: count the parts, as tenths in an INT, or take FIXED of the library, `sather lib fixed > fixed.sa`."
        }
        b"INTEGER" | b"LONG" | b"SHORT" | b"NUMBER" =>
            "A whole number is an INT, up to 2147483647.",
        b"BOOLEAN" => "The class of `true` and `false` is BOOL.",
        b"CHARACTER" | b"BYTE" => "A byte is a CHAR.",
        b"VECTOR" => "A list that grows is an FLIST, as `FLIST{INT}`.",
        b"OBJECT" | b"ANY" => "The class above all others is $OB.",
        b"MAP" | b"SET" =>
            "The library has FMAP and FSET: write `sather lib fmap > fmap.sa`, and name this file in the command too.",
        b"FILE" =>
            "A program reads its input, as by `#IN.get_str`, and writes its output; it opens no files.",
        b"ERR" => "All output is that of `#OUT`.",
        b"UNIX" => "A program ends where `main` does: write `main:INT is`, and return the status.",
        b"VOID" => "A routine without a result has no type behind its arguments.",
        _ => return None,
    })
}

/// A type with too many or too few type arguments.
fn parameter_count(scene: SourceContext<'_>, said: &mut Message) -> Result<(), AllocError> {
    let at = class_token(scene);
    let Some(class) = scene.table.class(scene.tokens.bytes(at)) else {
        return Ok(());
    };
    let name = class.name.name.as_slice();
    said.mark = scene.span(at);
    match class.params.as_slice() {
        [] => {
            said.say(&[
                MessagePart::Code(name),
                MessagePart::Words(" has no parameters."),
            ])?;
            said.say(&[
                MessagePart::Words("Write "),
                MessagePart::Code(name),
                MessagePart::Words(" alone."),
            ])
        }
        [_] => {
            said.say(&[
                MessagePart::Code(name),
                MessagePart::Words(
                    " has one parameter, and becomes a type by one type between braces.",
                ),
            ])?;
            said.say(&[
                MessagePart::Words("Write it so, as `"),
                MessagePart::Plain(name),
                MessagePart::Words("{INT}`."),
            ])
        }
        params => {
            said.say(&[
                MessagePart::Code(name),
                MessagePart::Words(" has "),
                MessagePart::Number(params.len()),
                MessagePart::Words(
                    " parameters, and becomes a type by as many types between braces.",
                ),
            ])?;
            said.say_words("Write a type for each, with commas between them.")
        }
    }
}

fn not_abstract(scene: SourceContext<'_>, said: &mut Message) -> Result<(), AllocError> {
    let name = scene.name();
    said.say(&[
        MessagePart::Code(name),
        MessagePart::Words(" isn't abstract, and only abstract classes have types below them."),
    ])?;
    said.say(&[
        MessagePart::Words("To take over its code write `include "),
        MessagePart::Plain(name),
        MessagePart::Words(";` in this class."),
    ])
}

/// A program without a routine to begin at.
fn no_main(scene: SourceContext<'_>, said: &mut Message) -> Result<(), AllocError> {
    let Some(class) = scene.table.class(b"MAIN".as_slice()) else {
        said.say_words("There is no class MAIN, at whose routine `main` a program begins.")?;
        return said.say_words(
            "Write `class MAIN is main is .. end; end;`, or name its file in the command.",
        );
    };
    if class.kind != ClassKind::Reference || !class.params.is_empty() {
        said.say_words("MAIN is neither immutable nor partial, and has no parameters.")?;
        return said.say_words("Write `class MAIN is`.");
    }
    if !class.includes.is_empty() {
        return Ok(());
    }
    let Some(main) = feature_in(class, b"main".as_slice()) else {
        said.say_words("MAIN has no routine `main`, at which a program begins.")?;
        return said.say_words("Write `main is .. end;` in it.");
    };
    main_of_another_form(scene, class, main, said)
}

/// A `main` that can't be run.
fn main_of_another_form(
    scene: SourceContext<'_>,
    class: &Class,
    main: &Feature,
    said: &mut Message,
) -> Result<(), AllocError> {
    if count_in(class, b"main".as_slice(), Quality::Any) > 1 {
        said.say_words(
            "MAIN has several features `main`, and one of them alone can be run, without arguments.",
        )?;
        return said.say_words("Give the others another name.");
    }
    let at = scene.tokens.number_at(main.name.pos.at as usize);
    if main.name.pos.file == scene.pos.file {
        said.mark = scene.span(at);
    }
    if !main.formals.is_empty() {
        said.say_words("`main` takes no arguments: the words of a command don't reach a program.")?;
        return said.say_words(
            "Write `main is`, and read what the program has to know from its input, as by `#IN.get_str`.",
        );
    }
    if !matches!(main.part, FeaturePart::Routine(_)) {
        said.say_words("`main` of MAIN is no routine with a body.")?;
        return said.say_words("Write `main is .. end;`.");
    }
    said.say_words("`main` gives nothing, or an INT that becomes the status.")?;
    said.say_words("Write `main is` or `main:INT is`.")
}

/// A feature that can't be distinguished from another one of its class.
fn conflict(scene: SourceContext<'_>, said: &mut Message) -> Result<(), AllocError> {
    let Some(class) = scene.table.class_at(scene.pos) else {
        return Ok(());
    };
    let name = scene.name();
    let Some(first) = feature_in(class, name) else {
        return Ok(());
    };
    if first.name.pos == scene.pos {
        return Ok(());
    }
    said.say(&[
        MessagePart::Plain(class.name.name.as_slice()),
        MessagePart::Words(" has a feature "),
        MessagePart::Code(name),
        MessagePart::Words(" in line "),
        MessagePart::Number(scene.table.line(first.name.pos)),
        MessagePart::Words(
            " too, and no call could tell features of one name and the same arguments apart.",
        ),
    ])?;
    said.say_words(
        "Take one of them away, or give it another name. An attribute is a routine that reads it.",
    )
}

/// A renaming of a feature that doesn't exist.
fn no_such_change(scene: SourceContext<'_>, said: &mut Message) -> Result<(), AllocError> {
    let from_iter = matches!(scene.tokens.kind(scene.at), Some(TokenKind::IterName));
    let to = scene.at.saturating_add(2);
    if scene.tokens.is_feature_name(to)
        && from_iter != matches!(scene.tokens.kind(to), Some(TokenKind::IterName))
    {
        said.say_words(
            "A routine gets the name of a routine, and an iter that of an iter, which ends in `!`.",
        )?;
        return said.say_words("Write both names of a change with `!`, or none.");
    }
    said.say(&[
        MessagePart::Words("What is included has no feature "),
        MessagePart::Code(scene.name()),
        MessagePart::Words(", which is the left name of this change."),
    ])?;
    match feature_near(scene, scene.name())? {
        Some(near) => said.say(&[
            MessagePart::Words("Did you mean "),
            MessagePart::Code(near),
            MessagePart::Words(
                "? The old name stands on the left of `->`, the new one on its right.",
            ),
        ]),
        None => said.say_words(
            "The old name stands on the left of `->`, the new one on its right.",
        ),
    }
}

fn stub_left(scene: SourceContext<'_>, said: &mut Message) -> Result<(), AllocError> {
    let Some(class) = scene.table.class_at(scene.pos) else {
        return Ok(());
    };
    said.say(&[
        MessagePart::Code(scene.name()),
        MessagePart::Words(" is a stub of "),
        MessagePart::Plain(class.name.name.as_slice()),
        MessagePart::Words(", and a class that isn't partial has it without a body."),
    ])?;
    said.say(&[
        MessagePart::Words("Write "),
        MessagePart::Code(scene.name()),
        MessagePart::Words(" in the class that includes "),
        MessagePart::Plain(class.name.name.as_slice()),
        MessagePart::Words("."),
    ])
}

/// A class that lacks a feature of an abstract supertype.
fn lacking_feature(scene: SourceContext<'_>, said: &mut Message) -> Result<(), AllocError> {
    let Some(class) = scene.table.class(scene.name()) else {
        return Ok(());
    };
    if !class.includes.is_empty() || class.kind == ClassKind::Abstract {
        return Ok(());
    }
    for above in class.below.as_slice() {
        if let Ty::Named(name, _, _) = above
            && let Some(above) = scene.table.class(name.as_slice())
            && let Some(wanted) = first_lacking(class, above)
        {
            return says_lacking(class, above, wanted, said);
        }
    }
    Ok(())
}

/// The first signature of a supertype for which a class writes no feature with its name, or only one of another form.
fn first_lacking<'a>(class: &Class, above: &'a Class) -> Option<&'a Feature> {
    above
        .features
        .as_slice()
        .iter()
        .find(|wanted| lacks(class, wanted))
}

/// Whether a class writes no feature with the name and the number of arguments of a signature.
fn lacks(class: &Class, wanted: &Feature) -> bool {
    count_in(
        class,
        wanted.name.name.as_slice(),
        Quality::Takes(wanted.formals.len()),
    ) == 0
}

fn says_lacking<'a>(
    class: &'a Class,
    above: &'a Class,
    wanted: &'a Feature,
    said: &mut Message,
) -> Result<(), AllocError> {
    let name = wanted.name.name.as_slice();
    said.say(&[
        MessagePart::Plain(class.name.name.as_slice()),
        MessagePart::Words(" has no "),
        MessagePart::Code(name),
        MessagePart::Words(" with "),
        MessagePart::Arguments(wanted.formals.len()),
        MessagePart::Words(", which "),
        MessagePart::Plain(above.name.name.as_slice()),
        MessagePart::Words(" wants of each class below it."),
    ])?;
    match &wanted.result {
        Some(ty) => said.say(&[
            MessagePart::Words(
                "Write it with the arguments of the signature, and with its result ",
            ),
            MessagePart::Plain(plain_name(ty).unwrap_or(b"type".as_slice())),
            MessagePart::Words("."),
        ]),
        None => said.say_words(
            "Write it with the arguments of the signature, and without a result.",
        ),
    }
}
