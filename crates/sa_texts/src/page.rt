//! Which text a word asks for. The texts are in parts, since the prover takes only so much of a constant.

ghost use Rattle.std.specs.Prelude.{◌≡◌, map, option_map};
ghost use Rattle.sa_texts.specs.Pages as spec;
ghost use Rattle.sa_texts.specs.Pages.{asked_row, seen_row};

use crate::{errors, library};

/// The page that explains a code, such as `E33`, or the text of a line, such as `index`; none where no page does.
pub fn error_page(word: &str) -> Option<&'static str>
    ensures { option_map (λ page. page.now) result ≡ spec.error_page word.now }
{
    let text = text_behind(errors_11(), word);
    let text = before(text_behind(errors_10(), word), text);
    let text = before(text_behind(errors_9(), word), text);
    let text = before(text_behind(errors_8(), word), text);
    let text = before(text_behind(errors_7(), word), text);
    let text = before(text_behind(errors_6(), word), text);
    let text = before(text_behind(errors_5(), word), text);
    let text = before(text_behind(errors_4(), word), text);
    let text = before(text_behind(errors_3(), word), text);
    let text = before(text_behind(errors_2(), word), text);
    let text = before(text_behind(errors_1(), word), text);
    let text = before(text_behind(errors_0(), word), text);
    text
}

/// The file of the library with this name, with `.sa` or without; none where there is none.
pub fn library_file(name: &str) -> Option<&'static str>
    ensures { option_map (λ file. file.now) result ≡ spec.library_file name.now }
{
    let text = text_behind(files_11(), name);
    let text = before(text_behind(files_10(), name), text);
    let text = before(text_behind(files_9(), name), text);
    let text = before(text_behind(files_8(), name), text);
    let text = before(text_behind(files_7(), name), text);
    let text = before(text_behind(files_6(), name), text);
    let text = before(text_behind(files_5(), name), text);
    let text = before(text_behind(files_4(), name), text);
    let text = before(text_behind(files_3(), name), text);
    let text = before(text_behind(files_2(), name), text);
    let text = before(text_behind(files_1(), name), text);
    let text = before(text_behind(files_0(), name), text);
    text
}

/// The list of the files of the library.
#[tactic(auto, unfolding(crate::specs::Pages::library_list))]
pub fn library_list() -> &'static str
    ensures { result.now ≡ spec.library_list }
{
    library::LISTED
}

/// The first text, or the second where there is no first.
fn before(first: Option<&'static str>, second: Option<&'static str>) -> Option<&'static str>
    ensures { option_map (λ text. text.now) result
        ≡ spec.before (option_map (λ text. text.now) first.entry) (option_map (λ text. text.now) second.entry) }
{
    match first {
        Some(text) => Some(text),
        None => second,
    }
}

/// The text of the first row of a table that has this word.
fn text_behind(
    table: &[(&'static str, &'static str, &'static str, &'static str)],
    word: &str,
) -> Option<&'static str>
    ensures { option_map (λ text. text.now) result ≡ asked_row word.now (map seen_row table.now) }
{
    match table.iter().find(|row| asks(word, *row)) {
        Some(row) => Some(row.3),
        None => None,
    }
}

/// Whether the word is one of the row's.
fn asks(word: &str, row: &(&'static str, &'static str, &'static str, &'static str)) -> bool
    ensures { result ≡ spec.asks word.now (seen_row row.now) }
{
    word == row.0 || word == row.1 || word == row.2
}

#[tactic(auto, unfolding(crate::specs::Pages::errors_0))]
fn errors_0() -> &'static [(&'static str, &'static str, &'static str, &'static str)]
    ensures { map seen_row result.now ≡ spec.errors_0 }
{
    &errors::part_0::ERRORS_0
}

#[tactic(auto, unfolding(crate::specs::Pages::errors_1))]
fn errors_1() -> &'static [(&'static str, &'static str, &'static str, &'static str)]
    ensures { map seen_row result.now ≡ spec.errors_1 }
{
    &errors::part_1::ERRORS_1
}

#[tactic(auto, unfolding(crate::specs::Pages::errors_2))]
fn errors_2() -> &'static [(&'static str, &'static str, &'static str, &'static str)]
    ensures { map seen_row result.now ≡ spec.errors_2 }
{
    &errors::part_2::ERRORS_2
}

#[tactic(auto, unfolding(crate::specs::Pages::errors_3))]
fn errors_3() -> &'static [(&'static str, &'static str, &'static str, &'static str)]
    ensures { map seen_row result.now ≡ spec.errors_3 }
{
    &errors::part_3::ERRORS_3
}

#[tactic(auto, unfolding(crate::specs::Pages::errors_4))]
fn errors_4() -> &'static [(&'static str, &'static str, &'static str, &'static str)]
    ensures { map seen_row result.now ≡ spec.errors_4 }
{
    &errors::part_4::ERRORS_4
}

#[tactic(auto, unfolding(crate::specs::Pages::errors_5))]
fn errors_5() -> &'static [(&'static str, &'static str, &'static str, &'static str)]
    ensures { map seen_row result.now ≡ spec.errors_5 }
{
    &errors::part_5::ERRORS_5
}

#[tactic(auto, unfolding(crate::specs::Pages::errors_6))]
fn errors_6() -> &'static [(&'static str, &'static str, &'static str, &'static str)]
    ensures { map seen_row result.now ≡ spec.errors_6 }
{
    &errors::part_6::ERRORS_6
}

#[tactic(auto, unfolding(crate::specs::Pages::errors_7))]
fn errors_7() -> &'static [(&'static str, &'static str, &'static str, &'static str)]
    ensures { map seen_row result.now ≡ spec.errors_7 }
{
    &errors::part_7::ERRORS_7
}

#[tactic(auto, unfolding(crate::specs::Pages::errors_8))]
fn errors_8() -> &'static [(&'static str, &'static str, &'static str, &'static str)]
    ensures { map seen_row result.now ≡ spec.errors_8 }
{
    &errors::part_8::ERRORS_8
}

#[tactic(auto, unfolding(crate::specs::Pages::errors_9))]
fn errors_9() -> &'static [(&'static str, &'static str, &'static str, &'static str)]
    ensures { map seen_row result.now ≡ spec.errors_9 }
{
    &errors::part_9::ERRORS_9
}

#[tactic(auto, unfolding(crate::specs::Pages::errors_10))]
fn errors_10() -> &'static [(&'static str, &'static str, &'static str, &'static str)]
    ensures { map seen_row result.now ≡ spec.errors_10 }
{
    &errors::part_10::ERRORS_10
}

#[tactic(auto, unfolding(crate::specs::Pages::errors_11))]
fn errors_11() -> &'static [(&'static str, &'static str, &'static str, &'static str)]
    ensures { map seen_row result.now ≡ spec.errors_11 }
{
    &errors::part_11::ERRORS_11
}

#[tactic(auto, unfolding(crate::specs::Pages::files_0))]
fn files_0() -> &'static [(&'static str, &'static str, &'static str, &'static str)]
    ensures { map seen_row result.now ≡ spec.files_0 }
{
    &library::part_0::FILES_0
}

#[tactic(auto, unfolding(crate::specs::Pages::files_1))]
fn files_1() -> &'static [(&'static str, &'static str, &'static str, &'static str)]
    ensures { map seen_row result.now ≡ spec.files_1 }
{
    &library::part_1::FILES_1
}

#[tactic(auto, unfolding(crate::specs::Pages::files_2))]
fn files_2() -> &'static [(&'static str, &'static str, &'static str, &'static str)]
    ensures { map seen_row result.now ≡ spec.files_2 }
{
    &library::part_2::FILES_2
}

#[tactic(auto, unfolding(crate::specs::Pages::files_3))]
fn files_3() -> &'static [(&'static str, &'static str, &'static str, &'static str)]
    ensures { map seen_row result.now ≡ spec.files_3 }
{
    &library::part_3::FILES_3
}

#[tactic(auto, unfolding(crate::specs::Pages::files_4))]
fn files_4() -> &'static [(&'static str, &'static str, &'static str, &'static str)]
    ensures { map seen_row result.now ≡ spec.files_4 }
{
    &library::part_4::FILES_4
}

#[tactic(auto, unfolding(crate::specs::Pages::files_5))]
fn files_5() -> &'static [(&'static str, &'static str, &'static str, &'static str)]
    ensures { map seen_row result.now ≡ spec.files_5 }
{
    &library::part_5::FILES_5
}

#[tactic(auto, unfolding(crate::specs::Pages::files_6))]
fn files_6() -> &'static [(&'static str, &'static str, &'static str, &'static str)]
    ensures { map seen_row result.now ≡ spec.files_6 }
{
    &library::part_6::FILES_6
}

#[tactic(auto, unfolding(crate::specs::Pages::files_7))]
fn files_7() -> &'static [(&'static str, &'static str, &'static str, &'static str)]
    ensures { map seen_row result.now ≡ spec.files_7 }
{
    &library::part_7::FILES_7
}

#[tactic(auto, unfolding(crate::specs::Pages::files_8))]
fn files_8() -> &'static [(&'static str, &'static str, &'static str, &'static str)]
    ensures { map seen_row result.now ≡ spec.files_8 }
{
    &library::part_8::FILES_8
}

#[tactic(auto, unfolding(crate::specs::Pages::files_9))]
fn files_9() -> &'static [(&'static str, &'static str, &'static str, &'static str)]
    ensures { map seen_row result.now ≡ spec.files_9 }
{
    &library::part_9::FILES_9
}

#[tactic(auto, unfolding(crate::specs::Pages::files_10))]
fn files_10() -> &'static [(&'static str, &'static str, &'static str, &'static str)]
    ensures { map seen_row result.now ≡ spec.files_10 }
{
    &library::part_10::FILES_10
}

#[tactic(auto, unfolding(crate::specs::Pages::files_11))]
fn files_11() -> &'static [(&'static str, &'static str, &'static str, &'static str)]
    ensures { map seen_row result.now ≡ spec.files_11 }
{
    &library::part_11::FILES_11
}
