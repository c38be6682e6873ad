//! Which text belongs to which topic.

ghost use Rattle.std.specs.Prelude.{◌≡◌};
ghost use Rattle.sa_cli.specs.Texts.{help_text, version_text};

use crate::{Topic, texts};

/// The help on a topic.
pub fn help_text(topic: Topic) -> &'static str
    ensures { result.now ≡ help_text topic }
{
    match topic {
        Topic::All => texts::ALL,
        Topic::Run => texts::RUN,
        Topic::Build => texts::BUILD,
        Topic::Check => texts::CHECK,
        Topic::Exec => texts::EXEC,
        Topic::Gen => texts::GEN,
        Topic::Selftest => texts::SELFTEST,
        Topic::Listing => texts::LISTING,
        Topic::Assemble => texts::ASSEMBLE,
        Topic::Dump => texts::DUMP,
        Topic::Help => texts::HELP,
        Topic::Version => texts::VERSION_HELP,
        Topic::Explain => texts::EXPLAIN,
        Topic::Library => texts::LIBRARY,
    }
}

/// The version.
pub fn version_text() -> &'static str
    ensures { result.now ≡ version_text }
{
    texts::VERSION
}
