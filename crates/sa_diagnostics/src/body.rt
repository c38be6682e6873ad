//! The rules of bodies, and which module has the sentences of which.

use crate::calls::call_without_fit;
use crate::iters::about_iter;
use crate::names::{about_name, unknown_name};
use crate::operators::comparison_with_void;
use crate::typing::wrong_type;
use crate::{Message, SourceContext};
use failure::Failure;
use sa_ast::Rule;

/// Says what is wrong at the position, where a rule of bodies is broken there and the tokens and the classes show more than the rule.
///
/// # Errors
///
/// `NoMemory` where memory runs out.
pub fn about_body(scene: SourceContext<'_>, rule: Rule, said: &mut Message) -> Result<(), Failure> {
    match rule {
        Rule::UnknownName => unknown_name(scene, said),
        Rule::PrivateFeature | Rule::DeclaredTwice | Rule::BadBind | Rule::TypecaseVariable => {
            about_name(scene, rule, said)
        }
        Rule::NoFeatureFits => call_without_fit(scene, said),
        Rule::WrongType => wrong_type(scene, said),
        Rule::NoTypeFromContext => Ok(comparison_with_void(scene, said)?),
        Rule::IterOutsideLoop
        | Rule::IterInSelfOrOnce
        | Rule::OutOfPlace
        | Rule::NotAllowedInProtect => about_iter(scene, rule, said),
        _ => Ok(()),
    }
}
