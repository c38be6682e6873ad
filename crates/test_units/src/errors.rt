//! What the errors of `sa_ast` print.

use failure::{Failure, NoMemory};
use sa_ast::{Pos, Rejection, Rule};
use std::alloc::AllocError;

#[test]
fn an_error_prints_its_cause(rt: HostRuntime) -> Result<(), AllocError> {
    let alloc = rt.alloc();
    let pos = Pos { file: 1, at: 0 };
    let refused = Rejection::Refused(Rule::NestedTooDeep.at(pos));
    assert_eq!(rt; refused.to_string(alloc)?.as_str(), "E07: nested too deep");
    assert_eq!(rt;
        Rejection::Failed(Failure::NoMemory)
            .to_string(alloc)?
            .as_str(),
        "out of memory"
    );
    assert_eq!(rt; NoMemory.to_string(alloc)?.as_str(), "out of memory");
    Ok(())
}
