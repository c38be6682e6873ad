//! The correctness statement of the compiler: what is promised of a program and of the module that is made of it, as definitions. They say
//! when two runs end alike, how many steps a program may take, and each part of the promise. No code runs them.
#![tactic(auto)]
