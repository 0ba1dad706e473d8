// What is found at an argument.
use command_tables::Rule;

/// A rule that fails at an argument of a call.
#[derive(Clone, Copy, Debug, PartialEq, Eq)]
pub struct Finding {
    /// The place of the part in its chain, from 1; place 0 is the loader's.
    pub place: u32,
    /// The parameter, from 0.
    pub param: u8,
    /// The place in the parameter's list, from 0.
    pub index: u32,
    pub rule: Rule,
    /// How many living children the object has for the rule on children, and 0 for other rules.
    pub detail: u64,
}
