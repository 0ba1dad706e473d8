// What the parts of a layer say of a call.
ghost use Rattle.std.specs.Prelude.{◌≡◌, ◌≤◌, [], false, vec_capacity, IfOk};

use crate::finding::Finding;
use command_tables::NoMemory;
use std::alloc::Global;

/// What was found at a call so far, and whether the call is to be skipped.
pub struct Verdict {
    pub findings: Vec<Finding>,
    pub skip: bool,
}

impl Drop for Verdict {
    fn drop(self) {
        let Verdict {
            findings: _findings,
            skip: _skip,
        } = self;
    }
}

impl Verdict {
    /// Nothing is found yet, and the call goes down.
    pub fn new(alloc: Global) -> Verdict
        ensures findings { result.findings.items ≡ [] }
        ensures skip { result.skip ≡ false }
    {
        Verdict {
            findings: Vec::new(alloc),
            skip: false,
        }
    }

    /// The same, and so many findings can be held with no further memory.
    pub fn with_room(alloc: Global, findings: usize) -> Result<Verdict, NoMemory>
        ensures findings { IfOk result (λ verdict. verdict.findings.items ≡ []) }
        ensures skip { IfOk result (λ verdict. verdict.skip ≡ false) }
        ensures room { IfOk result (λ verdict. findings ≤ vec_capacity verdict.findings) }
    {
        Ok(Verdict {
            findings: Vec::with_capacity(alloc, findings)?,
            skip: false,
        })
    }
}
