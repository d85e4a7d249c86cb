//! Cases that only tell what they are, to see that files of cases are read as they should be.
#![tactic(auto)]

use case_file::{Answers, Settings, judge};
use std::alloc::{AllocError, Global};
use std::io;
use std::rt::Runtime;

/// Each case is answered by its input, with the setting `before` in front.
struct Echo;

impl Answers for Echo {
    fn answer(
        &self,
        alloc: Global,
        settings: &Settings,
        _key: &str,
        input: &[u8],
    ) -> Result<Vec<u8>, AllocError> {
        let mut answer = settings.bytes("before").to_vec(alloc)?;
        answer.extend_from_slice(input)?;
        Ok(answer)
    }
}

fn main(rt: HostRuntime) -> io::Result<()> {
    judge(&rt, "self", &Echo)
}
