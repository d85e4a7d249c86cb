//! The program's sources and sinks over files and standard streams, as its words name them.
ghost use Rattle.std.specs.Prelude.{◌≡◌, IfOk};
ghost use Rattle.screen_io.specs.Target.{fresh};
ghost use Rattle.screen_words.specs.Command.{command_of, roles_of, texts};
ghost use Rattle.screen_words.specs.RealEnds.{ReadsFrom, WritesTo, source_of, sink_of};

use crate::command::roles;
use crate::ends::{EndUse, Inputs, Outputs};
use screen_io::{RealSink, RealSource};
use std::alloc::AllocError;
use std::rt::Runtime;

/// Makes the ends that the words name. No file is opened or created before its first call. Fails only
/// where memory ran out.
pub fn real_ends<R: Runtime>(
    rt: &R,
    words: &[String],
) -> Result<(Inputs<RealSource<R>>, Outputs<RealSink<R>>), AllocError>
    ensures sources { IfOk result (λ ends. ReadsFrom (texts words.now) (roles_of (command_of (texts words.now))) ends.0) }
    ensures sinks { IfOk result (λ ends. WritesTo (texts words.now) (roles_of (command_of (texts words.now))) ends.1) }
{
    let roles = roles(words);
    let ins = Inputs {
        rules: source(rt, words, roles.rules)?,
        readings: source(rt, words, roles.readings)?,
        cert: source(rt, words, roles.cert_read)?,
    };
    let outs = Outputs {
        out: sink(rt, words, roles.out)?,
        cert: sink(rt, words, roles.cert_written)?,
        note: RealSink::error(rt.clone()?),
    };
    Ok((ins, outs))
}

/// The source that an end is.
fn source<R: Runtime>(rt: &R, words: &[String], end: EndUse) -> Result<RealSource<R>, AllocError>
    ensures { IfOk result (λ source. source ≡ fresh (source_of (texts words.now) end)) }
{
    match end {
        EndUse::Word(place) => match words.get(place as usize) {
            Some(name) => Ok(RealSource::file(rt.clone()?, name.clone()?)),
            None => Ok(RealSource::nothing()),
        },
        EndUse::Input => Ok(RealSource::input(rt.clone()?)),
        EndUse::Output | EndUse::Nothing => Ok(RealSource::nothing()),
    }
}

/// The sink that an end is.
fn sink<R: Runtime>(rt: &R, words: &[String], end: EndUse) -> Result<RealSink<R>, AllocError>
    ensures { IfOk result (λ sink. sink ≡ fresh (sink_of (texts words.now) end)) }
{
    match end {
        EndUse::Word(place) => match words.get(place as usize) {
            Some(name) => Ok(RealSink::file(rt.clone()?, name.clone()?)),
            None => Ok(RealSink::nothing()),
        },
        EndUse::Output => Ok(RealSink::output(rt.clone()?)),
        EndUse::Input | EndUse::Nothing => Ok(RealSink::nothing()),
    }
}
